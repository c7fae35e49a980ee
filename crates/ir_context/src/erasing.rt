//! Whether entities may be erased, and erasing regions.
ghost use Rattle.std.specs.Prelude.{◌≡◌, ◌↔◌, IsSome, IsTrue};
ghost use Rattle.ir_program.specs.declared.handles.IRNode.TheVariants.{Region as RegionNode};
ghost use Rattle.ir_program.specs.Program.{region_at};
ghost use Rattle.ir_program.specs.Lists.{IsLiveNode};
ghost use Rattle.ir_program.specs.Drops.{DropsUses};
ghost use Rattle.ir_program.specs.Erased.{IsApart, ErasesRegion};

use crate::{TypeTable, TypedProgram};
use ir_program::{IRNode, Ptr, Region};

impl<O, B, T: TypeTable> TypedProgram<O, B, T> {
    /// Whether an entity may be erased: no operation outside it takes a value or may go on to a block that is inside.
    /// No memory is asked for.
    pub fn can_erase(&self, node: IRNode) -> bool
        requires { IsLiveNode self.now.program node }
        ensures { IsTrue result ↔ IsApart self.now.program node }
    {
        self.program.can_erase(node)
    }

    /// Takes all operands and successors of all operations inside an entity away, itself counted. They keep all else,
    /// and so does the rest of the program. No memory is asked for.
    pub fn drop_all_uses(&mut self, node: IRNode)
        requires { IsLiveNode self.old.program node }
        ensures dropped { DropsUses self.old.program self.new.program node }
        ensures types { self.new.types ≡ self.old.types }
    {
        self.program.drop_all_uses(node);
    }
}

impl<O: Drop, B: Drop, T: TypeTable> TypedProgram<O, B, T> {
    /// Erases a region with all that stands in it; the operation that it stood in keeps its other regions. The handle of
    /// the region, and those of all that stood in it, lead nowhere for good. No operation outside it takes a value or goes
    /// on to a block that is inside. No memory is asked for.
    pub fn erase_region(&mut self, region: Ptr<Region>)
        requires region { IsSome (region_at self.old.program region) }
        requires apart { IsApart self.old.program (RegionNode region) }
        ensures erased { ErasesRegion self.old.program self.new.program region }
        ensures types { self.new.types ≡ self.old.types }
    {
        self.program.erase_region(region);
        // So each value that is left stands at an entity that is left.
        self.program.know_values();
    }
}
