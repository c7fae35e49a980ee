//! Where looking begins.
ghost use Rattle.std.specs.Prelude.{◌≡◌, ◌↔◌, true, false, IsSome, IsTrue};
ghost use Rattle.ir_program.specs.Lists.{StandsInBlock, StandsInOperation};
ghost use Rattle.ir_program.specs.Program.{operation_at};
ghost use Rattle.ir_program.specs.declared.handles.Operation.{Operation};
ghost use Rattle.ir_program.specs.declared.handles.Ptr.{Ptr};
ghost use Rattle.ir_trees.specs.Stands.{by_handle};
ghost use Rattle.opt_trees.specs.Simplify.{StartingRegions};
ghost use Rattle.opt_inside.specs.reach.Starts.{BeginsAtRegion, IsStartIn};

use ir_program::{BasicBlock, Operation, Program, Ptr, Region};

/// Where looking begins: the regions that are visited first.
#[derive(Clone, Copy)]
pub enum Start {
    /// At all regions of the operation.
    Operation(Ptr<Operation>),
    /// At all regions of the operations in the block.
    Block(Ptr<BasicBlock>),
    /// At the region.
    Region(Ptr<Region>),
}

/// Whether an operation stands in a block.
fn is_in_block<O, B>(program: &Program<O, B>, op: Ptr<Operation>, block: Ptr<BasicBlock>) -> bool
    requires { IsSome (operation_at program.now op) }
    ensures { IsTrue result ↔ StandsInBlock program.now op block }
{
    match program.parent_block(op) {
        Some(parent) => parent == block,
        None => false,
    }
}

/// Whether looking begins at a region of an operation.
pub(crate) fn begins_at<O, B>(
    program: &Program<O, B>,
    start: Start,
    owner: Ptr<Operation>,
    region: Ptr<Region>,
) -> bool
    requires { IsSome (operation_at program.now owner) }
    ensures { IsTrue result ↔ BeginsAtRegion program.now start owner region }
{
    match start {
        Start::Operation(op) => owner == op,
        Start::Block(block) => is_in_block(program, owner, block),
        Start::Region(first) => region == first,
    }
}

/// Whether a region is one of an operation.
fn has_owner<O, B>(program: &Program<O, B>, region: Ptr<Region>) -> bool
    ensures { IsTrue result ↔ ((q : Ptr Operation) × StandsInOperation program.now region q) }
{
    if !program.has_region(region) {
        return false;
    }
    let _owner = program.parent_operation(region);
    true
}

/// Whether looking can begin there: a region has to be one of an operation.
pub fn has_start<O, B>(program: &Program<O, B>, start: Start) -> bool
    ensures there { result ≡ true → (p : StartingRegions by_handle) × IsStartIn program.now start p }
    ensures nowhere { result ≡ false → (p : StartingRegions by_handle) → IsStartIn program.now start p → ⊥ }
{
    program.know_lists();
    match start {
        Start::Operation(_) => true,
        Start::Block(_) => true,
        Start::Region(region) => has_owner(program, region),
    }
}
