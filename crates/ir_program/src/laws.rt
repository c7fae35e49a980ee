//! What holds of every program.
ghost use Rattle.std.specs.Prelude.{◌≡◌, ℕ, ◌<◌, ◌^◌, Some};
ghost use Rattle.ir_base.specs.declared.types.TypeHandle.{TypeHandle};
ghost use Rattle.ir_program.specs.Program.{type_at, value_in, type_in, IsLiveValue};
ghost use Rattle.ir_program.specs.Uses.{IsUsed};
ghost use Rattle.ir_program.specs.Lists.{operations_in, blocks_in, regions_in};
ghost use Rattle.ir_program.specs.Returns.{IsWalkedBothWays, ReturnsOperations, ReturnsBlocks};
ghost use Rattle.ir_program.specs.Definers.{StandsAtDefiner, values_at};
ghost use Rattle.ir_program.specs.declared.handles.Value.{Value};
ghost use Rattle.ir_program.specs.declared.handles.Ptr.{Ptr};
ghost use Rattle.ir_program.specs.declared.handles.Operation.{Operation};
ghost use Rattle.ir_program.specs.declared.handles.BasicBlock.{BasicBlock};
ghost use Rattle.ir_program.specs.declared.handles.Region.{Region};
ghost use Rattle.ir_program.specs.declared.handles.DefiningEntity.{DefiningEntity};

use crate::Program;

impl<O, B> Program<O, B> {
    /// What holds of values: the values with a type are those that stand among the results and arguments, each once, at
    /// its definer and with its type; their numbers have been given, and no two have the same; and what operations take
    /// are such values. It does nothing.
    pub fn know_values(&self)
        ensures definer { (e : DefiningEntity) (k : ℕ) (v : Value) → value_in (values_at self.now e) k ≡ Some v
            → v.definer ≡ e }
        ensures typed { (e : DefiningEntity) (k : ℕ) (v : Value) → value_in (values_at self.now e) k ≡ Some v
            → type_at self.now v ≡ type_in (values_at self.now e) k }
        ensures stands { (v : Value) (ty : TypeHandle) → type_at self.now v ≡ Some ty → StandsAtDefiner self.now v ty }
        ensures given { (v : Value) → IsLiveValue self.now v → v.number < self.now.counter }
        ensures own { (v w : Value) → IsLiveValue self.now v → IsLiveValue self.now w → v.number ≡ w.number → v ≡ w }
        ensures used { (v : Value) → IsUsed self.now v → IsLiveValue self.now v }
        ensures counted { self.now.counter < 2 ^ 64 }
    {
        let _counter = self.counter;
        self.values.know_named();
    }

    /// Tells that `next_back` goes over what `operations`, `blocks` and `regions` show in reverse: what it gives until it
    /// answers `None` is the reverse of what `next` gives until it answers `None`. It does nothing.
    pub fn know_both_ways(&self)
        ensures operations { (block : Ptr BasicBlock) → IsWalkedBothWays (operations_in self.now block) }
        ensures blocks { (region : Ptr Region) → IsWalkedBothWays (blocks_in self.now region) }
        ensures regions { (op : Ptr Operation) → IsWalkedBothWays (regions_in self.now op) }
    {}

    /// Tells that an operation that stands right after another, is unlinked and inserted right after that one again stands
    /// where it stood, with all else as it was; and that in between the other one stands where it stood. So of blocks. It
    /// does nothing.
    pub fn know_returns(&self)
        ensures operations { ReturnsOperations self.now }
        ensures blocks { ReturnsBlocks self.now }
    {}
}
