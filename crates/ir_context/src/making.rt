//! Making operations, blocks and regions.
ghost use Rattle.std.specs.Prelude.{◌≡◌, ◌≤◌, ◌+◌, ◌^◌, Err, IsSome, IfOk, OnErr, length};
ghost use Rattle.ir_base.specs.declared.growth.GrowError.TheVariants.{CounterFull};
ghost use Rattle.ir_program.specs.Program.{operation_at, type_at};
ghost use Rattle.ir_program.specs.Edits.{IsUnchanged};
ghost use Rattle.ir_program.specs.Adds.{AreLiveValues, AreLiveBlocks};
ghost use Rattle.ir_program.specs.Made.{BuildsOperation, BuildsBlock, MakesRegion};
ghost use Rattle.ir_program.specs.declared.handles.Value.{Value};
ghost use Rattle.ir_context.specs.Known.{AreKnownIn};

use crate::{TypeTable, TypedProgram};
use ir_names::{GrowError, TypeHandle};
use ir_program::{BasicBlock, Operation, Ptr, Region, Value};
use std::alloc::{AllocError, Global};

impl<O: Drop, B: Drop, T: TypeTable> TypedProgram<O, B, T> {
    /// Makes an operation that stands in no block, with this payload, results of these types, these operands
    /// and these successors, and so many regions, each with no block.
    ///
    /// # Errors
    /// `Memory`, and `CounterFull` where there are not so many numbers left for values. Each handle leads to what it led to
    /// then.
    pub fn new_operation(
        &mut self,
        alloc: Global,
        payload: O,
        results: &[TypeHandle],
        operands: &[Value],
        successors: &[Ptr<BasicBlock>],
        regions: usize,
    ) -> Result<Ptr<Operation>, GrowError>
        requires known { AreKnownIn (T.type_count self.old.types) results.now }
        requires operands { AreLiveValues self.old.program operands.now }
        requires successors { AreLiveBlocks self.old.program successors.now }
        ensures built { IfOk result
            (λ p. BuildsOperation self.old.program self.new.program p payload results.now operands.now successors.now
            regions) }
        ensures err { OnErr result (IsUnchanged self.old.program self.new.program) }
        ensures err_values { OnErr result ((v : Value) → type_at self.new.program v ≡ type_at self.old.program v) }
        ensures full { result ≡ Err CounterFull → 2 ^ 64 ≤ self.old.program.counter + length results.now }
        ensures types { self.new.types ≡ self.old.types }
    {
        let made = self
            .program
            .build_operation(alloc, payload, results, operands, successors, regions);
        // So each value of the new operation has one of these types.
        self.program.know_values();
        made
    }

    /// Makes a block that stands in no region, with this payload and arguments of these types, and no operation.
    ///
    /// # Errors
    /// `Memory`, and `CounterFull` where there are not so many numbers left for values. Each handle leads to what it led to
    /// then.
    pub fn new_block(
        &mut self,
        alloc: Global,
        payload: B,
        arguments: &[TypeHandle],
    ) -> Result<Ptr<BasicBlock>, GrowError>
        requires known { AreKnownIn (T.type_count self.old.types) arguments.now }
        ensures built { IfOk result (λ p. BuildsBlock self.old.program self.new.program p payload arguments.now) }
        ensures err { OnErr result (IsUnchanged self.old.program self.new.program) }
        ensures err_values { OnErr result ((v : Value) → type_at self.new.program v ≡ type_at self.old.program v) }
        ensures full { result ≡ Err CounterFull → 2 ^ 64 ≤ self.old.program.counter + length arguments.now }
        ensures types { self.new.types ≡ self.old.types }
    {
        let made = self.program.build_block(alloc, payload, arguments);
        // So each value of the new block has one of these types.
        self.program.know_values();
        made
    }

    /// Makes a region with no block, the last of an operation.
    ///
    /// # Errors
    /// There may be no memory. Nothing is changed then.
    #[tactic(auto, using(crate::proofs::ErasedTypes::added_region_types))]
    pub fn add_region(&mut self, op: Ptr<Operation>) -> Result<Ptr<Region>, AllocError>
        requires { IsSome (operation_at self.old.program op) }
        ensures made { IfOk result (λ r. MakesRegion self.old.program self.new.program op r) }
        ensures err { OnErr result (IsUnchanged self.old.program self.new.program) }
        ensures values { (v : Value) → type_at self.new.program v ≡ type_at self.old.program v }
        ensures types { self.new.types ≡ self.old.types }
    {
        self.program.add_region(op)
    }
}
