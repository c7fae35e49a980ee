//! Making operations and blocks with all that they have.
ghost use Rattle.std.specs.Prelude.{◌≡◌, ◌≢◌, ℕ, ◌<◌, ◌≤◌, ◌+◌, ◌^◌, [], List, Some, Err, IsSome, IfOk, OnOk, OnErr, length, slice_get};
ghost use Rattle.ir_base.specs.declared.growth.GrowError.TheVariants.{CounterFull};
ghost use Rattle.ir_program.specs.Program.{operation_at, block_at, type_at, IsLiveValue};
ghost use Rattle.ir_program.specs.Lists.{IsUnlinkedOperation, IsUnlinkedBlock, operations_in};
ghost use Rattle.ir_program.specs.Rows.{operands_at, successors_at};
ghost use Rattle.ir_program.specs.Edits.{IsUnchanged};
ghost use Rattle.ir_program.specs.Adds.{AreLiveValues, AreLiveBlocks};
ghost use Rattle.ir_program.specs.Made.{FillsOperation, FillsSome, BuildsOperation, BuildsBlock, TakesBackOperation, TakesBackBlock, HasBareRegions};
ghost use Rattle.ir_program.specs.declared.handles.Ptr.{Ptr};
ghost use Rattle.ir_program.specs.declared.handles.Operation.{Operation};
ghost use Rattle.ir_program.specs.declared.handles.Region.{Region};
ghost use Rattle.ir_program.specs.declared.handles.Value.{Value};
ghost use Rattle.ir_program.specs.declared.handles.DefiningEntity.TheVariants.{Op as ByOp, Block as ByBlock};

use crate::{BasicBlock, Operation, Program, Ptr, Value};
use ir_base::{GrowError, TypeHandle};
use std::alloc::Global;

impl<O, B> Program<O, B> {
    /// The number of the next value.
    fn next_number(&self) -> u64
        ensures { result ≡ self.now.counter }
    {
        self.counter
    }

    /// Sets the number of the next value back. Each value has a number below it.
    fn lower_counter(&mut self, counter: u64)
        requires { (v : Value) → IsLiveValue self.old v → v.number < counter }
        ensures { self.new ≡ record self.old { counter = counter } }
    {
        self.counter = counter;
    }
}

impl<O: Drop, B: Drop> Program<O, B> {
    /// Gives an operation so many new regions with no block, and these results, operands and successors, in order and
    /// behind its others.
    ///
    /// # Errors
    /// `Memory`, and `CounterFull` where there are not so many numbers left. Some of them came then.
    fn fill_operation(
        &mut self,
        op: Ptr<Operation>,
        results: &[TypeHandle],
        operands: &[Value],
        successors: &[Ptr<BasicBlock>],
        regions: usize,
    ) -> Result<(), GrowError>
        requires operation { IsSome (operation_at self.old op) }
        requires operands { AreLiveValues self.old operands.now }
        requires successors { AreLiveBlocks self.old successors.now }
        ensures filled { OnOk result ((rs : List (Ptr Region)) × (length rs ≡ regions)
            × FillsOperation self.old self.new op results.now operands.now successors.now rs) }
        ensures err { OnErr result (FillsSome self.old self.new op) }
        ensures full { result ≡ Err CounterFull → 2 ^ 64 ≤ self.old.counter + length results.now }
    {
        self.add_regions(op, regions)?;
        self.add_operands(op, operands)?;
        self.add_successors(op, successors)?;
        self.add_results(op, results)
    }

    /// Erases an operation that stands in no block and whose regions have no block, whose results no other operation
    /// takes, and sets the number of the next value back. No memory is asked for.
    fn take_back_operation(&mut self, op: Ptr<Operation>, counter: u64)
        requires operation { IsSome (operation_at self.old op) }
        requires unlinked { IsUnlinkedOperation self.old op }
        requires bare { HasBareRegions self.old op }
        requires unused { (q : Ptr Operation) (k : ℕ) (v : Value) → q ≢ op
            → slice_get (operands_at self.old q) k ≡ Some v → v.definer ≢ ByOp op }
        requires numbers { (v : Value) → v.definer ≢ ByOp op → IsLiveValue self.old v → v.number < counter }
        ensures { TakesBackOperation self.old self.new op counter }
    {
        self.erase_operation(op);
        self.lower_counter(counter);
    }

    /// Makes an operation that stands in no block, with results of these types, these operands and these successors, and
    /// so many regions, each with no block.
    ///
    /// # Errors
    /// `Memory`, and `CounterFull` where there are not so many numbers left for values. Each handle leads to what it led to
    /// then.
    pub fn build_operation(
        &mut self,
        alloc: Global,
        payload: O,
        results: &[TypeHandle],
        operands: &[Value],
        successors: &[Ptr<BasicBlock>],
        regions: usize,
    ) -> Result<Ptr<Operation>, GrowError>
        requires operands { AreLiveValues self.old operands.now }
        requires successors { AreLiveBlocks self.old successors.now }
        ensures built { IfOk result
            (λ p. BuildsOperation self.old self.new p payload results.now operands.now successors.now regions) }
        ensures err { OnErr result (IsUnchanged self.old self.new) }
        ensures err_types { OnErr result ((v : Value) → type_at self.new v ≡ type_at self.old v) }
        ensures full { result ≡ Err CounterFull → 2 ^ 64 ≤ self.old.counter + length results.now }
    {
        self.know_values();
        let counter = self.next_number();
        let op = self.new_operation(alloc, payload)?;
        match self.fill_operation(op, results, operands, successors, regions) {
            Ok(()) => Ok(op),
            Err(error) => {
                self.take_back_operation(op, counter);
                Err(error)
            }
        }
    }

    /// Erases a block that stands in no region and has no operation, which no operation goes on to and whose arguments
    /// none takes, and sets the number of the next value back. No memory is asked for.
    fn take_back_block(&mut self, block: Ptr<BasicBlock>, counter: u64)
        requires block { IsSome (block_at self.old block) }
        requires unlinked { IsUnlinkedBlock self.old block }
        requires bare { operations_in self.old block ≡ [] }
        requires unused { (q : Ptr Operation) (k : ℕ) (v : Value) → slice_get (operands_at self.old q) k ≡ Some v
            → v.definer ≢ ByBlock block }
        requires untargeted { (q : Ptr Operation) (k : ℕ) → slice_get (successors_at self.old q) k ≢ Some block }
        requires numbers { (v : Value) → v.definer ≢ ByBlock block → IsLiveValue self.old v → v.number < counter }
        ensures { TakesBackBlock self.old self.new block counter }
    {
        self.erase_block(block);
        self.lower_counter(counter);
    }

    /// Makes a block that stands in no region, with arguments of these types, and no operation.
    ///
    /// # Errors
    /// `Memory`, and `CounterFull` where there are not so many numbers left for values. Each handle leads to what it led to
    /// then.
    pub fn build_block(
        &mut self,
        alloc: Global,
        payload: B,
        arguments: &[TypeHandle],
    ) -> Result<Ptr<BasicBlock>, GrowError>
        ensures built { IfOk result (λ p. BuildsBlock self.old self.new p payload arguments.now) }
        ensures err { OnErr result (IsUnchanged self.old self.new) }
        ensures err_types { OnErr result ((v : Value) → type_at self.new v ≡ type_at self.old v) }
        ensures full { result ≡ Err CounterFull → 2 ^ 64 ≤ self.old.counter + length arguments.now }
    {
        self.know_values();
        self.know_successors();
        let counter = self.next_number();
        let block = self.new_block(alloc, payload)?;
        match self.add_arguments(block, arguments) {
            Ok(()) => Ok(block),
            Err(error) => {
                self.take_back_block(block, counter);
                Err(error)
            }
        }
    }
}
