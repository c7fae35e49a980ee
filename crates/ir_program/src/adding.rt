//! Giving operations and blocks several values, operands or successors at once.
ghost use Rattle.std.specs.Prelude.{◌≡◌, ◌≤◌, ◌+◌, ◌^◌, Err, IsSome, OnOk, OnErr, length};
ghost use Rattle.ir_base.specs.declared.growth.GrowError.TheVariants.{CounterFull};
ghost use Rattle.ir_program.specs.Program.{operation_at, block_at};
ghost use Rattle.ir_program.specs.Adds.{AreLiveValues, AreLiveBlocks, AddsResults, AddsArguments, AddsOperands, AddsSuccessors, SomeCame};

use crate::{BasicBlock, Operation, Program, Ptr, Value};
use ir_base::{GrowError, TypeHandle};
use std::alloc::AllocError;

impl<O, B> Program<O, B> {
    /// Gives an operation a result of each of these types, in order and behind its others: values that no place names,
    /// with numbers that no value ever had.
    ///
    /// # Errors
    /// `Memory`, and `CounterFull` where there are not so many numbers left. Only the first of the results came then.
    pub fn add_results(&mut self, op: Ptr<Operation>, types: &[TypeHandle]) -> Result<(), GrowError>
        requires { IsSome (operation_at self.old op) }
        ensures added { OnOk result (AddsResults self.old self.new op types.now) }
        ensures err { OnErr result (SomeCame types.now (AddsResults self.old self.new op)) }
        ensures full { result ≡ Err CounterFull → 2 ^ 64 ≤ self.old.counter + length types.now }
    {
        for ty in types {
            self.push_result(op, *ty)?;
        }
        Ok(())
    }

    /// Gives a block an argument of each of these types, in order and behind its others: values that no place names,
    /// with numbers that no value ever had.
    ///
    /// # Errors
    /// `Memory`, and `CounterFull` where there are not so many numbers left. Only the first of the arguments came then.
    pub fn add_arguments(
        &mut self,
        block: Ptr<BasicBlock>,
        types: &[TypeHandle],
    ) -> Result<(), GrowError>
        requires { IsSome (block_at self.old block) }
        ensures added { OnOk result (AddsArguments self.old self.new block types.now) }
        ensures err { OnErr result (SomeCame types.now (AddsArguments self.old self.new block)) }
        ensures full { result ≡ Err CounterFull → 2 ^ 64 ≤ self.old.counter + length types.now }
    {
        for ty in types {
            self.push_argument(block, *ty)?;
        }
        Ok(())
    }

    /// Gives an operation these values as operands, in order and behind its others.
    ///
    /// # Errors
    /// Without memory only the first of them came.
    pub fn add_operands(&mut self, op: Ptr<Operation>, operands: &[Value]) -> Result<(), AllocError>
        requires operation { IsSome (operation_at self.old op) }
        requires live { AreLiveValues self.old operands.now }
        ensures added { OnOk result (AddsOperands self.old self.new op operands.now) }
        ensures err { OnErr result (SomeCame operands.now (AddsOperands self.old self.new op)) }
    {
        for value in operands {
            self.push_operand(op, *value)?;
        }
        Ok(())
    }

    /// Gives an operation these blocks as successors, in order and behind its others.
    ///
    /// # Errors
    /// Without memory only the first of them came.
    pub fn add_successors(
        &mut self,
        op: Ptr<Operation>,
        successors: &[Ptr<BasicBlock>],
    ) -> Result<(), AllocError>
        requires operation { IsSome (operation_at self.old op) }
        requires live { AreLiveBlocks self.old successors.now }
        ensures added { OnOk result (AddsSuccessors self.old self.new op successors.now) }
        ensures err { OnErr result (SomeCame successors.now (AddsSuccessors self.old self.new op)) }
    {
        for block in successors {
            self.push_successor(op, *block)?;
        }
        Ok(())
    }
}
