//! The arguments of blocks.
ghost use Rattle.std.specs.Prelude.{◌≡◌, ◌≤◌, ◌<◌, ◌+◌, ◌-◌, ◌^◌, Some, None, Err, IsSome, IfOk, IfSome, IfNone, OnSome, OnOk, OnErr};
ghost use Rattle.ir_base.specs.declared.growth.GrowError.TheVariants.{CounterFull};
ghost use Rattle.ir_program.specs.Program.{block_at, type_at, arguments_at, argument_count, value_in, type_in};
ghost use Rattle.ir_program.specs.Uses.{IsUsed};
ghost use Rattle.ir_program.specs.Definers.{DefinesValue, ForgetsValue};
ghost use Rattle.ir_program.specs.declared.handles.Value.{Value};
ghost use Rattle.ir_program.specs.Edits.{IsUnchanged};
ghost use Rattle.ir_program.specs.declared.handles.DefiningEntity.TheVariants.{Block};
ghost use Rattle.ir_program.specs.ValueEdits.{PushesArgument, InsertsArgument, PopsArgument, RemovesArgument};

use crate::definitions::{insert_definition, remove_definition};
use crate::{BasicBlock, DefiningEntity, Program, Ptr, Value};
use ir_base::{GrowError, TypeHandle};

impl<O, B> Program<O, B> {
    /// Gives a block one argument more, at an index of its arguments: a value that no place names, with a number that
    /// no value ever had.
    ///
    /// # Errors
    /// `Memory`, and `CounterFull` where the counter is at its greatest.
    pub fn insert_argument(
        &mut self,
        block: Ptr<BasicBlock>,
        index: usize,
        ty: TypeHandle,
    ) -> Result<Value, GrowError>
        requires block { IsSome (block_at self.old block) }
        requires within { index ≤ argument_count self.old block }
        ensures value { IfOk result (λ v. v ≡ record { definer = Block block; number = self.old.counter }) }
        ensures defined { IfOk result (λ v. DefinesValue self.old self.new v ty) }
        ensures counter { OnOk result (self.new.counter ≡ self.old.counter + 1) }
        ensures inserted { IfOk result (λ v. InsertsArgument self.old self.new block index v ty) }
        ensures err { OnErr result (IsUnchanged self.old self.new) }
        ensures err_types { OnErr result ((v : Value) → type_at self.new v ≡ type_at self.old v) }
        ensures full { result ≡ Err CounterFull → self.old.counter ≡ 2 ^ 64 - 1 }
    {
        if self.counter == u64::MAX {
            return Err(GrowError::CounterFull);
        }
        self.values.know_named();
        let value = Value::new(DefiningEntity::Block(block), self.counter);
        let record = self.forest.block_mut(block.key);
        insert_definition(&mut self.values, &mut record.arguments, index, value, ty)?;
        self.counter += 1;
        Ok(value)
    }

    /// Gives a block one argument more, behind the others: a value that no place names, with a number that no value
    /// ever had.
    ///
    /// # Errors
    /// `Memory`, and `CounterFull` where the counter is at its greatest.
    pub fn push_argument(
        &mut self,
        block: Ptr<BasicBlock>,
        ty: TypeHandle,
    ) -> Result<Value, GrowError>
        requires { IsSome (block_at self.old block) }
        ensures value { IfOk result (λ v. v ≡ record { definer = Block block; number = self.old.counter }) }
        ensures defined { IfOk result (λ v. DefinesValue self.old self.new v ty) }
        ensures counter { OnOk result (self.new.counter ≡ self.old.counter + 1) }
        ensures pushed { IfOk result (λ v. PushesArgument self.old self.new block v ty) }
        ensures err { OnErr result (IsUnchanged self.old self.new) }
        ensures err_types { OnErr result ((v : Value) → type_at self.new v ≡ type_at self.old v) }
        ensures full { result ≡ Err CounterFull → self.old.counter ≡ 2 ^ 64 - 1 }
    {
        let count = self.argument_count(block);
        self.insert_argument(block, count, ty)
    }

    /// How many arguments a block has.
    pub fn argument_count(&self, block: Ptr<BasicBlock>) -> usize
        requires { IsSome (block_at self.now block) }
        ensures { result ≡ argument_count self.now block }
    {
        self.forest.block(block.key).arguments.len()
    }

    /// The argument at an index of a block's arguments.
    pub fn argument(&self, block: Ptr<BasicBlock>, index: usize) -> Value
        requires block { IsSome (block_at self.now block) }
        requires within { index < argument_count self.now block }
        ensures value { value_in (arguments_at self.now block) index ≡ Some result }
        ensures typed { type_at self.now result ≡ type_in (arguments_at self.now block) index }
    {
        let definition = self.forest.block(block.key).arguments[index];
        Value::new(DefiningEntity::Block(block), definition.number)
    }

    /// The type of the argument at an index of a block's arguments.
    pub fn argument_type(&self, block: Ptr<BasicBlock>, index: usize) -> TypeHandle
        requires block { IsSome (block_at self.now block) }
        requires within { index < argument_count self.now block }
        ensures { type_in (arguments_at self.now block) index ≡ Some result }
    {
        self.forest.block(block.key).arguments[index].ty
    }

    /// Takes an argument that no operation takes out of a block's arguments, and answers it. It is no value of the
    /// program any more. No memory is asked for.
    pub fn remove_argument(&mut self, block: Ptr<BasicBlock>, index: usize) -> Value
        requires block { IsSome (block_at self.old block) }
        requires within { index < argument_count self.old block }
        requires unused { (v : Value) → value_in (arguments_at self.old block) index ≡ Some v → IsUsed self.old v → ⊥ }
        ensures value { value_in (arguments_at self.old block) index ≡ Some result }
        ensures removed { RemovesArgument self.old self.new block index }
        ensures forgotten { ForgetsValue self.old self.new result }
        ensures counter { self.new.counter ≡ self.old.counter }
    {
        let record = self.forest.block_mut(block.key);
        let definition = remove_definition(&mut self.values, &mut record.arguments, index);
        Value::new(DefiningEntity::Block(block), definition.number)
    }

    /// Takes the last argument, which no operation takes, out of a block's arguments, if it has one, and answers it. No
    /// memory is asked for.
    pub fn pop_argument(&mut self, block: Ptr<BasicBlock>) -> Option<Value>
        requires block { IsSome (block_at self.old block) }
        requires unused { (v : Value)
            → value_in (arguments_at self.old block) (argument_count self.old block - 1) ≡ Some v → IsUsed self.old v
            → ⊥ }
        ensures value { result ≡ value_in (arguments_at self.old block) (argument_count self.old block - 1) }
        ensures popped { OnSome result (PopsArgument self.old self.new block) }
        ensures forgotten { IfSome result (λ v. ForgetsValue self.old self.new v) }
        ensures none { IfNone result (self.new ≡ self.old) }
        ensures counter { self.new.counter ≡ self.old.counter }
    {
        let last = self.argument_count(block).checked_sub(1)?;
        Some(self.remove_argument(block, last))
    }
}
