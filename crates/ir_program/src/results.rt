//! The results of operations.
ghost use Rattle.std.specs.Prelude.{◌≡◌, ◌≤◌, ◌<◌, ◌+◌, ◌-◌, ◌^◌, Some, None, Err, IsSome, IfOk, IfSome, IfNone, OnSome, OnOk, OnErr};
ghost use Rattle.ir_base.specs.declared.growth.GrowError.TheVariants.{CounterFull};
ghost use Rattle.ir_program.specs.Program.{operation_at, type_at, results_at, result_count, value_in, type_in};
ghost use Rattle.ir_program.specs.Uses.{IsUsed};
ghost use Rattle.ir_program.specs.Definers.{DefinesValue, ForgetsValue};
ghost use Rattle.ir_program.specs.declared.handles.Value.{Value};
ghost use Rattle.ir_program.specs.Edits.{IsUnchanged};
ghost use Rattle.ir_program.specs.declared.handles.DefiningEntity.TheVariants.{Op};
ghost use Rattle.ir_program.specs.ValueEdits.{PushesResult, InsertsResult, PopsResult, RemovesResult};

use crate::definitions::{insert_definition, remove_definition};
use crate::{DefiningEntity, Operation, Program, Ptr, Value};
use ir_base::{GrowError, TypeHandle};

impl<O, B> Program<O, B> {
    /// Gives an operation one result more, at an index of its results: a value that no place names, with a number that
    /// no value ever had.
    ///
    /// # Errors
    /// `Memory`, and `CounterFull` where the counter is at its greatest.
    pub fn insert_result(
        &mut self,
        op: Ptr<Operation>,
        index: usize,
        ty: TypeHandle,
    ) -> Result<Value, GrowError>
        requires operation { IsSome (operation_at self.old op) }
        requires within { index ≤ result_count self.old op }
        ensures value { IfOk result (λ v. v ≡ record { definer = Op op; number = self.old.counter }) }
        ensures defined { IfOk result (λ v. DefinesValue self.old self.new v ty) }
        ensures counter { OnOk result (self.new.counter ≡ self.old.counter + 1) }
        ensures inserted { IfOk result (λ v. InsertsResult self.old self.new op index v ty) }
        ensures err { OnErr result (IsUnchanged self.old self.new) }
        ensures err_types { OnErr result ((v : Value) → type_at self.new v ≡ type_at self.old v) }
        ensures full { result ≡ Err CounterFull → self.old.counter ≡ 2 ^ 64 - 1 }
    {
        if self.counter == u64::MAX {
            return Err(GrowError::CounterFull);
        }
        self.values.know_named();
        let value = Value::new(DefiningEntity::Op(op), self.counter);
        let record = self.forest.op_mut(op.key);
        insert_definition(&mut self.values, &mut record.results, index, value, ty)?;
        self.counter += 1;
        Ok(value)
    }

    /// Gives an operation one result more, behind the others: a value that no place names, with a number that no value
    /// ever had.
    ///
    /// # Errors
    /// `Memory`, and `CounterFull` where the counter is at its greatest.
    pub fn push_result(&mut self, op: Ptr<Operation>, ty: TypeHandle) -> Result<Value, GrowError>
        requires { IsSome (operation_at self.old op) }
        ensures value { IfOk result (λ v. v ≡ record { definer = Op op; number = self.old.counter }) }
        ensures defined { IfOk result (λ v. DefinesValue self.old self.new v ty) }
        ensures counter { OnOk result (self.new.counter ≡ self.old.counter + 1) }
        ensures pushed { IfOk result (λ v. PushesResult self.old self.new op v ty) }
        ensures err { OnErr result (IsUnchanged self.old self.new) }
        ensures err_types { OnErr result ((v : Value) → type_at self.new v ≡ type_at self.old v) }
        ensures full { result ≡ Err CounterFull → self.old.counter ≡ 2 ^ 64 - 1 }
    {
        let count = self.result_count(op);
        self.insert_result(op, count, ty)
    }

    /// How many results an operation has.
    pub fn result_count(&self, op: Ptr<Operation>) -> usize
        requires { IsSome (operation_at self.now op) }
        ensures { result ≡ result_count self.now op }
    {
        self.forest.op(op.key).results.len()
    }

    /// The result at an index of an operation's results.
    pub fn result(&self, op: Ptr<Operation>, index: usize) -> Value
        requires operation { IsSome (operation_at self.now op) }
        requires within { index < result_count self.now op }
        ensures value { value_in (results_at self.now op) index ≡ Some result }
        ensures typed { type_at self.now result ≡ type_in (results_at self.now op) index }
    {
        let definition = self.forest.op(op.key).results[index];
        Value::new(DefiningEntity::Op(op), definition.number)
    }

    /// The type of the result at an index of an operation's results.
    pub fn result_type(&self, op: Ptr<Operation>, index: usize) -> TypeHandle
        requires operation { IsSome (operation_at self.now op) }
        requires within { index < result_count self.now op }
        ensures { type_in (results_at self.now op) index ≡ Some result }
    {
        self.forest.op(op.key).results[index].ty
    }

    /// Takes a result that no operation takes out of an operation's results, and answers it. It is no value of the
    /// program any more. No memory is asked for.
    pub fn remove_result(&mut self, op: Ptr<Operation>, index: usize) -> Value
        requires operation { IsSome (operation_at self.old op) }
        requires within { index < result_count self.old op }
        requires unused { (v : Value) → value_in (results_at self.old op) index ≡ Some v → IsUsed self.old v → ⊥ }
        ensures value { value_in (results_at self.old op) index ≡ Some result }
        ensures removed { RemovesResult self.old self.new op index }
        ensures forgotten { ForgetsValue self.old self.new result }
        ensures counter { self.new.counter ≡ self.old.counter }
    {
        let record = self.forest.op_mut(op.key);
        let definition = remove_definition(&mut self.values, &mut record.results, index);
        Value::new(DefiningEntity::Op(op), definition.number)
    }

    /// Takes the last result, which no operation takes, out of an operation's results, if it has one, and answers it. No
    /// memory is asked for.
    pub fn pop_result(&mut self, op: Ptr<Operation>) -> Option<Value>
        requires operation { IsSome (operation_at self.old op) }
        requires unused { (v : Value) → value_in (results_at self.old op) (result_count self.old op - 1) ≡ Some v
            → IsUsed self.old v → ⊥ }
        ensures value { result ≡ value_in (results_at self.old op) (result_count self.old op - 1) }
        ensures popped { OnSome result (PopsResult self.old self.new op) }
        ensures forgotten { IfSome result (λ v. ForgetsValue self.old self.new v) }
        ensures none { IfNone result (self.new ≡ self.old) }
        ensures counter { self.new.counter ≡ self.old.counter }
    {
        let last = self.result_count(op).checked_sub(1)?;
        Some(self.remove_result(op, last))
    }
}
