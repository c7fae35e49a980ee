//! The results of operations.
ghost use Rattle.std.specs.Prelude.{◌≡◌, ◌≤◌, ◌<◌, ◌+◌, ◌-◌, ◌^◌, Some, None, Err, IsSome, IfOk, IfSome, IfNone, OnSome, OnOk, OnErr};
ghost use Rattle.ir_base.specs.declared.growth.GrowError.TheVariants.{CounterFull};
ghost use Rattle.ir_program.specs.Program.{operation_at, type_at, results_at, result_count, value_in, type_in};
ghost use Rattle.ir_program.specs.Uses.{IsUsed};
ghost use Rattle.ir_program.specs.Definers.{DefinesValue, ForgetsValue};
ghost use Rattle.ir_program.specs.declared.handles.Value.{Value};
ghost use Rattle.ir_program.specs.Edits.{IsUnchanged};
ghost use Rattle.ir_program.specs.declared.handles.DefiningEntity.TheVariants.{Op};
ghost use Rattle.ir_program.specs.declared.handles.Ptr.{Ptr};
ghost use Rattle.ir_program.specs.declared.handles.Operation.{Operation};
ghost use Rattle.ir_program.specs.ValueEdits.{PushesResult, InsertsResult, PopsResult, RemovesResult};
ghost use Rattle.ir_context.specs.Known.{IsKnownIn};

use crate::{TypeTable, TypedProgram};
use ir_names::{GrowError, TypeHandle};
use ir_program::{Operation, Ptr, Value};
use std::alloc::Global;

/// The results of an operation.
pub trait ResultCalls {
    /// The handle of the operation.
    ghost op: { Self → Ptr Operation };

    /// How many results the operation has.
    fn get_num_results<O, B, T: TypeTable>(self, ctx: &TypedProgram<O, B, T>) -> usize
        requires { IsSome (operation_at ctx.now.program (op self)) }
        ensures { result ≡ result_count ctx.now.program (op self) };

    /// The result at an index of the operation's results.
    fn get_result<O, B, T: TypeTable>(self, ctx: &TypedProgram<O, B, T>, i: usize) -> Value
        requires operation { IsSome (operation_at ctx.now.program (op self)) }
        requires within { i < result_count ctx.now.program (op self) }
        ensures value { value_in (results_at ctx.now.program (op self)) i ≡ Some result }
        ensures typed { type_at ctx.now.program result ≡ type_in (results_at ctx.now.program (op self)) i };

    /// The type of the result at an index of the operation's results.
    fn get_type<O, B, T: TypeTable>(self, ctx: &TypedProgram<O, B, T>, i: usize) -> TypeHandle
        requires operation { IsSome (operation_at ctx.now.program (op self)) }
        requires within { i < result_count ctx.now.program (op self) }
        ensures { type_in (results_at ctx.now.program (op self)) i ≡ Some result };

    /// Gives the operation one result more, behind the others: a value that no place names, with a number that no value
    /// ever had.
    ///
    /// # Errors
    /// `Memory`, and `CounterFull` where the counter is at its greatest.
    fn push_result<O, B, T: TypeTable>(
        self,
        _alloc: Global,
        ctx: &mut TypedProgram<O, B, T>,
        ty: TypeHandle,
    ) -> Result<Value, GrowError>
        requires operation { IsSome (operation_at ctx.old.program (op self)) }
        requires known { IsKnownIn (T.type_count ctx.old.types) ty }
        ensures value { IfOk result (λ v. v ≡ record { definer = Op (op self); number = ctx.old.program.counter }) }
        ensures defined { IfOk result (λ v. DefinesValue ctx.old.program ctx.new.program v ty) }
        ensures counter { OnOk result (ctx.new.program.counter ≡ ctx.old.program.counter + 1) }
        ensures pushed { IfOk result (λ v. PushesResult ctx.old.program ctx.new.program (op self) v ty) }
        ensures err { OnErr result (IsUnchanged ctx.old.program ctx.new.program) }
        ensures err_values { OnErr result ((v : Value) → type_at ctx.new.program v ≡ type_at ctx.old.program v) }
        ensures full { result ≡ Err CounterFull → ctx.old.program.counter ≡ 2 ^ 64 - 1 }
        ensures types { ctx.new.types ≡ ctx.old.types };

    /// Gives the operation one result more, at an index of its results: a value that no place names, with a number that
    /// no value ever had.
    ///
    /// # Errors
    /// `Memory`, and `CounterFull` where the counter is at its greatest.
    fn insert_result<O, B, T: TypeTable>(
        self,
        _alloc: Global,
        ctx: &mut TypedProgram<O, B, T>,
        i: usize,
        ty: TypeHandle,
    ) -> Result<Value, GrowError>
        requires operation { IsSome (operation_at ctx.old.program (op self)) }
        requires within { i ≤ result_count ctx.old.program (op self) }
        requires known { IsKnownIn (T.type_count ctx.old.types) ty }
        ensures value { IfOk result (λ v. v ≡ record { definer = Op (op self); number = ctx.old.program.counter }) }
        ensures defined { IfOk result (λ v. DefinesValue ctx.old.program ctx.new.program v ty) }
        ensures counter { OnOk result (ctx.new.program.counter ≡ ctx.old.program.counter + 1) }
        ensures inserted { IfOk result (λ v. InsertsResult ctx.old.program ctx.new.program (op self) i v ty) }
        ensures err { OnErr result (IsUnchanged ctx.old.program ctx.new.program) }
        ensures err_values { OnErr result ((v : Value) → type_at ctx.new.program v ≡ type_at ctx.old.program v) }
        ensures full { result ≡ Err CounterFull → ctx.old.program.counter ≡ 2 ^ 64 - 1 }
        ensures types { ctx.new.types ≡ ctx.old.types };

    /// Takes the last result, which no operation takes, out of the operation's results, if it has one, and answers it. No
    /// memory is asked for.
    fn pop_result<O, B, T: TypeTable>(self, ctx: &mut TypedProgram<O, B, T>) -> Option<Value>
        requires operation { IsSome (operation_at ctx.old.program (op self)) }
        requires unused { (v : Value)
            → value_in (results_at ctx.old.program (op self)) (result_count ctx.old.program (op self) - 1) ≡ Some v
            → IsUsed ctx.old.program v → ⊥ }
        ensures value { result ≡ value_in (results_at ctx.old.program (op self))
            (result_count ctx.old.program (op self) - 1) }
        ensures popped { OnSome result (PopsResult ctx.old.program ctx.new.program (op self)) }
        ensures forgotten { IfSome result (λ v. ForgetsValue ctx.old.program ctx.new.program v) }
        ensures none { IfNone result (ctx.new.program ≡ ctx.old.program) }
        ensures counter { ctx.new.program.counter ≡ ctx.old.program.counter }
        ensures types { ctx.new.types ≡ ctx.old.types };

    /// Takes a result that no operation takes out of the operation's results, and answers it. It is no value of the
    /// program any more. No memory is asked for.
    fn remove_result<O, B, T: TypeTable>(self, ctx: &mut TypedProgram<O, B, T>, i: usize) -> Value
        requires operation { IsSome (operation_at ctx.old.program (op self)) }
        requires within { i < result_count ctx.old.program (op self) }
        requires unused { (v : Value) → value_in (results_at ctx.old.program (op self)) i ≡ Some v
            → IsUsed ctx.old.program v → ⊥ }
        ensures value { value_in (results_at ctx.old.program (op self)) i ≡ Some result }
        ensures removed { RemovesResult ctx.old.program ctx.new.program (op self) i }
        ensures forgotten { ForgetsValue ctx.old.program ctx.new.program result }
        ensures counter { ctx.new.program.counter ≡ ctx.old.program.counter }
        ensures types { ctx.new.types ≡ ctx.old.types };
}

impl ResultCalls for Ptr<Operation> {
    ghost op = { λ p. p };

    fn get_num_results<O, B, T: TypeTable>(self, ctx: &TypedProgram<O, B, T>) -> usize {
        ctx.program.result_count(self)
    }

    fn get_result<O, B, T: TypeTable>(self, ctx: &TypedProgram<O, B, T>, i: usize) -> Value {
        ctx.program.result(self, i)
    }

    fn get_type<O, B, T: TypeTable>(self, ctx: &TypedProgram<O, B, T>, i: usize) -> TypeHandle {
        ctx.program.result_type(self, i)
    }

    fn push_result<O, B, T: TypeTable>(
        self,
        _alloc: Global,
        ctx: &mut TypedProgram<O, B, T>,
        ty: TypeHandle,
    ) -> Result<Value, GrowError> {
        ctx.program.push_result(self, ty)
    }

    fn insert_result<O, B, T: TypeTable>(
        self,
        _alloc: Global,
        ctx: &mut TypedProgram<O, B, T>,
        i: usize,
        ty: TypeHandle,
    ) -> Result<Value, GrowError> {
        ctx.program.insert_result(self, i, ty)
    }

    #[tactic(auto, using(crate::proofs::KnownTypes::popped_known))]
    fn pop_result<O, B, T: TypeTable>(self, ctx: &mut TypedProgram<O, B, T>) -> Option<Value> {
        ctx.program.pop_result(self)
    }

    #[tactic(auto, using(crate::proofs::KnownTypes::forgotten_known))]
    fn remove_result<O, B, T: TypeTable>(self, ctx: &mut TypedProgram<O, B, T>, i: usize) -> Value {
        ctx.program.remove_result(self, i)
    }
}
