//! The arguments of blocks.
ghost use Rattle.std.specs.Prelude.{◌≡◌, ◌≤◌, ◌<◌, ◌+◌, ◌-◌, ◌^◌, Some, None, Err, IsSome, IfOk, IfSome, IfNone, OnSome, OnOk, OnErr};
ghost use Rattle.ir_base.specs.declared.growth.GrowError.TheVariants.{CounterFull};
ghost use Rattle.ir_program.specs.Program.{block_at, type_at, arguments_at, argument_count, value_in, type_in};
ghost use Rattle.ir_program.specs.Uses.{IsUsed};
ghost use Rattle.ir_program.specs.Definers.{DefinesValue, ForgetsValue};
ghost use Rattle.ir_program.specs.declared.handles.Value.{Value};
ghost use Rattle.ir_program.specs.Edits.{IsUnchanged};
ghost use Rattle.ir_program.specs.declared.handles.DefiningEntity.TheVariants.{Block};
ghost use Rattle.ir_program.specs.declared.handles.Ptr.{Ptr};
ghost use Rattle.ir_program.specs.declared.handles.BasicBlock.{BasicBlock};
ghost use Rattle.ir_program.specs.ValueEdits.{PushesArgument, InsertsArgument, PopsArgument, RemovesArgument};
ghost use Rattle.ir_context.specs.Known.{IsKnownIn};

use crate::{TypeTable, TypedProgram};
use ir_names::{GrowError, TypeHandle};
use ir_program::{BasicBlock, Ptr, Value};
use std::alloc::Global;

/// The arguments of a block.
pub trait ArgumentCalls {
    /// The handle of the block.
    ghost block: { Self → Ptr BasicBlock };

    /// How many arguments the block has.
    fn get_num_arguments<O, B, T: TypeTable>(self, ctx: &TypedProgram<O, B, T>) -> usize
        requires { IsSome (block_at ctx.now.program (block self)) }
        ensures { result ≡ argument_count ctx.now.program (block self) };

    /// The argument at an index of the block's arguments.
    fn get_argument<O, B, T: TypeTable>(self, ctx: &TypedProgram<O, B, T>, i: usize) -> Value
        requires block { IsSome (block_at ctx.now.program (block self)) }
        requires within { i < argument_count ctx.now.program (block self) }
        ensures value { value_in (arguments_at ctx.now.program (block self)) i ≡ Some result }
        ensures typed { type_at ctx.now.program result ≡ type_in (arguments_at ctx.now.program (block self)) i };

    /// Gives the block one argument more, behind the others: a value that no place names, with a number that no value
    /// ever had.
    ///
    /// # Errors
    /// `Memory`, and `CounterFull` where the counter is at its greatest.
    fn push_argument<O, B, T: TypeTable>(
        self,
        _alloc: Global,
        ctx: &mut TypedProgram<O, B, T>,
        ty: TypeHandle,
    ) -> Result<Value, GrowError>
        requires block { IsSome (block_at ctx.old.program (block self)) }
        requires known { IsKnownIn (T.type_count ctx.old.types) ty }
        ensures value { IfOk result (λ v. v ≡ record {
          definer = Block (block self);
          number = ctx.old.program.counter;
        }) }
        ensures defined { IfOk result (λ v. DefinesValue ctx.old.program ctx.new.program v ty) }
        ensures counter { OnOk result (ctx.new.program.counter ≡ ctx.old.program.counter + 1) }
        ensures pushed { IfOk result (λ v. PushesArgument ctx.old.program ctx.new.program (block self) v ty) }
        ensures err { OnErr result (IsUnchanged ctx.old.program ctx.new.program) }
        ensures err_values { OnErr result ((v : Value) → type_at ctx.new.program v ≡ type_at ctx.old.program v) }
        ensures full { result ≡ Err CounterFull → ctx.old.program.counter ≡ 2 ^ 64 - 1 }
        ensures types { ctx.new.types ≡ ctx.old.types };

    /// Gives the block one argument more, at an index of its arguments: a value that no place names, with a number that
    /// no value ever had.
    ///
    /// # Errors
    /// `Memory`, and `CounterFull` where the counter is at its greatest.
    fn insert_argument<O, B, T: TypeTable>(
        self,
        _alloc: Global,
        ctx: &mut TypedProgram<O, B, T>,
        i: usize,
        ty: TypeHandle,
    ) -> Result<Value, GrowError>
        requires block { IsSome (block_at ctx.old.program (block self)) }
        requires within { i ≤ argument_count ctx.old.program (block self) }
        requires known { IsKnownIn (T.type_count ctx.old.types) ty }
        ensures value { IfOk result (λ v. v ≡ record {
          definer = Block (block self);
          number = ctx.old.program.counter;
        }) }
        ensures defined { IfOk result (λ v. DefinesValue ctx.old.program ctx.new.program v ty) }
        ensures counter { OnOk result (ctx.new.program.counter ≡ ctx.old.program.counter + 1) }
        ensures inserted { IfOk result (λ v. InsertsArgument ctx.old.program ctx.new.program (block self) i v ty) }
        ensures err { OnErr result (IsUnchanged ctx.old.program ctx.new.program) }
        ensures err_values { OnErr result ((v : Value) → type_at ctx.new.program v ≡ type_at ctx.old.program v) }
        ensures full { result ≡ Err CounterFull → ctx.old.program.counter ≡ 2 ^ 64 - 1 }
        ensures types { ctx.new.types ≡ ctx.old.types };

    /// Takes the last argument, which no operation takes, out of the block's arguments, if it has one, and answers it. No
    /// memory is asked for.
    fn pop_argument<O, B, T: TypeTable>(self, ctx: &mut TypedProgram<O, B, T>) -> Option<Value>
        requires block { IsSome (block_at ctx.old.program (block self)) }
        requires unused { (v : Value)
            → value_in (arguments_at ctx.old.program (block self)) (argument_count ctx.old.program (block self) - 1)
            ≡ Some v → IsUsed ctx.old.program v → ⊥ }
        ensures value { result ≡ value_in (arguments_at ctx.old.program (block self))
            (argument_count ctx.old.program (block self) - 1) }
        ensures popped { OnSome result (PopsArgument ctx.old.program ctx.new.program (block self)) }
        ensures forgotten { IfSome result (λ v. ForgetsValue ctx.old.program ctx.new.program v) }
        ensures none { IfNone result (ctx.new.program ≡ ctx.old.program) }
        ensures counter { ctx.new.program.counter ≡ ctx.old.program.counter }
        ensures types { ctx.new.types ≡ ctx.old.types };

    /// Takes an argument that no operation takes out of the block's arguments, and answers it. It is no value of the
    /// program any more. No memory is asked for.
    fn remove_argument<O, B, T: TypeTable>(self, ctx: &mut TypedProgram<O, B, T>, i: usize) -> Value
        requires block { IsSome (block_at ctx.old.program (block self)) }
        requires within { i < argument_count ctx.old.program (block self) }
        requires unused { (v : Value) → value_in (arguments_at ctx.old.program (block self)) i ≡ Some v
            → IsUsed ctx.old.program v → ⊥ }
        ensures value { value_in (arguments_at ctx.old.program (block self)) i ≡ Some result }
        ensures removed { RemovesArgument ctx.old.program ctx.new.program (block self) i }
        ensures forgotten { ForgetsValue ctx.old.program ctx.new.program result }
        ensures counter { ctx.new.program.counter ≡ ctx.old.program.counter }
        ensures types { ctx.new.types ≡ ctx.old.types };
}

impl ArgumentCalls for Ptr<BasicBlock> {
    ghost block = { λ p. p };

    fn get_num_arguments<O, B, T: TypeTable>(self, ctx: &TypedProgram<O, B, T>) -> usize {
        ctx.program.argument_count(self)
    }

    fn get_argument<O, B, T: TypeTable>(self, ctx: &TypedProgram<O, B, T>, i: usize) -> Value {
        ctx.program.argument(self, i)
    }

    fn push_argument<O, B, T: TypeTable>(
        self,
        _alloc: Global,
        ctx: &mut TypedProgram<O, B, T>,
        ty: TypeHandle,
    ) -> Result<Value, GrowError> {
        ctx.program.push_argument(self, ty)
    }

    fn insert_argument<O, B, T: TypeTable>(
        self,
        _alloc: Global,
        ctx: &mut TypedProgram<O, B, T>,
        i: usize,
        ty: TypeHandle,
    ) -> Result<Value, GrowError> {
        ctx.program.insert_argument(self, i, ty)
    }

    #[tactic(auto, using(crate::proofs::KnownTypes::popped_known))]
    fn pop_argument<O, B, T: TypeTable>(self, ctx: &mut TypedProgram<O, B, T>) -> Option<Value> {
        ctx.program.pop_argument(self)
    }

    #[tactic(auto, using(crate::proofs::KnownTypes::forgotten_known))]
    fn remove_argument<O, B, T: TypeTable>(
        self,
        ctx: &mut TypedProgram<O, B, T>,
        i: usize,
    ) -> Value {
        ctx.program.remove_argument(self, i)
    }
}
