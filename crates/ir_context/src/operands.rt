//! The operands of operations.
ghost use Rattle.std.specs.Prelude.{◌≡◌, ◌++◌, ◌∷◌, [], ◌<◌, ◌≤◌, Some, IsNone, IsOk, IsSome, MatchOption, OnOk, OnErr, length, slice_get};
ghost use Rattle.ir_program.specs.Program.{operation_at, IsLiveValue};
ghost use Rattle.ir_program.specs.Rows.{operands_at};
ghost use Rattle.ir_program.specs.Edits.{IsUnchanged, KeepsValues};
ghost use Rattle.ir_program.specs.declared.handles.Ptr.{Ptr};
ghost use Rattle.ir_program.specs.declared.handles.Operation.{Operation};
ghost use Rattle.ir_program.specs.RowEdits.{PushesOperand, InsertsOperand, RemovesOperand, ReplacesOperand, ChangesOperands};

use crate::{TypeTable, TypedProgram};
use ir_program::{Operation, Ptr, Value};
use std::alloc::{AllocError, Global};

/// The operands of an operation: the values that it takes.
pub trait OperandCalls {
    /// The handle of the operation.
    ghost op: { Self → Ptr Operation };

    /// How many operands the operation has.
    fn get_num_operands<O, B, T: TypeTable>(self, ctx: &TypedProgram<O, B, T>) -> usize
        requires { IsSome (operation_at ctx.now.program (op self)) }
        ensures { result ≡ length (operands_at ctx.now.program (op self)) };

    /// The operand at an index.
    fn get_operand<O, B, T: TypeTable>(self, ctx: &TypedProgram<O, B, T>, i: usize) -> Value
        requires { i < length (operands_at ctx.now.program (op self)) }
        ensures exact { slice_get (operands_at ctx.now.program (op self)) i ≡ Some result }
        ensures live { IsLiveValue ctx.now.program result };

    /// Gives the operation one operand more, behind the others.
    ///
    /// # Errors
    /// Without memory nothing is changed.
    fn push_operand<O, B, T: TypeTable>(
        self,
        _alloc: Global,
        ctx: &mut TypedProgram<O, B, T>,
        value: Value,
    ) -> Result<(), AllocError>
        requires operation { IsSome (operation_at ctx.old.program (op self)) }
        requires value { IsLiveValue ctx.old.program value }
        ensures pushed { OnOk result (PushesOperand ctx.old.program ctx.new.program (op self) value) }
        ensures err { OnErr result (IsUnchanged ctx.old.program ctx.new.program) }
        ensures values { KeepsValues ctx.old.program ctx.new.program }
        ensures types { ctx.new.types ≡ ctx.old.types };

    /// Puts an operand at an index. Those that stood there and behind move back by one.
    ///
    /// # Errors
    /// Without memory nothing is changed.
    fn insert_operand<O, B, T: TypeTable>(
        self,
        _alloc: Global,
        ctx: &mut TypedProgram<O, B, T>,
        i: usize,
        value: Value,
    ) -> Result<(), AllocError>
        requires operation { IsSome (operation_at ctx.old.program (op self)) }
        requires within { i ≤ length (operands_at ctx.old.program (op self)) }
        requires value { IsLiveValue ctx.old.program value }
        ensures inserted { OnOk result (InsertsOperand ctx.old.program ctx.new.program (op self) i value) }
        ensures err { OnErr result (IsUnchanged ctx.old.program ctx.new.program) }
        ensures values { KeepsValues ctx.old.program ctx.new.program }
        ensures types { ctx.new.types ≡ ctx.old.types };

    /// Takes away the last operand, if there is one.
    fn pop_operand<O, B, T: TypeTable>(self, ctx: &mut TypedProgram<O, B, T>) -> Option<Value>
        requires { IsSome (operation_at ctx.old.program (op self)) }
        ensures value { MatchOption result (operands_at ctx.old.program (op self) ≡ [])
            (λ v. operands_at ctx.old.program (op self) ≡ operands_at ctx.new.program (op self) ++ v ∷ []) }
        ensures popped { ChangesOperands ctx.old.program ctx.new.program (op self) }
        ensures none { IsNone result → IsUnchanged ctx.old.program ctx.new.program }
        ensures values { KeepsValues ctx.old.program ctx.new.program }
        ensures types { ctx.new.types ≡ ctx.old.types };

    /// Takes away the operand at an index. Those behind it move up by one.
    fn remove_operand<O, B, T: TypeTable>(self, ctx: &mut TypedProgram<O, B, T>, i: usize) -> Value
        requires { i < length (operands_at ctx.old.program (op self)) }
        ensures value { slice_get (operands_at ctx.old.program (op self)) i ≡ Some result }
        ensures removed { RemovesOperand ctx.old.program ctx.new.program (op self) i }
        ensures values { KeepsValues ctx.old.program ctx.new.program }
        ensures types { ctx.new.types ≡ ctx.old.types };

    /// Puts another value in place of the operand at an index. The parameter stays for callers that allocate; no memory
    /// is asked for.
    fn replace_operand<O, B, T: TypeTable>(
        self,
        _alloc: Global,
        ctx: &mut TypedProgram<O, B, T>,
        i: usize,
        value: Value,
    ) -> Result<(), AllocError>
        requires within { i < length (operands_at ctx.old.program (op self)) }
        requires value { IsLiveValue ctx.old.program value }
        ensures succeeds { IsOk result }
        ensures replaced { ReplacesOperand ctx.old.program ctx.new.program (op self) i value }
        ensures values { KeepsValues ctx.old.program ctx.new.program }
        ensures types { ctx.new.types ≡ ctx.old.types };
}

impl OperandCalls for Ptr<Operation> {
    ghost op = { λ p. p };

    fn get_num_operands<O, B, T: TypeTable>(self, ctx: &TypedProgram<O, B, T>) -> usize {
        ctx.program.operand_count(self)
    }

    fn get_operand<O, B, T: TypeTable>(self, ctx: &TypedProgram<O, B, T>, i: usize) -> Value {
        ctx.program.operand(self, i)
    }

    fn push_operand<O, B, T: TypeTable>(
        self,
        _alloc: Global,
        ctx: &mut TypedProgram<O, B, T>,
        value: Value,
    ) -> Result<(), AllocError> {
        ctx.program.push_operand(self, value)
    }

    fn insert_operand<O, B, T: TypeTable>(
        self,
        _alloc: Global,
        ctx: &mut TypedProgram<O, B, T>,
        i: usize,
        value: Value,
    ) -> Result<(), AllocError> {
        ctx.program.insert_operand(self, i, value)
    }

    fn pop_operand<O, B, T: TypeTable>(self, ctx: &mut TypedProgram<O, B, T>) -> Option<Value> {
        ctx.program.pop_operand(self)
    }

    fn remove_operand<O, B, T: TypeTable>(
        self,
        ctx: &mut TypedProgram<O, B, T>,
        i: usize,
    ) -> Value {
        ctx.program.remove_operand(self, i)
    }

    fn replace_operand<O, B, T: TypeTable>(
        self,
        _alloc: Global,
        ctx: &mut TypedProgram<O, B, T>,
        i: usize,
        value: Value,
    ) -> Result<(), AllocError> {
        ctx.program.replace_operand(self, i, value);
        Ok(())
    }
}
