//! Where a value is used, and its index at its definer.
ghost use Rattle.std.specs.Prelude.{◌≡◌, ◌↔◌, None, Some, IsErr, IfOk, IfErr};
ghost use Rattle.ir_program.specs.declared.handles.Value.{Value};
ghost use Rattle.ir_program.specs.Program.{type_at, value_in, IsLiveValue};
ghost use Rattle.ir_program.specs.Definers.{values_at};
ghost use Rattle.ir_program.specs.Order.{uses_listed};
ghost use Rattle.ir_program.specs.Uses.{AreUsesOf};
ghost use Rattle.ir_queries.specs.Refused.{refusal_by};

use crate::finding::index_of;
use crate::uses::uses_of_value;
use ir_context::{TypeTable, TypedProgram, ValueError};
use ir_program::{DefiningEntity, Use, Value};
use std::alloc::{AllocError, Global};

/// Where a value is used, and where it stands.
pub trait ValueUses {
    /// The value.
    ghost value: { Self → Value };

    /// The operands that are the value, each once, in an order that stays while the program does.
    fn uses<O, B, T: TypeTable>(
        self,
        alloc: Global,
        ctx: &TypedProgram<O, B, T>,
    ) -> Result<Vec<Use<Value>>, AllocError>
        requires { IsLiveValue ctx.now.program (value self) }
        ensures uses { IfOk result (λ r. AreUsesOf ctx.now.program (value self) r.items) }
        ensures order { IfOk result (λ r. r.items ≡ uses_listed ctx.now.program (value self)) };

    /// Its index among the results or arguments of its definer.
    ///
    /// # Errors
    /// Refused exactly where the value does not stand at its definer: `NotInOpResult` where that is an operation,
    /// `NotInBlockArgument` where it is a block.
    fn try_find_index<O, B, T: TypeTable>(
        self,
        ctx: &TypedProgram<O, B, T>,
    ) -> Result<usize, ValueError>
        ensures found { IfOk result (λ i. value_in (values_at ctx.now.program (value self).definer) i ≡ Some
            (value self)) }
        ensures refused { IsErr result ↔ (type_at ctx.now.program (value self) ≡ None) }
        ensures error { IfErr result (λ e. e ≡ refusal_by (value self).definer) };

    /// Its index among the results or arguments of its definer, at which it stands.
    fn find_index<O, B, T: TypeTable>(self, ctx: &TypedProgram<O, B, T>) -> usize
        requires { IsLiveValue ctx.now.program (value self) }
        ensures { value_in (values_at ctx.now.program (value self).definer) result ≡ Some (value self) };
}

impl ValueUses for Value {
    ghost value = { λ v. v };

    fn uses<O, B, T: TypeTable>(
        self,
        alloc: Global,
        ctx: &TypedProgram<O, B, T>,
    ) -> Result<Vec<Use<Value>>, AllocError> {
        uses_of_value(ctx.program(), alloc, self)
    }

    fn try_find_index<O, B, T: TypeTable>(
        self,
        ctx: &TypedProgram<O, B, T>,
    ) -> Result<usize, ValueError> {
        match index_of(ctx.program(), self) {
            Some(index) => Ok(index),
            None => Err(refusal(self)),
        }
    }

    fn find_index<O, B, T: TypeTable>(self, ctx: &TypedProgram<O, B, T>) -> usize {
        match index_of(ctx.program(), self) {
            Some(index) => index,
            None => unreachable!(),
        }
    }
}

/// Why a value that does not stand at its definer is refused.
fn refusal(value: Value) -> ValueError
    ensures { result ≡ refusal_by value.definer }
{
    match value.definer() {
        DefiningEntity::Op(_) => ValueError::NotInOpResult,
        DefiningEntity::Block(_) => ValueError::NotInBlockArgument,
    }
}
