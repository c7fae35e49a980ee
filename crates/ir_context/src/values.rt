//! What is asked of values.
ghost use Rattle.std.specs.Prelude.{◌≡◌, Some, MatchOption, is_some};
ghost use Rattle.ir_program.specs.declared.handles.Ptr.{Ptr};
ghost use Rattle.ir_program.specs.declared.handles.Operation.{Operation};
ghost use Rattle.ir_program.specs.declared.handles.BasicBlock.{BasicBlock};
ghost use Rattle.ir_program.specs.declared.handles.Value.{Value};
ghost use Rattle.ir_program.specs.declared.handles.DefiningEntity.TheVariants.{Op, Block};
ghost use Rattle.ir_program.specs.Program.{type_at, IsLiveValue};
ghost use Rattle.ir_context.specs.Known.{IsKnownIn};

use crate::{TypeTable, TypedProgram};
use ir_names::TypeHandle;
use ir_program::{BasicBlock, DefiningEntity, Operation, Ptr, Value};

/// What is asked of a value.
pub trait ValueCalls {
    /// The value.
    ghost value: { Self → Value };

    /// The operation or block that the value is a result or an argument of.
    fn defining_entity(self) -> DefiningEntity
        ensures { result ≡ (value self).definer };

    /// The operation that it is a result of, if it is one.
    fn defining_op(self) -> Option<Ptr<Operation>>
        ensures { MatchOption result ((block : Ptr BasicBlock)
            × ((value self).definer ≡ Block block)) (λ op. (value self).definer ≡ Op op) };

    /// The block that it is an argument of, if it is one.
    fn defining_block(self) -> Option<Ptr<BasicBlock>>
        ensures { MatchOption result ((op : Ptr Operation)
            × ((value self).definer ≡ Op op)) (λ block. (value self).definer ≡ Block block) };

    /// Whether the value stands at its definer.
    fn is_live<O, B, T: TypeTable>(self, ctx: &TypedProgram<O, B, T>) -> bool
        ensures { result ≡ is_some (type_at ctx.now.program (value self)) };

    /// Its type, which is one of the context's types.
    fn get_type<O, B, T: TypeTable>(self, ctx: &TypedProgram<O, B, T>) -> TypeHandle
        requires { IsLiveValue ctx.now.program (value self) }
        ensures exact { type_at ctx.now.program (value self) ≡ Some result }
        ensures known { IsKnownIn (T.type_count ctx.now.types) result };
}

impl ValueCalls for Value {
    ghost value = { λ v. v };

    fn defining_entity(self) -> DefiningEntity {
        self.definer()
    }

    fn defining_op(self) -> Option<Ptr<Operation>> {
        match self.definer() {
            DefiningEntity::Op(op) => Some(op),
            DefiningEntity::Block(_) => None,
        }
    }

    fn defining_block(self) -> Option<Ptr<BasicBlock>> {
        match self.definer() {
            DefiningEntity::Op(_) => None,
            DefiningEntity::Block(block) => Some(block),
        }
    }

    fn is_live<O, B, T: TypeTable>(self, ctx: &TypedProgram<O, B, T>) -> bool {
        ctx.program.has_value(self)
    }

    fn get_type<O, B, T: TypeTable>(self, ctx: &TypedProgram<O, B, T>) -> TypeHandle {
        ctx.program.value_type(self)
    }
}
