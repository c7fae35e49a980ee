//! What can be verified.
ghost use Rattle.ir_core.specs.verification.Dialect.{DialectContext};
ghost use Rattle.ir_core.specs.declared.verification.errors.VerifyErr.{VerifyErr as Refusal};

use crate::verification::asking::ask_attributes;
use crate::verification::blocks::has_flaw;
use crate::verification::verify::{own, verify_node, verify_type};
use crate::verification::{BasicBlockVerifyErr, Verifiers, VerifyErr};
use ir_context::Context;
use ir_names::{AttributeDict, TypeHandle};
use ir_program::{BasicBlock, IRNode, Operation, Ptr, Region};
use ir_types::DialectTables;

/// What the tests of a dialect can be asked about.
pub trait Verify<D: DialectTables, V: Verifiers<D>> {
    ghost use Rattle.std.specs.Prelude.{Result};

    /// What has to hold of it in a context.
    ghost can_verify: { Self
        → DialectContext D D.TypeKind D.AttrKind D.TypeBody D.Saved D.Location D.OpKind D.Attr D.TypeKey → Type 0 };

    /// What is answered of it in a context.
    ghost verified: { Self → V
        → DialectContext D D.TypeKind D.AttrKind D.TypeBody D.Saved D.Location D.OpKind D.Attr D.TypeKey
        → Result Unit (Refusal V.Fault) → Type 0 };

    /// Whether it is as the dialect wants it, with all that stands inside it. No memory is asked for.
    ///
    /// # Errors
    /// As those of `verify_operation`, `verify_attr` and `verify_type`; and `NoParent` for a block that stands in no region.
    fn verify(&self, ctx: &Context<D>, verifiers: &V) -> Result<(), VerifyErr<V::Fault>>
        requires { can_verify self.now ctx.now }
        ensures { verified self.now verifiers.now ctx.now result };
}

impl<D: DialectTables, V: Verifiers<D>> Verify<D, V> for Ptr<Operation> {
    ghost use Rattle.std.specs.Prelude.{IsSome};
    ghost use Rattle.ir_program.specs.Program.{operation_at};
    ghost use Rattle.ir_program.specs.declared.handles.IRNode.TheVariants.{Operation as OperationNode};
    ghost use Rattle.ir_core.specs.verification.Verified.{AnswersVerify};

    ghost can_verify = { λ op c. IsSome (operation_at c.program op) };

    ghost verified = { λ op v c answer. AnswersVerify D.op_has (V.accepts v c) (V.answers v c) c.program
        (OperationNode op) answer };

    fn verify(&self, ctx: &Context<D>, verifiers: &V) -> Result<(), VerifyErr<V::Fault>> {
        verify_node(IRNode::Operation(*self), ctx, verifiers)
    }
}

impl<D: DialectTables, V: Verifiers<D>> Verify<D, V> for Ptr<Region> {
    ghost use Rattle.std.specs.Prelude.{IsSome};
    ghost use Rattle.ir_program.specs.Program.{region_at};
    ghost use Rattle.ir_program.specs.declared.handles.IRNode.TheVariants.{Region as RegionNode};
    ghost use Rattle.ir_core.specs.verification.Verified.{AnswersVerify};

    ghost can_verify = { λ region c. IsSome (region_at c.program region) };

    ghost verified = { λ region v c answer. AnswersVerify D.op_has (V.accepts v c) (V.answers v c) c.program
        (RegionNode region) answer };

    fn verify(&self, ctx: &Context<D>, verifiers: &V) -> Result<(), VerifyErr<V::Fault>> {
        verify_node(IRNode::Region(*self), ctx, verifiers)
    }
}

impl<D: DialectTables, V: Verifiers<D>> Verify<D, V> for Ptr<BasicBlock> {
    ghost use Rattle.std.specs.Prelude.{IsSome};
    ghost use Rattle.ir_program.specs.Program.{block_at};
    ghost use Rattle.ir_core.specs.verification.Verified.{AnswersBlock};

    ghost can_verify = { λ block c. IsSome (block_at c.program block) };

    ghost verified = { λ block v c answer. AnswersBlock D.op_has (V.accepts v c)
        (V.answers v c) c.program block answer };

    fn verify(&self, ctx: &Context<D>, verifiers: &V) -> Result<(), VerifyErr<V::Fault>> {
        if has_flaw(BasicBlockVerifyErr::NoParent, *self, ctx) {
            return Err(VerifyErr::Block(BasicBlockVerifyErr::NoParent));
        }
        verify_node(IRNode::BasicBlock(*self), ctx, verifiers)
    }
}

impl<D: DialectTables, V: Verifiers<D>> Verify<D, V> for TypeHandle {
    ghost use Rattle.std.specs.Prelude.{[], ◌∷◌};
    ghost use Rattle.ir_types.specs.Interned.{IsKnown};
    ghost use Rattle.ir_core.specs.verification.Tests.{of_type};
    ghost use Rattle.ir_core.specs.verification.Verified.{AnswersOwn};

    ghost can_verify = { λ ty c. IsKnown c.types ty };

    ghost verified = { λ ty v c answer. AnswersOwn (V.accepts v c) (V.answers v c) (of_type ty ∷ []) answer };

    fn verify(&self, ctx: &Context<D>, verifiers: &V) -> Result<(), VerifyErr<V::Fault>> {
        verify_type(*self, ctx, verifiers)
    }
}

impl<D: DialectTables, V: Verifiers<D>> Verify<D, V> for AttributeDict<D> {
    ghost use Rattle.std.specs.Prelude.{⊤};
    ghost use Rattle.ir_core.specs.verification.Tests.{tests_of_attributes};
    ghost use Rattle.ir_core.specs.verification.Verified.{AnswersOwn};

    ghost can_verify = { λ attributes c. ⊤ };

    ghost verified = { λ attributes v c answer. AnswersOwn (V.accepts v c) (V.answers v c)
        (tests_of_attributes attributes) answer };

    fn verify(&self, ctx: &Context<D>, verifiers: &V) -> Result<(), VerifyErr<V::Fault>> {
        own(ask_attributes(self, ctx, verifiers))
    }
}
