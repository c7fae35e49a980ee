//! Operations in the lists of blocks.
ghost use Rattle.std.specs.Prelude.{◌≡◌, ◌↔◌, ◌+◌, ℕ, None, Some, IsSome, IfSome, IsTrue, MatchOption, slice_get};
ghost use Rattle.ir_program.specs.declared.handles.Ptr.{Ptr};
ghost use Rattle.ir_program.specs.declared.handles.Operation.{Operation};
ghost use Rattle.ir_program.specs.declared.handles.BasicBlock.{BasicBlock};
ghost use Rattle.ir_program.specs.declared.handles.IRNode.{IRNode};
ghost use Rattle.ir_program.specs.declared.handles.IRNode.TheVariants.{Operation as OperationNode, BasicBlock as BlockNode};
ghost use Rattle.ir_program.specs.Program.{operation_at, block_at};
ghost use Rattle.ir_program.specs.Lists.{operations_in, StandsInBlock, IsLinkedOperation, IsUnlinkedOperation, StandsInside};
ghost use Rattle.ir_program.specs.Edits.{KeepsValues};
ghost use Rattle.ir_program.specs.ListEdits.{PutsOperationAfter, PutsOperationBefore, TakesOutOperation, PutsOperationFirst, PutsOperationLast};

use crate::{TypeTable, TypedProgram};
use ir_program::{BasicBlock, Operation, Ptr};

/// An operation in the list of the block that it stands in.
pub trait OperationLists {
    /// The handle of the operation.
    ghost op: { Self → Ptr Operation };

    /// Whether the operation stands in a block.
    fn is_linked<O, B, T: TypeTable>(self, ctx: &TypedProgram<O, B, T>) -> bool
        requires { IsSome (operation_at ctx.now.program (op self)) }
        ensures linked { IsTrue result ↔ IsLinkedOperation ctx.now.program (op self) };

    /// The block that the operation stands in, in whose list it is.
    fn get_container<O, B, T: TypeTable>(
        self,
        ctx: &TypedProgram<O, B, T>,
    ) -> Option<Ptr<BasicBlock>>
        requires { IsSome (operation_at ctx.now.program (op self)) }
        ensures container { MatchOption result (IsUnlinkedOperation ctx.now.program (op self))
            (λ container. StandsInBlock ctx.now.program (op self) container) }
        ensures only { (container : Ptr BasicBlock) → StandsInBlock ctx.now.program (op self) container
            → result ≡ Some container };

    /// The operation that stands right after this one in its block.
    fn get_next<O, B, T: TypeTable>(self, ctx: &TypedProgram<O, B, T>) -> Option<Ptr<Operation>>
        requires { IsSome (operation_at ctx.now.program (op self)) }
        ensures next { (block : Ptr BasicBlock) (k : ℕ)
            → slice_get (operations_in ctx.now.program block) k ≡ Some (op self)
            → result ≡ slice_get (operations_in ctx.now.program block) (k + 1) }
        ensures unlinked { IsUnlinkedOperation ctx.now.program (op self) → result ≡ None }
        ensures live { IfSome result (λ next. IsSome (operation_at ctx.now.program next)) };

    /// The operation that stands right before this one in its block.
    fn get_prev<O, B, T: TypeTable>(self, ctx: &TypedProgram<O, B, T>) -> Option<Ptr<Operation>>
        requires { IsSome (operation_at ctx.now.program (op self)) }
        ensures previous { (block : Ptr BasicBlock) (k : ℕ)
            → slice_get (operations_in ctx.now.program block) (k + 1) ≡ Some (op self)
            → result ≡ slice_get (operations_in ctx.now.program block) k }
        ensures first { (block : Ptr BasicBlock) → slice_get (operations_in ctx.now.program block) 0 ≡ Some (op self)
            → result ≡ None }
        ensures unlinked { IsUnlinkedOperation ctx.now.program (op self) → result ≡ None }
        ensures live { IfSome result (λ previous. IsSome (operation_at ctx.now.program previous)) };

    /// Puts the operation, which stands in no block, right after `mark`, which stands in one.
    fn insert_after<O, B, T: TypeTable>(self, ctx: &mut TypedProgram<O, B, T>, mark: Ptr<Operation>)
        requires mark { IsLinkedOperation ctx.old.program mark }
        requires op { IsSome (operation_at ctx.old.program (op self)) }
        requires unlinked { IsUnlinkedOperation ctx.old.program (op self) }
        requires apart { StandsInside ctx.old.program (OperationNode (op self)) (OperationNode mark) → ⊥ }
        ensures edited { PutsOperationAfter ctx.old.program ctx.new.program mark (op self) }
        ensures values { KeepsValues ctx.old.program ctx.new.program }
        ensures types { ctx.new.types ≡ ctx.old.types };

    /// Puts the operation, which stands in no block, right before `mark`, which stands in one.
    fn insert_before<O, B, T: TypeTable>(
        self,
        ctx: &mut TypedProgram<O, B, T>,
        mark: Ptr<Operation>,
    )
        requires mark { IsLinkedOperation ctx.old.program mark }
        requires op { IsSome (operation_at ctx.old.program (op self)) }
        requires unlinked { IsUnlinkedOperation ctx.old.program (op self) }
        requires apart { StandsInside ctx.old.program (OperationNode (op self)) (OperationNode mark) → ⊥ }
        ensures edited { PutsOperationBefore ctx.old.program ctx.new.program mark (op self) }
        ensures values { KeepsValues ctx.old.program ctx.new.program }
        ensures types { ctx.new.types ≡ ctx.old.types };

    /// Puts the operation, which stands in no block, before all operations of a block.
    fn insert_at_front<O, B, T: TypeTable>(
        self,
        ctx: &mut TypedProgram<O, B, T>,
        container: Ptr<BasicBlock>,
    )
        requires block { IsSome (block_at ctx.old.program container) }
        requires op { IsSome (operation_at ctx.old.program (op self)) }
        requires unlinked { IsUnlinkedOperation ctx.old.program (op self) }
        requires apart { StandsInside ctx.old.program (OperationNode (op self)) (BlockNode container) → ⊥ }
        ensures edited { PutsOperationFirst ctx.old.program ctx.new.program container (op self) }
        ensures values { KeepsValues ctx.old.program ctx.new.program }
        ensures types { ctx.new.types ≡ ctx.old.types };

    /// Puts the operation, which stands in no block, after all operations of a block.
    fn insert_at_back<O, B, T: TypeTable>(
        self,
        ctx: &mut TypedProgram<O, B, T>,
        container: Ptr<BasicBlock>,
    )
        requires block { IsSome (block_at ctx.old.program container) }
        requires op { IsSome (operation_at ctx.old.program (op self)) }
        requires unlinked { IsUnlinkedOperation ctx.old.program (op self) }
        requires apart { StandsInside ctx.old.program (OperationNode (op self)) (BlockNode container) → ⊥ }
        ensures edited { PutsOperationLast ctx.old.program ctx.new.program container (op self) }
        ensures values { KeepsValues ctx.old.program ctx.new.program }
        ensures types { ctx.new.types ≡ ctx.old.types };

    /// Takes the operation out of the block that it stands in. It keeps all that it holds.
    fn unlink<O, B, T: TypeTable>(self, ctx: &mut TypedProgram<O, B, T>)
        requires { IsLinkedOperation ctx.old.program (op self) }
        ensures edited { TakesOutOperation ctx.old.program ctx.new.program (op self) }
        ensures unlinked { IsUnlinkedOperation ctx.new.program (op self) }
        // Nothing stands inside what it did not stand in.
        ensures inside { (outer inner : IRNode) → StandsInside ctx.new.program outer inner
            → StandsInside ctx.old.program outer inner }
        ensures values { KeepsValues ctx.old.program ctx.new.program }
        ensures types { ctx.new.types ≡ ctx.old.types };
}

impl OperationLists for Ptr<Operation> {
    ghost op = { λ p. p };

    fn is_linked<O, B, T: TypeTable>(self, ctx: &TypedProgram<O, B, T>) -> bool {
        ctx.program.parent_block(self).is_some()
    }

    fn get_container<O, B, T: TypeTable>(
        self,
        ctx: &TypedProgram<O, B, T>,
    ) -> Option<Ptr<BasicBlock>> {
        ctx.program.parent_block(self)
    }

    fn get_next<O, B, T: TypeTable>(self, ctx: &TypedProgram<O, B, T>) -> Option<Ptr<Operation>> {
        ctx.program.next_operation(self)
    }

    fn get_prev<O, B, T: TypeTable>(self, ctx: &TypedProgram<O, B, T>) -> Option<Ptr<Operation>> {
        ctx.program.previous_operation(self)
    }

    fn insert_after<O, B, T: TypeTable>(
        self,
        ctx: &mut TypedProgram<O, B, T>,
        mark: Ptr<Operation>,
    ) {
        ctx.program.insert_operation_after(mark, self);
    }

    fn insert_before<O, B, T: TypeTable>(
        self,
        ctx: &mut TypedProgram<O, B, T>,
        mark: Ptr<Operation>,
    ) {
        ctx.program.insert_operation_before(mark, self);
    }

    fn insert_at_front<O, B, T: TypeTable>(
        self,
        ctx: &mut TypedProgram<O, B, T>,
        container: Ptr<BasicBlock>,
    ) {
        ctx.program.insert_operation_at_front(container, self);
    }

    fn insert_at_back<O, B, T: TypeTable>(
        self,
        ctx: &mut TypedProgram<O, B, T>,
        container: Ptr<BasicBlock>,
    ) {
        ctx.program.insert_operation_at_back(container, self);
    }

    fn unlink<O, B, T: TypeTable>(self, ctx: &mut TypedProgram<O, B, T>) {
        ctx.program.unlink_operation(self);
    }
}
