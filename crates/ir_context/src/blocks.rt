//! What is asked of blocks.
ghost use Rattle.std.specs.Prelude.{◌≡◌, ◌↔◌, Some, None, IsSome, IfSome, IfOk, IsErr, MatchOption, is_some, option_copied};
ghost use Rattle.ir_program.specs.declared.handles.Ptr.{Ptr};
ghost use Rattle.ir_program.specs.declared.handles.Operation.{Operation};
ghost use Rattle.ir_program.specs.declared.handles.BasicBlock.{BasicBlock};
ghost use Rattle.ir_program.specs.declared.handles.Region.{Region};
ghost use Rattle.ir_program.specs.Program.{block_at};
ghost use Rattle.ir_program.specs.Lent.{block_payload_at};
ghost use Rattle.ir_program.specs.Lists.{StandsInRegion, IsUnlinkedBlock};
ghost use Rattle.ir_context.specs.Holders.{HasOperation, HasParentBlock};
ghost use Rattle.ir_context.specs.Kept.{block_location_at, label_at};

use crate::parents::{operation_of_block, parent_of_block};
use crate::{BlockNotes, Context, DanglingPtrDerefError, TypeTable, TypedProgram};
use ir_names::Identifier;
use ir_program::{BasicBlock, Operation, Ptr, Region};
use ir_types::DialectTables;

/// What is asked of a block.
pub trait BlockCalls {
    /// The handle of the block.
    ghost block: { Self → Ptr BasicBlock };

    /// Whether the handle leads to a block.
    fn is_live<O, B, T: TypeTable>(self, ctx: &TypedProgram<O, B, T>) -> bool
        ensures { result ≡ is_some (block_at ctx.now.program (block self)) };

    /// The region that the block stands in.
    fn get_parent_region<O, B, T: TypeTable>(
        self,
        ctx: &TypedProgram<O, B, T>,
    ) -> Option<Ptr<Region>>
        requires { IsSome (block_at ctx.now.program (block self)) }
        ensures parent { MatchOption result (IsUnlinkedBlock ctx.now.program (block self))
            (λ region. StandsInRegion ctx.now.program (block self) region) }
        ensures only { (region : Ptr Region) → StandsInRegion ctx.now.program (block self) region
            → result ≡ Some region };

    /// The operation that its region stands in.
    fn get_parent_op<O, B, T: TypeTable>(
        self,
        ctx: &TypedProgram<O, B, T>,
    ) -> Option<Ptr<Operation>>
        requires { IsSome (block_at ctx.now.program (block self)) }
        ensures found { IfSome result (λ op. HasOperation ctx.now.program (block self) op) }
        ensures only { (op : Ptr Operation) → HasOperation ctx.now.program (block self) op → result ≡ Some op };

    /// The block that this operation stands in.
    fn get_parent_block<O, B, T: TypeTable>(
        self,
        ctx: &TypedProgram<O, B, T>,
    ) -> Option<Ptr<BasicBlock>>
        requires { IsSome (block_at ctx.now.program (block self)) }
        ensures found { IfSome result (λ parent. HasParentBlock ctx.now.program (block self) parent) }
        ensures only { (parent : Ptr BasicBlock) → HasParentBlock ctx.now.program (block self) parent
            → result ≡ Some parent };

    /// Its attributes, its location and its label.
    fn deref<D: DialectTables>(self, ctx: &Context<D>) -> &BlockNotes<D>
        requires { IsSome (block_at ctx.now.program (block self)) }
        ensures { block_payload_at ctx.now.program (block self) ≡ Some result.now };

    /// Its attributes, its location and its label.
    ///
    /// # Errors
    /// Refused exactly where the handle leads to no block.
    fn try_deref<D: DialectTables>(
        self,
        ctx: &Context<D>,
    ) -> Result<&BlockNotes<D>, DanglingPtrDerefError>
        ensures found { IfOk result (λ notes. block_payload_at ctx.now.program (block self) ≡ Some notes.now) }
        ensures refused { IsErr result ↔ (block_at ctx.now.program (block self) ≡ None) };

    /// Where it comes from.
    fn loc<D: DialectTables>(self, ctx: &Context<D>) -> &D::Location
        requires { IsSome (block_at ctx.now.program (block self)) }
        ensures { block_location_at ctx.now.program (block self) ≡ Some result.now };

    /// Its label, if it has one.
    fn label<D: DialectTables>(self, ctx: &Context<D>) -> Option<&Identifier>
        requires { IsSome (block_at ctx.now.program (block self)) }
        ensures { label_at ctx.now.program (block self) ≡ Some (option_copied result) };
}

impl BlockCalls for Ptr<BasicBlock> {
    ghost block = { λ b. b };

    fn is_live<O, B, T: TypeTable>(self, ctx: &TypedProgram<O, B, T>) -> bool {
        ctx.program.has_block(self)
    }

    fn get_parent_region<O, B, T: TypeTable>(
        self,
        ctx: &TypedProgram<O, B, T>,
    ) -> Option<Ptr<Region>> {
        ctx.program.parent_region(self)
    }

    fn get_parent_op<O, B, T: TypeTable>(
        self,
        ctx: &TypedProgram<O, B, T>,
    ) -> Option<Ptr<Operation>> {
        operation_of_block(&ctx.program, self)
    }

    fn get_parent_block<O, B, T: TypeTable>(
        self,
        ctx: &TypedProgram<O, B, T>,
    ) -> Option<Ptr<BasicBlock>> {
        parent_of_block(&ctx.program, self)
    }

    fn deref<D: DialectTables>(self, ctx: &Context<D>) -> &BlockNotes<D> {
        ctx.program.block_payload(self)
    }

    fn try_deref<D: DialectTables>(
        self,
        ctx: &Context<D>,
    ) -> Result<&BlockNotes<D>, DanglingPtrDerefError> {
        if !ctx.program.has_block(self) {
            return Err(DanglingPtrDerefError);
        }
        Ok(self.deref(ctx))
    }

    fn loc<D: DialectTables>(self, ctx: &Context<D>) -> &D::Location {
        &ctx.program.block_payload(self).loc
    }

    fn label<D: DialectTables>(self, ctx: &Context<D>) -> Option<&Identifier> {
        ctx.program.block_payload(self).label.as_ref()
    }
}
