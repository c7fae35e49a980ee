//! Blocks in the lists of regions.
ghost use Rattle.std.specs.Prelude.{◌≡◌, ◌↔◌, ◌+◌, ℕ, None, Some, IsSome, IfSome, IsTrue, MatchOption, slice_get};
ghost use Rattle.ir_program.specs.declared.handles.Ptr.{Ptr};
ghost use Rattle.ir_program.specs.declared.handles.BasicBlock.{BasicBlock};
ghost use Rattle.ir_program.specs.declared.handles.Region.{Region};
ghost use Rattle.ir_program.specs.declared.handles.IRNode.{IRNode};
ghost use Rattle.ir_program.specs.declared.handles.IRNode.TheVariants.{BasicBlock as BlockNode, Region as RegionNode};
ghost use Rattle.ir_program.specs.Program.{block_at, region_at};
ghost use Rattle.ir_program.specs.Lists.{blocks_in, StandsInRegion, IsLinkedBlock, IsUnlinkedBlock, StandsInside};
ghost use Rattle.ir_program.specs.Edits.{KeepsValues};
ghost use Rattle.ir_program.specs.ListEdits.{PutsBlockAfter, PutsBlockBefore, TakesOutBlock, PutsBlockFirst, PutsBlockLast};

use crate::{TypeTable, TypedProgram};
use ir_program::{BasicBlock, Ptr, Region};

/// A block in the list of the region that it stands in.
pub trait BlockLists {
    /// The handle of the block.
    ghost block: { Self → Ptr BasicBlock };

    /// Whether the block stands in a region.
    fn is_linked<O, B, T: TypeTable>(self, ctx: &TypedProgram<O, B, T>) -> bool
        requires { IsSome (block_at ctx.now.program (block self)) }
        ensures linked { IsTrue result ↔ IsLinkedBlock ctx.now.program (block self) };

    /// The region that the block stands in, in whose list it is.
    fn get_container<O, B, T: TypeTable>(self, ctx: &TypedProgram<O, B, T>) -> Option<Ptr<Region>>
        requires { IsSome (block_at ctx.now.program (block self)) }
        ensures container { MatchOption result (IsUnlinkedBlock ctx.now.program (block self))
            (λ container. StandsInRegion ctx.now.program (block self) container) }
        ensures only { (container : Ptr Region) → StandsInRegion ctx.now.program (block self) container
            → result ≡ Some container };

    /// The block that stands right after this one in its region.
    fn get_next<O, B, T: TypeTable>(self, ctx: &TypedProgram<O, B, T>) -> Option<Ptr<BasicBlock>>
        requires { IsSome (block_at ctx.now.program (block self)) }
        ensures next { (region : Ptr Region) (k : ℕ)
            → slice_get (blocks_in ctx.now.program region) k ≡ Some (block self)
            → result ≡ slice_get (blocks_in ctx.now.program region) (k + 1) }
        ensures unlinked { IsUnlinkedBlock ctx.now.program (block self) → result ≡ None }
        ensures live { IfSome result (λ next. IsSome (block_at ctx.now.program next)) };

    /// The block that stands right before this one in its region.
    fn get_prev<O, B, T: TypeTable>(self, ctx: &TypedProgram<O, B, T>) -> Option<Ptr<BasicBlock>>
        requires { IsSome (block_at ctx.now.program (block self)) }
        ensures previous { (region : Ptr Region) (k : ℕ)
            → slice_get (blocks_in ctx.now.program region) (k + 1) ≡ Some (block self)
            → result ≡ slice_get (blocks_in ctx.now.program region) k }
        ensures first { (region : Ptr Region) → slice_get (blocks_in ctx.now.program region) 0 ≡ Some (block self)
            → result ≡ None }
        ensures unlinked { IsUnlinkedBlock ctx.now.program (block self) → result ≡ None }
        ensures live { IfSome result (λ previous. IsSome (block_at ctx.now.program previous)) };

    /// Puts the block, which stands in no region, right after `mark`, which stands in one.
    fn insert_after<O, B, T: TypeTable>(
        self,
        ctx: &mut TypedProgram<O, B, T>,
        mark: Ptr<BasicBlock>,
    )
        requires mark { IsLinkedBlock ctx.old.program mark }
        requires block { IsSome (block_at ctx.old.program (block self)) }
        requires unlinked { IsUnlinkedBlock ctx.old.program (block self) }
        requires apart { StandsInside ctx.old.program (BlockNode (block self)) (BlockNode mark) → ⊥ }
        ensures edited { PutsBlockAfter ctx.old.program ctx.new.program mark (block self) }
        ensures values { KeepsValues ctx.old.program ctx.new.program }
        ensures types { ctx.new.types ≡ ctx.old.types };

    /// Puts the block, which stands in no region, right before `mark`, which stands in one.
    fn insert_before<O, B, T: TypeTable>(
        self,
        ctx: &mut TypedProgram<O, B, T>,
        mark: Ptr<BasicBlock>,
    )
        requires mark { IsLinkedBlock ctx.old.program mark }
        requires block { IsSome (block_at ctx.old.program (block self)) }
        requires unlinked { IsUnlinkedBlock ctx.old.program (block self) }
        requires apart { StandsInside ctx.old.program (BlockNode (block self)) (BlockNode mark) → ⊥ }
        ensures edited { PutsBlockBefore ctx.old.program ctx.new.program mark (block self) }
        ensures values { KeepsValues ctx.old.program ctx.new.program }
        ensures types { ctx.new.types ≡ ctx.old.types };

    /// Puts the block, which stands in no region, before all blocks of a region.
    fn insert_at_front<O, B, T: TypeTable>(
        self,
        ctx: &mut TypedProgram<O, B, T>,
        container: Ptr<Region>,
    )
        requires region { IsSome (region_at ctx.old.program container) }
        requires block { IsSome (block_at ctx.old.program (block self)) }
        requires unlinked { IsUnlinkedBlock ctx.old.program (block self) }
        requires apart { StandsInside ctx.old.program (BlockNode (block self)) (RegionNode container) → ⊥ }
        ensures edited { PutsBlockFirst ctx.old.program ctx.new.program container (block self) }
        ensures values { KeepsValues ctx.old.program ctx.new.program }
        ensures types { ctx.new.types ≡ ctx.old.types };

    /// Puts the block, which stands in no region, after all blocks of a region.
    fn insert_at_back<O, B, T: TypeTable>(
        self,
        ctx: &mut TypedProgram<O, B, T>,
        container: Ptr<Region>,
    )
        requires region { IsSome (region_at ctx.old.program container) }
        requires block { IsSome (block_at ctx.old.program (block self)) }
        requires unlinked { IsUnlinkedBlock ctx.old.program (block self) }
        requires apart { StandsInside ctx.old.program (BlockNode (block self)) (RegionNode container) → ⊥ }
        ensures edited { PutsBlockLast ctx.old.program ctx.new.program container (block self) }
        ensures values { KeepsValues ctx.old.program ctx.new.program }
        ensures types { ctx.new.types ≡ ctx.old.types };

    /// Takes the block out of the region that it stands in. It keeps all that it holds.
    fn unlink<O, B, T: TypeTable>(self, ctx: &mut TypedProgram<O, B, T>)
        requires { IsLinkedBlock ctx.old.program (block self) }
        ensures edited { TakesOutBlock ctx.old.program ctx.new.program (block self) }
        ensures unlinked { IsUnlinkedBlock ctx.new.program (block self) }
        // Nothing stands inside what it did not stand in.
        ensures inside { (outer inner : IRNode) → StandsInside ctx.new.program outer inner
            → StandsInside ctx.old.program outer inner }
        ensures values { KeepsValues ctx.old.program ctx.new.program }
        ensures types { ctx.new.types ≡ ctx.old.types };
}

impl BlockLists for Ptr<BasicBlock> {
    ghost block = { λ p. p };

    fn is_linked<O, B, T: TypeTable>(self, ctx: &TypedProgram<O, B, T>) -> bool {
        ctx.program.parent_region(self).is_some()
    }

    fn get_container<O, B, T: TypeTable>(self, ctx: &TypedProgram<O, B, T>) -> Option<Ptr<Region>> {
        ctx.program.parent_region(self)
    }

    fn get_next<O, B, T: TypeTable>(self, ctx: &TypedProgram<O, B, T>) -> Option<Ptr<BasicBlock>> {
        ctx.program.next_block(self)
    }

    fn get_prev<O, B, T: TypeTable>(self, ctx: &TypedProgram<O, B, T>) -> Option<Ptr<BasicBlock>> {
        ctx.program.previous_block(self)
    }

    fn insert_after<O, B, T: TypeTable>(
        self,
        ctx: &mut TypedProgram<O, B, T>,
        mark: Ptr<BasicBlock>,
    ) {
        ctx.program.insert_block_after(mark, self);
    }

    fn insert_before<O, B, T: TypeTable>(
        self,
        ctx: &mut TypedProgram<O, B, T>,
        mark: Ptr<BasicBlock>,
    ) {
        ctx.program.insert_block_before(mark, self);
    }

    fn insert_at_front<O, B, T: TypeTable>(
        self,
        ctx: &mut TypedProgram<O, B, T>,
        container: Ptr<Region>,
    ) {
        ctx.program.insert_block_at_front(container, self);
    }

    fn insert_at_back<O, B, T: TypeTable>(
        self,
        ctx: &mut TypedProgram<O, B, T>,
        container: Ptr<Region>,
    ) {
        ctx.program.insert_block_at_back(container, self);
    }

    fn unlink<O, B, T: TypeTable>(self, ctx: &mut TypedProgram<O, B, T>) {
        ctx.program.unlink_block(self);
    }
}
