//! What is asked of regions.
ghost use Rattle.std.specs.Prelude.{◌≡◌, ◌≢◌, ◌↔◌, ◌-◌, ◌++◌, ◌∷◌, [], ℕ, Some, None, IsSome, IfSome, IfOk, IsErr, is_some, length, slice_get, remove};
ghost use Rattle.ir_program.specs.declared.handles.Ptr.{Ptr};
ghost use Rattle.ir_program.specs.declared.handles.Operation.{Operation};
ghost use Rattle.ir_program.specs.declared.handles.BasicBlock.{BasicBlock};
ghost use Rattle.ir_program.specs.declared.handles.Region.{Region};
ghost use Rattle.ir_program.specs.declared.handles.IRNode.TheVariants.{Operation as OperationNode, Region as RegionNode};
ghost use Rattle.ir_program.specs.Program.{operation_at, region_at};
ghost use Rattle.ir_program.specs.Lists.{blocks_in, regions_in, StandsInRegion, StandsInOperation, StandsInside};
ghost use Rattle.ir_program.specs.Edits.{EditsOperation, MovesRegion, KeepsValues};
ghost use Rattle.ir_context.specs.Holders.{HasBlock, HasParentRegion};
ghost use Rattle.ir_context.specs.Regions.{IsRegion};

use crate::parents::{block_of_region, parent_of_region};
use crate::{DanglingPtrDerefError, TypeTable, TypedProgram};
use ir_program::{BasicBlock, Operation, Ptr, Region};

/// What a region is: the operation that it stands in, and the ends of the list of its blocks.
#[derive(Clone, Copy, Debug, PartialEq, Eq)]
pub struct RegionRecord {
    /// The operation that it stands in.
    pub parent: Ptr<Operation>,
    /// The first of its blocks, if it has any.
    pub head: Option<Ptr<BasicBlock>>,
    /// The last of its blocks, if it has any.
    pub tail: Option<Ptr<BasicBlock>>,
}

/// What is asked of a region, and how it is moved.
pub trait RegionCalls {
    /// The handle of the region.
    ghost region: { Self → Ptr Region };

    /// Whether the handle leads to a region.
    fn is_live<O, B, T: TypeTable>(self, ctx: &TypedProgram<O, B, T>) -> bool
        ensures { result ≡ is_some (region_at ctx.now.program (region self)) };

    /// What it is: its operation, and the ends of the list of its blocks.
    fn deref<O, B, T: TypeTable>(self, ctx: &TypedProgram<O, B, T>) -> RegionRecord
        requires { IsSome (region_at ctx.now.program (region self)) }
        ensures { IsRegion ctx.now.program (region self) result };

    /// What it is: its operation, and the ends of the list of its blocks.
    ///
    /// # Errors
    /// Refused exactly where the handle leads to no region.
    fn try_deref<O, B, T: TypeTable>(
        self,
        ctx: &TypedProgram<O, B, T>,
    ) -> Result<RegionRecord, DanglingPtrDerefError>
        ensures found { IfOk result (IsRegion ctx.now.program (region self)) }
        ensures refused { IsErr result ↔ (region_at ctx.now.program (region self) ≡ None) };

    /// The operation that the region stands in. Each region stands in one.
    fn get_parent_op<O, B, T: TypeTable>(
        self,
        ctx: &TypedProgram<O, B, T>,
    ) -> Option<Ptr<Operation>>
        requires { IsSome (region_at ctx.now.program (region self)) }
        ensures stands { (op : Ptr Operation) × (result ≡ Some op)
            × StandsInOperation ctx.now.program (region self) op }
        ensures only { (op : Ptr Operation) → StandsInOperation ctx.now.program (region self) op → result ≡ Some op };

    /// The block that this operation stands in.
    fn get_parent_block<O, B, T: TypeTable>(
        self,
        ctx: &TypedProgram<O, B, T>,
    ) -> Option<Ptr<BasicBlock>>
        requires { IsSome (region_at ctx.now.program (region self)) }
        ensures found { IfSome result (λ block. HasBlock ctx.now.program (region self) block) }
        ensures only { (block : Ptr BasicBlock) → HasBlock ctx.now.program (region self) block → result ≡ Some block };

    /// The region that this block stands in.
    fn get_parent_region<O, B, T: TypeTable>(
        self,
        ctx: &TypedProgram<O, B, T>,
    ) -> Option<Ptr<Region>>
        requires { IsSome (region_at ctx.now.program (region self)) }
        ensures found { IfSome result (λ parent. HasParentRegion ctx.now.program (region self) parent) }
        ensures only { (parent : Ptr Region) → HasParentRegion ctx.now.program (region self) parent
            → result ≡ Some parent };

    /// The first of its blocks.
    fn get_entry_block<O, B, T: TypeTable>(
        self,
        ctx: &TypedProgram<O, B, T>,
    ) -> Option<Ptr<BasicBlock>>
        requires { IsSome (region_at ctx.now.program (region self)) }
        ensures first { result ≡ slice_get (blocks_in ctx.now.program (region self)) 0 }
        ensures stands { IfSome result (λ block. StandsInRegion ctx.now.program block (region self)) };

    /// Its index among the regions of its operation.
    fn find_index_in_parent<O, B, T: TypeTable>(self, ctx: &TypedProgram<O, B, T>) -> usize
        requires { IsSome (region_at ctx.now.program (region self)) }
        ensures { (op : Ptr Operation) (k : ℕ) → slice_get (regions_in ctx.now.program op) k ≡ Some (region self)
            → result ≡ k };

    /// Moves the region out of its operation, behind the regions of `op`, which may be the same one.
    fn move_to_op<O, B, T: TypeTable>(self, ctx: &mut TypedProgram<O, B, T>, op: Ptr<Operation>)
        requires region { IsSome (region_at ctx.old.program (region self)) }
        requires op { IsSome (operation_at ctx.old.program op) }
        requires apart { StandsInside ctx.old.program (RegionNode (region self)) (OperationNode op) → ⊥ }
        ensures elsewhere { (from : Ptr Operation) (k : ℕ)
            → slice_get (regions_in ctx.old.program from) k ≡ Some (region self) → from ≢ op
            → MovesRegion ctx.old.program ctx.new.program (region self) from k op }
        ensures within { (k : ℕ) → slice_get (regions_in ctx.old.program op) k ≡ Some (region self)
            → EditsOperation ctx.old.program ctx.new.program op
            (λ v. record v { regions = remove v.regions k ++ region self ∷ [] }) }
        ensures values { KeepsValues ctx.old.program ctx.new.program }
        ensures types { ctx.new.types ≡ ctx.old.types };
}

impl RegionCalls for Ptr<Region> {
    ghost region = { λ r. r };

    fn is_live<O, B, T: TypeTable>(self, ctx: &TypedProgram<O, B, T>) -> bool {
        ctx.program.has_region(self)
    }

    fn deref<O, B, T: TypeTable>(self, ctx: &TypedProgram<O, B, T>) -> RegionRecord {
        RegionRecord {
            parent: ctx.program.parent_operation(self),
            head: ctx.program.first_block(self),
            tail: ctx.program.last_block(self),
        }
    }

    fn try_deref<O, B, T: TypeTable>(
        self,
        ctx: &TypedProgram<O, B, T>,
    ) -> Result<RegionRecord, DanglingPtrDerefError> {
        if !ctx.program.has_region(self) {
            return Err(DanglingPtrDerefError);
        }
        Ok(self.deref(ctx))
    }

    fn get_parent_op<O, B, T: TypeTable>(
        self,
        ctx: &TypedProgram<O, B, T>,
    ) -> Option<Ptr<Operation>> {
        Some(ctx.program.parent_operation(self))
    }

    fn get_parent_block<O, B, T: TypeTable>(
        self,
        ctx: &TypedProgram<O, B, T>,
    ) -> Option<Ptr<BasicBlock>> {
        block_of_region(&ctx.program, self)
    }

    fn get_parent_region<O, B, T: TypeTable>(
        self,
        ctx: &TypedProgram<O, B, T>,
    ) -> Option<Ptr<Region>> {
        parent_of_region(&ctx.program, self)
    }

    fn get_entry_block<O, B, T: TypeTable>(
        self,
        ctx: &TypedProgram<O, B, T>,
    ) -> Option<Ptr<BasicBlock>> {
        ctx.program.first_block(self)
    }

    fn find_index_in_parent<O, B, T: TypeTable>(self, ctx: &TypedProgram<O, B, T>) -> usize {
        ctx.program.region_index(self)
    }

    fn move_to_op<O, B, T: TypeTable>(self, ctx: &mut TypedProgram<O, B, T>, op: Ptr<Operation>) {
        ctx.program.move_region(self, op);
    }
}
