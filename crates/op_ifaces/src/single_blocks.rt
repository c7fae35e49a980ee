//! Regions of one block.
ghost use Rattle.std.specs.Prelude.{◌≡◌, ◌↔◌, ◌<◌, ◌∷◌, [], IsSome, IsTrue, Some, length, slice_get};
ghost use Rattle.ir_names.specs.declared.interfaces.OpInterface.TheVariants as interface;
ghost use Rattle.ir_program.specs.Program.{operation_at, region_at};
ghost use Rattle.ir_program.specs.Lists.{blocks_in, regions_in};
ghost use Rattle.ir_program.specs.declared.handles.Ptr.{Ptr};
ghost use Rattle.ir_program.specs.declared.handles.Region.{Region};
ghost use Rattle.op_ifaces.specs.Rules.{AcceptsExactly, HasSingleBlocks};

use ir_context::{BlockLists, OperationCalls, RegionCalls, TypeTable, TypedProgram};
use ir_names::OpInterface;
use ir_program::{BasicBlock, Operation, Ptr, Region};
use ir_queries::OpInterfaceMarker;
use thiserror::Error;

/// The region at this index hasn't exactly one block.
#[derive(Clone, Copy, Debug, PartialEq, Eq, Error)]
#[error("region {0} must have exactly one block")]
pub struct SingleBlockRegionVerifyErr(pub usize);

/// Whether the region has exactly one block.
fn has_one_block<O, B, T: TypeTable>(region: Ptr<Region>, ctx: &TypedProgram<O, B, T>) -> bool
    requires { IsSome (region_at ctx.now.program region) }
    ensures { IsTrue result ↔ (length (blocks_in ctx.now.program region) ≡ 1) }
{
    match region.get_entry_block(ctx) {
        Some(block) => block.get_next(ctx).is_none(),
        None => false,
    }
}

/// Each region of the operation has exactly one block.
pub struct SingleBlockRegionInterface;

impl OpInterfaceMarker for SingleBlockRegionInterface {
    ghost INTERFACE = { interface.SingleBlockRegion };

    const INTERFACE: OpInterface = OpInterface::SingleBlockRegion;
}

impl SingleBlockRegionInterface {
    /// Whether each has.
    pub fn verify<O, B, T: TypeTable>(
        op: Ptr<Operation>,
        ctx: &TypedProgram<O, B, T>,
    ) -> Result<(), SingleBlockRegionVerifyErr>
        requires { IsSome (operation_at ctx.now.program op) }
        ensures { AcceptsExactly result (HasSingleBlocks ctx.now.program op) }
    {
        for i in 0..op.num_regions(ctx) {
            if !has_one_block(op.get_region(ctx, i), ctx) {
                return Err(SingleBlockRegionVerifyErr(i));
            }
        }
        Ok(())
    }

    /// The block of the region at an index.
    #[tactic(auto, using(crate::proofs::SingleBlocks::only_member))]
    pub fn get_body<O, B, T: TypeTable>(
        op: Ptr<Operation>,
        ctx: &TypedProgram<O, B, T>,
        region: usize,
    ) -> Ptr<BasicBlock>
        requires operation { IsSome (operation_at ctx.now.program op) }
        requires rule { HasSingleBlocks ctx.now.program op }
        requires within { region < length (regions_in ctx.now.program op) }
        ensures { (r : Ptr Region) → slice_get (regions_in ctx.now.program op) region ≡ Some r
            → blocks_in ctx.now.program r ≡ result ∷ [] }
    {
        match op.get_region(ctx, region).get_entry_block(ctx) {
            Some(block) => block,
            None => unreachable!(),
        }
    }
}
