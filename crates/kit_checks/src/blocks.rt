//! Tests of the blocks in an operation.
ghost use Rattle.std.specs.Prelude.{◌≡◌, ◌≢◌, ◌↔◌, [], IsSome, IsTrue};
ghost use Rattle.ir_program.specs.Program.{block_at, operation_at, region_at};
ghost use Rattle.kit_checks.specs.Passing.{BlockPasses, OfBody, OfRegion};
ghost use Rattle.kit_checks.specs.Reading.{OfTree};
ghost use Rattle.kit_checks.specs.Sites.{block_list, operation_list};
ghost use Rattle.kit_checks.specs.Words.{Every, bodies_of};
ghost use Rattle.kit_checks.specs.World.{world_of};

use crate::attributes::has_common_attributes;
use crate::types::{TypeTest, arguments_pass};
use ir_context::Context;
use ir_program::{BasicBlock, Operation, Program, Ptr, Region};
use kit::Kit;

/// What is asked of a block.
#[derive(Clone, Copy)]
pub(crate) enum BlockTest {
    /// Its arguments have types that values can have.
    Values,
    /// It isn't empty.
    Filled,
    /// Every block may have its attributes.
    Known,
}

/// Whether a block has an operation.
fn is_filled<O, B>(program: &Program<O, B>, block: Ptr<BasicBlock>) -> bool
    requires { IsSome (block_at program.now block) }
    ensures { OfBody program.now block (λ b. IsTrue result ↔ (operation_list b.operations ≢ [])) }
{
    match program.first_operation(block) {
        Some(_) => true,
        None => false,
    }
}

/// Whether a block passes a test.
fn block_passes(ctx: &Context<Kit>, test: BlockTest, block: Ptr<BasicBlock>) -> bool
    requires { IsSome (block_at ctx.now.program block) }
    ensures { OfBody ctx.now.program block (λ b. IsTrue result ↔ BlockPasses (world_of ctx.now) test b) }
{
    match test {
        BlockTest::Values => arguments_pass(ctx, block, TypeTest::Value),
        BlockTest::Filled => is_filled(ctx.program(), block),
        BlockTest::Known => has_common_attributes(ctx, block),
    }
}

/// Whether the blocks of a region pass a test.
fn region_passes(ctx: &Context<Kit>, test: BlockTest, region: Ptr<Region>) -> bool
    requires { IsSome (region_at ctx.now.program region) }
    ensures { OfRegion ctx.now.program region
        (λ blocks. IsTrue result ↔ Every (BlockPasses (world_of ctx.now) test) (block_list blocks)) }
{
    let program = ctx.program();
    program.know_lists();
    for block in program.blocks(region) {
        if !block_passes(ctx, test, block) {
            return false;
        }
    }
    true
}

/// Whether all blocks of all regions of an operation pass a test.
#[inline(always)]
pub(crate) fn blocks_pass(ctx: &Context<Kit>, op: Ptr<Operation>, test: BlockTest) -> bool
    requires { IsSome (operation_at ctx.now.program op) }
    ensures { OfTree ctx.now.program op (λ u. IsTrue result ↔ Every (BlockPasses (world_of ctx.now) test)
        (bodies_of u)) }
{
    let program = ctx.program();
    program.know_lists();
    for region in program.regions(op) {
        if !region_passes(ctx, test, region) {
            return false;
        }
    }
    true
}
