//! Whether an operation keeps a rule where it is.
ghost use Rattle.std.specs.Prelude.{◌≡◌, ◌+◌, ◌↔◌, ℕ, true, length, slice_get, IsSome, IsTrue, Some};
ghost use Rattle.ir_program.specs.Lists.{StandsInside, operations_in};
ghost use Rattle.ir_program.specs.Program.{operation_at};
ghost use Rattle.ir_program.specs.declared.handles.BasicBlock.{BasicBlock};
ghost use Rattle.ir_program.specs.declared.handles.IRNode.TheVariants.{Operation as OperationNode};
ghost use Rattle.ir_program.specs.declared.handles.Operation.{Operation};
ghost use Rattle.ir_program.specs.declared.handles.Ptr.{Ptr};
ghost use Rattle.kit_checks.specs.Naming.{IsOrderFor};
ghost use Rattle.kit_checks.specs.Reading.{KeepsBlockEnds, HasFilledBlocks, OfSite, OfTree};
ghost use Rattle.kit_checks.specs.Rules.{AttributesAreKnown, BlocksEnd, FunctionHolds, RootIsModule, ValuesAreIntegers};
ghost use Rattle.kit_checks.specs.Searching.{IsTested, Tells};
ghost use Rattle.kit_checks.specs.Sites.{region_list};
ghost use Rattle.kit_checks.specs.Words.{is_instruction, kind_of};
ghost use Rattle.kit_checks.specs.World.{world_of};

use crate::attributes::{has_known_attributes, is_forward_ref};
use crate::blocks::{BlockTest, blocks_pass};
use crate::constants::constants_fit;
use crate::counts::has_regions;
use crate::edges::edges_fit;
use crate::format::fits_format;
use crate::naming::operands_are_visible;
use crate::operands::types_agree;
use crate::reading::{is_function, is_instruction, is_module, is_terminator, kind_of};
use crate::rule::Rule;
use crate::signatures::{function_has_type, returns_fit};
use crate::sites::is_in_function;
use crate::types::{TypeTest, results_pass};
use crate::walk_order::WalkOrder;
use ir_context::{Context, OperationCalls, OperationLists, TypeTable, TypedProgram};
use ir_program::{Operation, Ptr};
use kit::Kit;

/// Whether an operation is a module if it is the root.
pub(crate) fn root_is_module(ctx: &Context<Kit>, root: Ptr<Operation>, op: Ptr<Operation>) -> bool
    requires { IsSome (operation_at ctx.now.program op) }
    ensures { OfSite ctx.now.program root op (λ s. IsTrue result ↔ RootIsModule (world_of ctx.now) s) }
{
    if op == root {
        return is_module(kind_of(ctx, op));
    }
    true
}

/// Whether an operation is of a kind that stands in functions, and has no region.
fn is_plain_instruction(ctx: &Context<Kit>, op: Ptr<Operation>) -> bool
    requires { IsSome (operation_at ctx.now.program op) }
    ensures { OfTree ctx.now.program op (λ u. IsTrue result ↔ (is_instruction (kind_of (world_of ctx.now) u) ≡ true)
        × (length (region_list u.regions) ≡ 0)) }
{
    if !is_instruction(kind_of(ctx, op)) {
        return false;
    }
    has_regions(ctx, op, 0)
}

/// Whether an operation may stand where it is if that is in a function.
pub(crate) fn function_holds(ctx: &Context<Kit>, root: Ptr<Operation>, op: Ptr<Operation>) -> bool
    requires { IsSome (operation_at ctx.now.program op) }
    ensures { OfSite ctx.now.program root op (λ s. IsTrue result ↔ FunctionHolds (world_of ctx.now) s) }
{
    if !is_in_function(ctx, root, op) {
        return true;
    }
    is_plain_instruction(ctx, op)
}

/// Whether the results of an operation and the arguments of the blocks in it are integers of 1 to 64 bits.
#[inline(always)]
pub(crate) fn values_are_integers(
    ctx: &Context<Kit>,
    _root: Ptr<Operation>,
    op: Ptr<Operation>,
) -> bool
    requires { IsSome (operation_at ctx.now.program op) }
    ensures { OfSite ctx.now.program _root op (λ s. IsTrue result ↔ ValuesAreIntegers (world_of ctx.now) s) }
{
    if !results_pass(ctx, op, TypeTest::Value) {
        return false;
    }
    blocks_pass(ctx, op, BlockTest::Values)
}

/// Whether an operation is the last one of its block.
fn is_last<O, B, T: TypeTable>(ctx: &TypedProgram<O, B, T>, op: Ptr<Operation>) -> bool
    requires { IsSome (operation_at ctx.now.program op) }
    ensures { (block : Ptr BasicBlock) (k : ℕ) → slice_get (operations_in ctx.now.program block) k ≡ Some op
        → IsTrue result ↔ (k + 1 ≡ length (operations_in ctx.now.program block)) }
{
    match op.get_next(ctx) {
        Some(_) => false,
        None => true,
    }
}

/// Whether an operation in a function is a terminator exactly if it is the last one of its block.
fn ends_well(ctx: &Context<Kit>, root: Ptr<Operation>, op: Ptr<Operation>) -> bool
    requires { IsSome (operation_at ctx.now.program op) }
    ensures { OfSite ctx.now.program root op (λ s. IsTrue result ↔ KeepsBlockEnds (world_of ctx.now) s) }
{
    if !is_in_function(ctx, root, op) {
        return true;
    }
    if is_terminator(kind_of(ctx, op)) {
        return is_last(ctx, op);
    }
    !is_last(ctx, op)
}

/// Whether no block in an operation is empty, if that is a function.
fn has_filled_blocks(ctx: &Context<Kit>, op: Ptr<Operation>) -> bool
    requires { IsSome (operation_at ctx.now.program op) }
    ensures { OfTree ctx.now.program op (λ u. IsTrue result ↔ HasFilledBlocks (world_of ctx.now) u) }
{
    if !is_function(kind_of(ctx, op)) {
        return true;
    }
    blocks_pass(ctx, op, BlockTest::Filled)
}

/// Whether an operation ends its block if it has to, and no other, and each of its blocks has an operation.
#[inline(always)]
pub(crate) fn blocks_end(ctx: &Context<Kit>, root: Ptr<Operation>, op: Ptr<Operation>) -> bool
    requires { IsSome (operation_at ctx.now.program op) }
    ensures { OfSite ctx.now.program root op (λ s. IsTrue result ↔ BlocksEnd (world_of ctx.now) s) }
{
    if !ends_well(ctx, root, op) {
        return false;
    }
    has_filled_blocks(ctx, op)
}

/// Whether an operation isn't a `forward_ref`, and it and the blocks in it have only attributes that they may have.
#[inline(always)]
pub(crate) fn attributes_are_known(
    ctx: &Context<Kit>,
    _root: Ptr<Operation>,
    op: Ptr<Operation>,
) -> bool
    requires { IsSome (operation_at ctx.now.program op) }
    ensures { OfSite ctx.now.program _root op (λ s. IsTrue result ↔ AttributesAreKnown (world_of ctx.now) s) }
{
    if is_forward_ref(kind_of(ctx, op)) {
        return false;
    }
    if !has_known_attributes(ctx, op) {
        return false;
    }
    blocks_pass(ctx, op, BlockTest::Known)
}

/// Whether an operation inside the root keeps a rule.
pub(crate) fn keeps(
    ctx: &Context<Kit>,
    root: Ptr<Operation>,
    rule: Rule,
    order: &WalkOrder,
    op: Ptr<Operation>,
) -> bool
    requires tested { IsTested rule }
    requires order { IsOrderFor ctx.now.program rule root order.now }
    requires inside { StandsInside ctx.now.program (OperationNode root) (OperationNode op) }
    requires op { IsSome (operation_at ctx.now.program op) }
    ensures { Tells (world_of ctx.now) ctx.now.program root rule op result }
{
    match rule {
        Rule::RootIsModule => root_is_module(ctx, root, op),
        Rule::FunctionHasType => function_has_type(ctx, op),
        Rule::FunctionHolds => function_holds(ctx, root, op),
        Rule::ValuesAreIntegers => values_are_integers(ctx, root, op),
        Rule::BlocksEnd => blocks_end(ctx, root, op),
        Rule::OperandsAreVisible => operands_are_visible(ctx, root, order, op),
        Rule::TypesAgree => types_agree(ctx, op),
        Rule::EdgesFit => edges_fit(ctx, root, op),
        Rule::ReturnsFit => returns_fit(ctx, root, op),
        Rule::ConstantsFit => constants_fit(ctx, op),
        Rule::AttributesAreKnown => attributes_are_known(ctx, root, op),
        Rule::FitsFormat => fits_format(ctx, op),
        _ => unreachable!(),
    }
}
