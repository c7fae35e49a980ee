//! Which values an operation may name.
ghost use Rattle.std.specs.Prelude.{◌≡◌, ◌≢◌, ◌↔◌, IfOk, IfSome, IsNone, IsSome, IsTrue, None};
ghost use Rattle.ir_program.specs.Lists.{StandsInside};
ghost use Rattle.ir_program.specs.Program.{operation_at, IsLiveValue};
ghost use Rattle.ir_program.specs.Rows.{operands_at};
ghost use Rattle.ir_program.specs.declared.handles.DefiningEntity.TheVariants.{Op as ByOp};
ghost use Rattle.ir_program.specs.declared.handles.IRNode.TheVariants.{Operation as OperationNode};
ghost use Rattle.kit_checks.specs.Naming.{IsOrderAt, IsOrderFor, IsSpotOfOperation, MayName, MayNameFrom, OrdersBefore};
ghost use Rattle.kit_checks.specs.Reading.{OfSite};
ghost use Rattle.kit_checks.specs.Rules.{OperandsAreVisible};
ghost use Rattle.kit_checks.specs.Words.{Every};
ghost use Rattle.kit_checks.specs.World.{world_of};

use crate::rule::Rule;
use crate::walk_order::WalkOrder;
use ir_context::{Context, OperandCalls};
use ir_program::{BasicBlock, DefiningEntity, Operation, Program, Ptr, Value};
use kit::Kit;
use std::alloc::{AllocError, Global};

/// Where an operation is: its block, and the first block of the region.
#[derive(Clone, Copy)]
pub(crate) struct Spot {
    block: Ptr<BasicBlock>,
    entry: Ptr<BasicBlock>,
}

/// The order of the operations inside a root for the test of a rule: it is only made for the rule that reads it, and
/// has no numbers for the others.
///
/// # Errors
/// No memory.
pub(crate) fn order_for<O, B>(
    alloc: Global,
    program: &Program<O, B>,
    root: Ptr<Operation>,
    rule: Rule,
) -> Result<WalkOrder, AllocError>
    requires { IsSome (operation_at program.now root) }
    ensures { IfOk result (λ order. IsOrderFor program.now rule root order) }
{
    match rule {
        Rule::OperandsAreVisible => WalkOrder::inside(alloc, program, root),
        _ => Ok(WalkOrder::new(alloc)),
    }
}

/// Where an operation inside the root is; the root is nowhere.
fn spot_of<O, B>(program: &Program<O, B>, root: Ptr<Operation>, op: Ptr<Operation>) -> Option<Spot>
    requires { IsSome (operation_at program.now op) }
    ensures spot { IfSome result (λ spot. (op ≢ root) × IsSpotOfOperation program.now op spot) }
    ensures root { OfSite program.now root op (λ s. IsNone result ↔ (s.around ≡ None)) }
{
    if op == root {
        return None;
    }
    let block = program.parent_block(op)?;
    let region = program.parent_region(block)?;
    let entry = program.first_block(region)?;
    Some(Spot { block, entry })
}

/// Whether an operation may name the results of another one: that comes before it in its block or, outside the entry,
/// is in the entry.
fn may_name_results<O, B>(
    program: &Program<O, B>,
    order: &WalkOrder,
    op: Ptr<Operation>,
    spot: Spot,
    definer: Ptr<Operation>,
) -> bool
    requires definer { IsSome (operation_at program.now definer) }
    requires spot { IsSpotOfOperation program.now op spot }
    requires order { OrdersBefore program.now spot.block op order.now }
    ensures { IsTrue result ↔ MayNameFrom program.now op spot (ByOp definer) }
{
    match program.parent_block(definer) {
        Some(home) => {
            if home == spot.block {
                return order.is_earlier(definer, op);
            }
            home == spot.entry
        }
        None => false,
    }
}

/// Whether an operation may name a value: an earlier one of its block or, outside the entry, one of the entry.
fn may_name<O, B>(
    program: &Program<O, B>,
    order: &WalkOrder,
    op: Ptr<Operation>,
    spot: Spot,
    value: Value,
) -> bool
    requires value { IsLiveValue program.now value }
    requires spot { IsSpotOfOperation program.now op spot }
    requires order { OrdersBefore program.now spot.block op order.now }
    ensures { IsTrue result ↔ MayName program.now op spot value }
{
    program.know_values();
    match value.definer() {
        DefiningEntity::Block(block) => block == spot.block || block == spot.entry,
        DefiningEntity::Op(definer) => may_name_results(program, order, op, spot, definer),
    }
}

/// Whether an operation may name each of its operands.
fn names_visible<O, B>(
    program: &Program<O, B>,
    order: &WalkOrder,
    op: Ptr<Operation>,
    spot: Spot,
) -> bool
    requires spot { IsSpotOfOperation program.now op spot }
    requires order { OrdersBefore program.now spot.block op order.now }
    ensures { IsTrue result ↔ Every (MayName program.now op spot) (operands_at program.now op) }
{
    for index in 0..program.operand_count(op) {
        if !may_name(program, order, op, spot, program.operand(op, index)) {
            return false;
        }
    }
    true
}

/// Whether each operand of an operation inside the root is a value that it may name; the root has to have none.
#[inline(always)]
pub(crate) fn operands_are_visible(
    ctx: &Context<Kit>,
    root: Ptr<Operation>,
    order: &WalkOrder,
    op: Ptr<Operation>,
) -> bool
    requires inside { StandsInside ctx.now.program (OperationNode root) (OperationNode op) }
    requires op { IsSome (operation_at ctx.now.program op) }
    requires order { IsOrderAt ctx.now.program root op order.now }
    ensures { OfSite ctx.now.program root op (λ s. IsTrue result ↔ OperandsAreVisible (world_of ctx.now) s) }
{
    let program = ctx.program();
    program.know_lists();
    program.know_values();
    program.know_operands();
    match spot_of(program, root, op) {
        Some(spot) => names_visible(program, order, op, spot),
        None => program.operand_count(op) == 0,
    }
}
