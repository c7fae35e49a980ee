//! Which values get constants, and which operations lack an operand.
ghost use Rattle.std.specs.Prelude.{◌≡◌, ◌⊎◌, ◌↔◌, true, false, Some, IfOk, IsSome, IsTrue, slice_get, unwrap_or};
ghost use Rattle.std.specs.List.{list_all};
ghost use Rattle.ir_program.specs.Program.{operation_at, block_at, IsLiveValue};
ghost use Rattle.ir_program.specs.Rows.{operands_at};
ghost use Rattle.ir_program.specs.declared.handles.Operation.{Operation};
ghost use Rattle.ir_program.specs.declared.handles.Ptr.{Ptr};
ghost use Rattle.ir_program.specs.declared.handles.Value.{Value};
ghost use Rattle.ir_trees.specs.Searched.{Lists};
ghost use Rattle.opt_sccp.specs.Placed.{DefinerIsPlaced};
ghost use Rattle.opt_sccp.specs.Wanted.{is_determined, AreMade, FoldsAt, HasUndetermined, IsConstantFor, IsWantedAt, LacksAt, OfFacts, SomeLacks, IsInSsaRegion};

use crate::Made;
use ir_program::{BasicBlock, DefiningEntity, Operation, Program, Ptr, Value};
use opt_dialect::OptDialect;
use opt_inside::Inside;
use opt_inside::facts::KnownFacts;
use opt_rows::Known;
use std::alloc::{AllocError, Global};

/// The item at an index, or another one past the end.
fn item_or<X: Copy>(items: &[X], index: usize, other: X) -> X
    ensures { result ≡ unwrap_or (slice_get items.now index) other }
{
    match items.get(index) {
        Some(item) => *item,
        None => other,
    }
}

/// Whether a block is known to run.
fn runs<A>(inside: &Inside, facts: &KnownFacts<A>, block: Ptr<BasicBlock>) -> bool
    ensures { OfFacts inside.now facts.now (λ k. result ≡ k.runs block) }
{
    match inside.blocks.get_index_of(&block) {
        Some(number) => item_or(&facts.runs, number, false),
        None => false,
    }
}

/// What is known of a value.
fn known_of<A: Copy>(inside: &Inside, facts: &KnownFacts<A>, value: Value) -> Known<A>
    ensures { OfFacts inside.now facts.now (λ k. result ≡ k.of value) }
{
    match inside.values.get_index_of(value) {
        Some(number) => item_or(&facts.known, number, Known::Any),
        None => Known::Any,
    }
}

/// Whether a block is in a region in which what comes first runs first.
fn is_in_ssa<D: OptDialect>(
    program: &Program<D::Operation, D::Block>,
    block: Ptr<BasicBlock>,
) -> bool
    requires { IsSome (block_at program.now block) }
    ensures { IsTrue result ↔ IsInSsaRegion D.meaning program.now block }
{
    match program.parent_region(block) {
        Some(region) => {
            let owner = program.parent_operation(region);
            D::has_ssa_dominance(program.payload(owner), program.region_index(region))
        }
        None => false,
    }
}

/// Whether an operation is asked for its operands: it can be folded, or is a branch.
fn asks<D: OptDialect>(payload: &D::Operation) -> bool
    ensures { IsTrue result ↔ ((D.meaning.is_foldable payload.now ≡ true) ⊎ (D.meaning.is_branch payload.now ≡ true)) }
{
    D::is_foldable(payload) || D::is_branch(payload)
}

/// Whether an operand of an operation is undetermined.
fn has_undetermined<O, B, A: Copy>(
    program: &Program<O, B>,
    inside: &Inside,
    facts: &KnownFacts<A>,
    op: Ptr<Operation>,
) -> bool
    requires { IsSome (operation_at program.now op) }
    ensures { OfFacts inside.now facts.now (λ k. IsTrue result ↔ HasUndetermined k (operands_at program.now op)) }
{
    for i in 0..program.operand_count(op) {
        if let Known::Undetermined = known_of(inside, facts, program.operand(op, i)) {
            return true;
        }
    }
    false
}

/// Whether an operand of an operation is undetermined, which is asked for it, in a block that runs of an SSA region.
fn is_lacking_at<D: OptDialect>(
    program: &Program<D::Operation, D::Block>,
    inside: &Inside,
    facts: &KnownFacts<D::Constant>,
    op: Ptr<Operation>,
) -> bool
    requires { IsSome (operation_at program.now op) }
    ensures { OfFacts inside.now facts.now (λ k. IsTrue result ↔ LacksAt D.meaning program.now k op) }
{
    let Some(block) = program.parent_block(op) else {
        return false;
    };
    if !runs(inside, facts, block) {
        return false;
    }
    if !is_in_ssa::<D>(program, block) {
        return false;
    }
    if !asks::<D>(program.payload(op)) {
        return false;
    }
    has_undetermined(program, inside, facts, op)
}

/// Whether something is found out of a value of which this is known.
fn is_determined<A: Copy>(fact: &Known<A>) -> bool
    ensures { result ≡ is_determined fact.now }
{
    match fact {
        Known::Undetermined => false,
        Known::One(_) => true,
        Known::Any => true,
    }
}

/// Whether something is found out of each value of which one of these is known.
fn are_determined<A: Copy>(known: &[Known<A>]) -> bool
    ensures { result ≡ list_all is_determined known.now }
{
    known.iter().all(|fact| is_determined(fact))
}

/// Whether an operand is undetermined that some operation inside is asked for, in a block that runs of an SSA region.
pub(crate) fn is_lacking<D: OptDialect>(
    program: &Program<D::Operation, D::Block>,
    inside: &Inside,
    facts: &KnownFacts<D::Constant>,
) -> bool
    requires { (p : Ptr Operation) → Lists inside.now.operations.keys p → IsSome (operation_at program.now p) }
    ensures { OfFacts inside.now facts.now (λ k. IsTrue result
        ↔ SomeLacks D.meaning program.now k inside.now.operations.keys) }
{
    if are_determined(&facts.known) {
        return false;
    }
    for op in inside.operations.as_slice() {
        if is_lacking_at::<D>(program, inside, facts, *op) {
            return true;
        }
    }
    false
}

/// Whether an operation can be folded, is no constant itself, and is in a block that runs.
fn folds<D: OptDialect>(
    program: &Program<D::Operation, D::Block>,
    inside: &Inside,
    facts: &KnownFacts<D::Constant>,
    op: Ptr<Operation>,
) -> bool
    requires { IsSome (operation_at program.now op) }
    ensures { OfFacts inside.now facts.now (λ k. IsTrue result ↔ FoldsAt D.meaning program.now k op) }
{
    let Some(block) = program.parent_block(op) else {
        return false;
    };
    let payload = program.payload(op);
    if !D::is_foldable(payload) {
        return false;
    }
    if D::is_constant(payload) {
        return false;
    }
    runs(inside, facts, block)
}

/// Whether values of this operation or block get constants.
fn is_wanted<D: OptDialect>(
    program: &Program<D::Operation, D::Block>,
    inside: &Inside,
    facts: &KnownFacts<D::Constant>,
    definer: DefiningEntity,
) -> bool
    requires { DefinerIsPlaced program.now definer }
    ensures { OfFacts inside.now facts.now (λ k. IsTrue result ↔ IsWantedAt D.meaning program.now k definer) }
{
    match definer {
        DefiningEntity::Op(op) => folds::<D>(program, inside, facts, op),
        DefiningEntity::Block(block) => runs(inside, facts, block),
    }
}

/// The constant that is put in for a value of which this is known, if one is. A value that no operation of the program
/// takes gets none.
///
/// # Errors
/// There may be no memory.
fn constant_for<D: OptDialect>(
    alloc: Global,
    program: &Program<D::Operation, D::Block>,
    inside: &Inside,
    facts: &KnownFacts<D::Constant>,
    value: Value,
    fact: Known<D::Constant>,
) -> Result<Option<D::Constant>, AllocError>
    requires placed { DefinerIsPlaced program.now value.definer }
    requires live { IsLiveValue program.now value }
    ensures { IfOk result (λ constant. OfFacts inside.now facts.now
        (λ k. fact ≡ k.of value → IsConstantFor D.meaning program.now k value constant)) }
{
    let Known::One(constant) = fact else {
        return Ok(None);
    };
    if !program.is_used(value) {
        return Ok(None);
    }
    if !is_wanted::<D>(program, inside, facts, value.definer()) {
        return Ok(None);
    }
    if D::constant(alloc, constant)?.is_none() {
        return Ok(None);
    }
    Ok(Some(constant))
}

/// The values inside that get constants, in their order, with their constants. The time is linear in how much is
/// inside.
///
/// # Errors
/// There may be no memory.
pub(crate) fn made_constants<D: OptDialect>(
    alloc: Global,
    program: &Program<D::Operation, D::Block>,
    inside: &Inside,
    facts: &KnownFacts<D::Constant>,
) -> Result<Vec<Made<D::Constant>>, AllocError>
    requires placed { (v : Value) → Lists inside.now.values.keys v → DefinerIsPlaced program.now v.definer }
    requires live { (v : Value) → Lists inside.now.values.keys v → IsLiveValue program.now v }
    ensures { IfOk result (λ made. OfFacts inside.now facts.now
        (λ k. AreMade D.meaning program.now k inside.now.values.keys made.items)) }
{
    let mut made = Vec::new(alloc);
    for (number, value) in inside.values.as_slice().iter().enumerate() {
        let fact = item_or(&facts.known, number, Known::Any);
        if let Some(constant) = constant_for::<D>(alloc, program, inside, facts, *value, fact)? {
            made.push(Made {
                value: *value,
                constant,
            })?;
        }
    }
    Ok(made)
}
