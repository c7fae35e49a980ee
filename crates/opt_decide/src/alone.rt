//! What values are known to be by their definers alone.
ghost use Rattle.std.specs.Prelude.{◌≡◌, None, Some, IfOk, IsSome, map, slice_get};
ghost use Rattle.ir_program.specs.Program.{TypedValue, operation_at, results_at, IsLiveValue};
ghost use Rattle.ir_program.specs.Rows.{operands_at};
ghost use Rattle.ir_program.specs.declared.handles.Value.{Value};
ghost use Rattle.opt_inside.specs.Around.{or_none};
ghost use Rattle.opt_decide.specs.Planned.{folded_if, found_among, known_alone};

use ir_base::TypeHandle;
use ir_program::{DefiningEntity, Operation, Program, Ptr, Value};
use opt_dialect::OptDialect;
use std::alloc::{AllocError, Global};

/// The types of the results of an operation.
///
/// # Errors
/// There may be no memory.
pub fn types_of_results<O, B>(
    alloc: Global,
    program: &Program<O, B>,
    op: Ptr<Operation>,
) -> Result<Vec<TypeHandle>, AllocError>
    requires { IsSome (operation_at program.now op) }
    ensures { IfOk result (λ types. types.items ≡ map (λ (t : TypedValue). t.ty) (results_at program.now op)) }
{
    let mut types = Vec::new(alloc);
    for i in 0..program.result_count(op) {
        types.push(program.result_type(op, i))?;
    }
    Ok(types)
}

/// For each operand of an operation that nothing is known of it.
fn nothing_known<O, B, A: Copy>(
    alloc: Global,
    program: &Program<O, B>,
    op: Ptr<Operation>,
) -> Result<Vec<Option<A>>, AllocError>
    requires { IsSome (operation_at program.now op) }
    ensures { IfOk result (λ known. known.items ≡ map (λ (v : Value). None) (operands_at program.now op)) }
{
    let mut known = Vec::new(alloc);
    for i in 0..program.operand_count(op) {
        known.push(None)?;
    }
    Ok(known)
}

/// The index of a value among the results of an operation.
fn result_index<O, B>(program: &Program<O, B>, op: Ptr<Operation>, value: Value) -> Option<usize>
    requires { IsSome (operation_at program.now op) }
    ensures { result ≡ found_among (results_at program.now op) Some value }
{
    for i in 0..program.result_count(op) {
        if program.result(op, i) == value {
            return Some(i);
        }
    }
    None
}

/// The item at an index, where there is one and it is known.
fn known_at<A: Copy>(known: &[Option<A>], index: usize) -> Option<A>
    ensures { result ≡ or_none (slice_get known.now index) }
{
    match known.get(index) {
        Some(item) => *item,
        None => None,
    }
}

/// What a result of an operation folds to, with no operand known.
fn folded<D: OptDialect>(
    alloc: Global,
    program: &Program<D::Operation, D::Block>,
    op: Ptr<Operation>,
    value: Value,
) -> Result<Option<D::Constant>, AllocError>
    requires { IsSome (operation_at program.now op) }
    ensures { IfOk result (λ known. known ≡ folded_if D.meaning (operation_at program.now op) value) }
{
    if !D::is_foldable(program.payload(op)) {
        return Ok(None);
    }
    let Some(index) = result_index(program, op, value) else {
        return Ok(None);
    };
    let types = types_of_results(alloc, program, op)?;
    let known = nothing_known::<D::Operation, D::Block, D::Constant>(alloc, program, op)?;
    let folds = D::check_fold(alloc, program.payload(op), &types, &known)?;
    Ok(known_at(&folds, index))
}

/// What a value is known to be by its definer alone: what a result folds to with no operand known. Nothing is known of an
/// argument.
fn alone<D: OptDialect>(
    alloc: Global,
    program: &Program<D::Operation, D::Block>,
    value: Value,
) -> Result<Option<D::Constant>, AllocError>
    requires { IsLiveValue program.now value }
    ensures { IfOk result (λ known. known ≡ known_alone D.meaning program.now value) }
{
    program.know_values();
    match value.definer() {
        DefiningEntity::Op(op) => folded::<D>(alloc, program, op, value),
        DefiningEntity::Block(_) => Ok(None),
    }
}

/// What each operand of an operation is known to be by its definer alone.
///
/// # Errors
/// There may be no memory.
pub(crate) fn known_operands<D: OptDialect>(
    alloc: Global,
    program: &Program<D::Operation, D::Block>,
    op: Ptr<Operation>,
) -> Result<Vec<Option<D::Constant>>, AllocError>
    requires { IsSome (operation_at program.now op) }
    ensures { IfOk result (λ known. known.items ≡ map (known_alone D.meaning program.now)
        (operands_at program.now op)) }
{
    let mut known = Vec::new(alloc);
    for i in 0..program.operand_count(op) {
        let constant = alone::<D>(alloc, program, program.operand(op, i))?;
        known.push(constant)?;
    }
    Ok(known)
}
