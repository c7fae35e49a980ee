//! Operations whose results fold to constants.
ghost use Rattle.std.specs.Prelude.{◌≡◌, ◌+◌, ◌≤◌, ◌^◌, ◌⊎◌, [], ◌∷◌, true, false, Err, Ok, Some, IfErr, IfOk, IsSome, MatchOption, OnErr, OnOk, map, length};
ghost use Rattle.ir_context.specs.Known.{IsKnownIn};
ghost use Rattle.ir_program.specs.Edits.{IsUnchanged};
ghost use Rattle.ir_program.specs.Lent.{payload_at};
ghost use Rattle.ir_program.specs.Lists.{IsLinkedOperation};
ghost use Rattle.ir_program.specs.Made.{BuildsOperation};
ghost use Rattle.ir_program.specs.Program.{TypedValue, operation_at, results_at, value_in};
ghost use Rattle.ir_program.specs.declared.handles.Value.{Value};
ghost use Rattle.opt_dialect.specs.declared.status.IRStatus.TheVariants.{Unchanged};
ghost use Rattle.opt_dialect.specs.declared.status.OptError.TheVariants.{CounterFull, Memory};
ghost use Rattle.opt_folds.specs.Results.{FoldsResult, IsWanted, PutsConstant};

use ir_context::{OperationLists, ResultCalls, TypeTable, TypedProgram, UseCalls};
use ir_opts::Rewriter;
use ir_program::{Operation, Program, Ptr};
use opt_decide::types_of_results;
use opt_dialect::{IRStatus, OptDialect, OptError};
use std::alloc::{AllocError, Global};

/// What each result of an operation folds to, by what is known of its operands.
///
/// # Errors
/// There may be no memory.
pub fn check_fold<D: OptDialect, T: TypeTable>(
    alloc: Global,
    op: Ptr<Operation>,
    ctx: &TypedProgram<D::Operation, D::Block, T>,
    known: &[Option<D::Constant>],
) -> Result<Vec<Option<D::Constant>>, AllocError>
    requires { IsSome (operation_at ctx.now.program op) }
    ensures { IfOk result (λ folds. (payload : D.Operation) → payload_at ctx.now.program op ≡ Some payload
        → folds.items ≡ D.meaning.fold payload (map (λ (t : TypedValue). t.ty) (results_at ctx.now.program op)) known.now) }
{
    folds_of::<D>(alloc, ctx.program(), op, known)
}

/// What each result of an operation folds to.
fn folds_of<D: OptDialect>(
    alloc: Global,
    program: &Program<D::Operation, D::Block>,
    op: Ptr<Operation>,
    known: &[Option<D::Constant>],
) -> Result<Vec<Option<D::Constant>>, AllocError>
    requires { IsSome (operation_at program.now op) }
    ensures { IfOk result (λ folds. (payload : D.Operation) → payload_at program.now op ≡ Some payload
        → folds.items ≡ D.meaning.fold payload (map (λ (t : TypedValue). t.ty) (results_at program.now op)) known.now) }
{
    let types = types_of_results(alloc, program, op)?;
    D::check_fold(alloc, program.payload(op), &types, known)
}

/// What the one result of an operation folds to, where it has a use and an operation of the dialect makes that.
fn wanted<D: OptDialect>(
    alloc: Global,
    program: &Program<D::Operation, D::Block>,
    op: Ptr<Operation>,
    known: &[Option<D::Constant>],
) -> Result<Option<D::Constant>, AllocError>
    requires live { IsSome (operation_at program.now op) }
    requires one { length (results_at program.now op) ≡ 1 }
    ensures { IfOk result (λ wanted. MatchOption wanted ((a : D.Constant) → IsWanted D.meaning program.now known.now op a → ⊥)
        (IsWanted D.meaning program.now known.now op)) }
{
    program.know_values();
    if !program.is_used(program.result(op, 0)) {
        return Ok(None);
    }
    let folds = folds_of::<D>(alloc, program, op, known)?;
    let Some(constant) = folds[0] else {
        return Ok(None);
    };
    if D::constant(alloc, constant)?.is_none() {
        return Ok(None);
    }
    Ok(Some(constant))
}

/// Makes the operation of a constant. It is in no block.
///
/// # Errors
/// `Memory`, and `CounterFull` where no number of a value is left. Each handle leads to what it led to then.
fn new_constant<D: OptDialect, T: TypeTable>(
    alloc: Global,
    ctx: &mut TypedProgram<D::Operation, D::Block, T>,
    constant: D::Constant,
) -> Result<Ptr<Operation>, OptError>
    requires maker { IsSome (D.meaning.constant constant) }
    requires known { IsKnownIn (T.type_count ctx.old.types) (D.meaning.constant_type constant) }
    ensures built { IfOk result (λ p. (content : D.Operation) × (D.meaning.constant constant ≡ Some content)
        × BuildsOperation ctx.old.program ctx.new.program p content (D.meaning.constant_type constant ∷ []) [] [] 0) }
    ensures same { OnErr result (IsUnchanged ctx.old.program ctx.new.program) }
    ensures refused { IfErr result (λ e. (e ≡ Memory) ⊎ (e ≡ CounterFull)) }
    ensures full { result ≡ Err CounterFull → 2 ^ 64 ≤ ctx.old.program.counter + 1 }
    ensures types { ctx.new.types ≡ ctx.old.types }
{
    let Some(payload) = D::constant(alloc, constant)? else {
        unreachable!()
    };
    let ty = D::constant_type(constant);
    let made = ctx.new_operation(alloc, payload, &[ty], &[], &[], 0)?;
    Ok(made)
}

/// Puts a constant right before an operation, in place of its one result.
///
/// # Errors
/// `Memory`, and `CounterFull` where no number of a value is left. Each handle leads to what it led to then.
fn put_constant<D: OptDialect, T: TypeTable>(
    alloc: Global,
    op: Ptr<Operation>,
    ctx: &mut TypedProgram<D::Operation, D::Block, T>,
    constant: D::Constant,
) -> Result<(), OptError>
    requires linked { IsLinkedOperation ctx.old.program op }
    requires one { length (results_at ctx.old.program op) ≡ 1 }
    requires maker { IsSome (D.meaning.constant constant) }
    requires known { IsKnownIn (T.type_count ctx.old.types) (D.meaning.constant_type constant) }
    ensures put { OnOk result ((value : Value) → value_in (results_at ctx.old.program op) 0 ≡ Some value
        → PutsConstant D.meaning ctx.old.program ctx.new.program op value constant) }
    ensures same { OnErr result (IsUnchanged ctx.old.program ctx.new.program) }
    ensures refused { IfErr result (λ e. (e ≡ Memory) ⊎ (e ≡ CounterFull)) }
    ensures full { result ≡ Err CounterFull → 2 ^ 64 ≤ ctx.old.program.counter + 1 }
    ensures types { ctx.new.types ≡ ctx.old.types }
{
    ctx.program().know_values();
    let value = op.get_result(ctx, 0);
    let made = new_constant::<D, T>(alloc, ctx, constant)?;
    made.insert_before(ctx, op);
    let result = made.get_result(ctx, 0);
    value.replace_all_uses_with(alloc, ctx, result)?;
    Ok(())
}

/// Puts a constant in place of the one result of an operation in a block, where by what is known of its operands it
/// folds to one, has a use, and an operation of the dialect makes the constant: a new operation right before this one.
/// Nothing else changes, and the operation stays. It answers whether a constant was put in. A rewriter's point stays.
///
/// # Errors
/// `Memory`, and `CounterFull` where no number of a value is left. Each handle leads to what it led to then.
pub fn fold_with_materialization<D: OptDialect, T: TypeTable>(
    alloc: Global,
    op: Ptr<Operation>,
    ctx: &mut TypedProgram<D::Operation, D::Block, T>,
    known: &[Option<D::Constant>],
    _rewriter: &mut Rewriter,
) -> Result<IRStatus, OptError>
    requires linked { IsLinkedOperation ctx.old.program op }
    requires one { length (results_at ctx.old.program op) ≡ 1 }
    ensures folded { IfOk result (FoldsResult D.meaning ctx.old.program ctx.new.program known.now op) }
    ensures same { OnErr result (IsUnchanged ctx.old.program ctx.new.program) }
    ensures refused { IfErr result (λ e. (e ≡ Memory) ⊎ (e ≡ CounterFull)) }
    ensures full { result ≡ Err CounterFull → 2 ^ 64 ≤ ctx.old.program.counter + 1 }
    ensures point { _rewriter.new ≡ _rewriter.old }
    ensures types { ctx.new.types ≡ ctx.old.types }
{
    ctx.know_types();
    ctx.program().know_values();
    let Some(constant) = wanted::<D>(alloc, ctx.program(), op, known)? else {
        return Ok(IRStatus::Unchanged);
    };
    put_constant::<D, T>(alloc, op, ctx, constant)?;
    Ok(IRStatus::Changed)
}

/// Folds an operation as `fold_with_materialization` does, but for one that makes a constant, which stays as it is.
///
/// # Errors
/// `Memory`, and `CounterFull` where no number of a value is left. Each handle leads to what it led to then.
pub fn fold_in_place<D: OptDialect, T: TypeTable>(
    alloc: Global,
    op: Ptr<Operation>,
    ctx: &mut TypedProgram<D::Operation, D::Block, T>,
    known: &[Option<D::Constant>],
    rewriter: &mut Rewriter,
) -> Result<IRStatus, OptError>
    requires linked { IsLinkedOperation ctx.old.program op }
    requires one { length (results_at ctx.old.program op) ≡ 1 }
    ensures constant { (payload : D.Operation) → payload_at ctx.old.program op ≡ Some payload
        → D.meaning.is_constant payload ≡ true → (result ≡ Ok Unchanged) × (ctx.new ≡ ctx.old) }
    ensures folded { (payload : D.Operation) → payload_at ctx.old.program op ≡ Some payload
        → D.meaning.is_constant payload ≡ false
        → IfOk result (FoldsResult D.meaning ctx.old.program ctx.new.program known.now op) }
    ensures same { OnErr result (IsUnchanged ctx.old.program ctx.new.program) }
    ensures refused { IfErr result (λ e. (e ≡ Memory) ⊎ (e ≡ CounterFull)) }
    ensures full { result ≡ Err CounterFull → 2 ^ 64 ≤ ctx.old.program.counter + 1 }
    ensures point { rewriter.new ≡ rewriter.old }
    ensures types { ctx.new.types ≡ ctx.old.types }
{
    if D::is_constant(ctx.program().payload(op)) {
        return Ok(IRStatus::Unchanged);
    }
    fold_with_materialization::<D, T>(alloc, op, ctx, known, rewriter)
}
