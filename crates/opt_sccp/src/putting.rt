//! Constants put in for values.
ghost use Rattle.std.specs.Prelude.{◌≡◌, ◌≢◌, ◌≤◌, ◌+◌, ◌^◌, [], ◌∷◌, Err, Some, IfErr, IfOk, IsSome, OnErr, OnOk, length};
ghost use Rattle.ir_program.specs.Adds.{SomeCame};
ghost use Rattle.ir_program.specs.Edits.{KeepsErased, KeepsValues};
ghost use Rattle.ir_program.specs.Lists.{IsUnlinkedOperation, regions_in};
ghost use Rattle.ir_program.specs.Made.{BuildsOperation};
ghost use Rattle.ir_program.specs.Program.{operation_at};
ghost use Rattle.ir_program.specs.declared.handles.DefiningEntity.TheVariants.{Op as ByOp};
ghost use Rattle.ir_context.specs.Known.{IsKnownIn};
ghost use Rattle.opt_dialect.specs.declared.status.OptError.TheVariants.{CounterFull};
ghost use Rattle.opt_sccp.specs.Made.{AreTyped, IsPutList, IsShortage, PutsList};
ghost use Rattle.opt_sccp.specs.Placed.{CanPutAt, DefinerIsPlaced, LeadsAlike, PutsAtDefiner, PutsMade};

use ir_context::{OperationLists, ResultCalls, TypeTable, TypedProgram, UseCalls};
use ir_program::{DefiningEntity, Operation, Ptr, Value};
use opt_dialect::{OptDialect, OptError};
use std::alloc::Global;

/// A value, and the constant that is put in for it.
#[derive(Clone, Copy)]
pub struct Made<A> {
    /// A result of an operation, or an argument of a block.
    pub value: Value,
    /// What it is known to be.
    pub constant: A,
}

/// Puts constants in for values that are defined inside an operation: each in an operation of its own, right before the
/// operation that the value is a result of, or at the start of the block that it is an argument of. All uses of the
/// value are uses of the constant then, also those outside. The values of one operation or block come in its order. The
/// time is linear in how many constants there are and how many uses the values have.
///
/// # Errors
/// `Memory`, and `CounterFull` where there are not so many numbers left for values. Some constants are put in then, the
/// first of the list, each with all uses of its value.
pub fn put_constants<D: OptDialect, T: TypeTable>(
    alloc: Global,
    ctx: &mut TypedProgram<D::Operation, D::Block, T>,
    op: Ptr<Operation>,
    made: &[Made<D::Constant>],
) -> Result<(), OptError>
    requires list { IsPutList D.meaning ctx.old.program op made.now }
    requires known { AreTyped D.meaning (T.type_count ctx.old.types) made.now }
    ensures put { OnOk result (PutsList D.meaning ctx.old.program ctx.new.program op made.now) }
    ensures part { OnErr result (SomeCame made.now (PutsList D.meaning ctx.old.program ctx.new.program op)) }
    ensures refused { IfErr result IsShortage }
    ensures numbers { OnOk result (ctx.new.program.counter ≡ ctx.old.program.counter + length made.now) }
    ensures full { result ≡ Err CounterFull → 2 ^ 64 ≤ ctx.old.program.counter + length made.now }
    ensures erased { KeepsErased ctx.old.program ctx.new.program }
    ensures types { ctx.new.types ≡ ctx.old.types }
{
    let program = ctx.program();
    program.know_lists();
    program.know_values();
    for one in made {
        put_one::<D, T>(alloc, ctx, *one)?;
    }
    Ok(())
}

/// Makes the operation of a constant. It stands in no block.
///
/// # Errors
/// `Memory`, and `CounterFull` where no number of a value is left. Each handle leads to what it led to then.
fn new_constant<D: OptDialect, T: TypeTable>(
    alloc: Global,
    ctx: &mut TypedProgram<D::Operation, D::Block, T>,
    constant: D::Constant,
) -> Result<Ptr<Operation>, OptError>
    requires maker { IsSome (D.meaning.constant constant) }
    requires known { IsKnownIn (T.type_count ctx.old.types) (D.meaning.constant_type constant) }
    ensures built { IfOk result (λ p. (content : D.Operation) × (D.meaning.constant constant ≡ Some content)
        × BuildsOperation ctx.old.program ctx.new.program p content (D.meaning.constant_type constant ∷ []) [] [] 0) }
    ensures same { OnErr result (LeadsAlike ctx.old.program ctx.new.program) }
    ensures refused { IfErr result IsShortage }
    ensures full { result ≡ Err CounterFull → 2 ^ 64 ≤ ctx.old.program.counter + 1 }
    ensures erased { KeepsErased ctx.old.program ctx.new.program }
    ensures types { ctx.new.types ≡ ctx.old.types }
{
    let Some(payload) = D::constant(alloc, constant)? else {
        unreachable!()
    };
    let ty = D::constant_type(constant);
    let made = ctx.new_operation(alloc, payload, &[ty], &[], &[], 0)?;
    Ok(made)
}

/// Puts a constant in for a value that stands at its definer, in an operation that is new there, and makes all uses of
/// the value uses of the constant.
///
/// # Errors
/// `Memory`, and `CounterFull` where no number of a value is left. Each handle leads to what it led to then.
fn put_one<D: OptDialect, T: TypeTable>(
    alloc: Global,
    ctx: &mut TypedProgram<D::Operation, D::Block, T>,
    made: Made<D::Constant>,
) -> Result<(), OptError>
    requires place { CanPutAt ctx.old.program made.value }
    requires maker { IsSome (D.meaning.constant made.constant) }
    requires known { IsKnownIn (T.type_count ctx.old.types) (D.meaning.constant_type made.constant) }
    ensures put { OnOk result (PutsMade D.meaning ctx.old.program ctx.new.program made) }
    ensures same { OnErr result (LeadsAlike ctx.old.program ctx.new.program) }
    ensures refused { IfErr result IsShortage }
    ensures numbers { OnOk result (ctx.new.program.counter ≡ ctx.old.program.counter + 1) }
    ensures full { result ≡ Err CounterFull → 2 ^ 64 ≤ ctx.old.program.counter + 1 }
    ensures erased { KeepsErased ctx.old.program ctx.new.program }
    ensures types { ctx.new.types ≡ ctx.old.types }
{
    ctx.program().know_values();
    let constant = new_constant::<D, T>(alloc, ctx, made.constant)?;
    put_at_definer(ctx, constant, made.value.definer());
    let result = constant.get_result(ctx, 0);
    made.value.replace_all_uses_with(alloc, ctx, result)?;
    Ok(())
}

/// Puts an operation without regions, which stands in no block, right before the operation that defines a value, or
/// first in the block that does.
fn put_at_definer<O, B, T: TypeTable>(
    ctx: &mut TypedProgram<O, B, T>,
    op: Ptr<Operation>,
    definer: DefiningEntity,
)
    requires place { DefinerIsPlaced ctx.old.program definer }
    requires live { IsSome (operation_at ctx.old.program op) }
    requires unlinked { IsUnlinkedOperation ctx.old.program op }
    requires bare { regions_in ctx.old.program op ≡ [] }
    requires other { definer ≢ ByOp op }
    ensures puts { PutsAtDefiner ctx.old.program ctx.new.program definer op }
    ensures values { KeepsValues ctx.old.program ctx.new.program }
    ensures types { ctx.new.types ≡ ctx.old.types }
{
    match definer {
        DefiningEntity::Op(mark) => op.insert_before(ctx, mark),
        DefiningEntity::Block(block) => op.insert_at_front(ctx, block),
    }
}
