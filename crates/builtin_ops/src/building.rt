//! Making an operation together with a block in it.
ghost use Rattle.std.specs.Prelude.{◌≡◌, ◌≤◌, ◌+◌, ◌∷◌, [], ◌^◌, Err, IsSome, IfOk, OnErr, length};
ghost use Rattle.ir_base.specs.declared.growth.GrowError.TheVariants.{CounterFull};
ghost use Rattle.ir_program.specs.Edits.{IsUnchanged, KeepsValues};
ghost use Rattle.ir_program.specs.ListEdits.{PutsBlockLast};
ghost use Rattle.ir_program.specs.Lists.{IsUnlinkedBlock, IsUnlinkedOperation, operations_in, regions_in};
ghost use Rattle.ir_program.specs.Made.{HasBareRegions, TakesBackOperation};
ghost use Rattle.ir_program.specs.Program.{block_at, operation_at, region_at, results_at, type_at};
ghost use Rattle.ir_program.specs.declared.handles.Ptr.{Ptr};
ghost use Rattle.ir_program.specs.declared.handles.Region.{Region};
ghost use Rattle.ir_program.specs.declared.handles.Value.{Value};
ghost use Rattle.ir_context.specs.Known.{AreKnownIn};
ghost use Rattle.builtin_ops.specs.Built.{BuildsWithBlock};

use ir_context::{BlockLists, OperationCalls, OperationErasing, TypeTable, TypedProgram};
use ir_names::{GrowError, TypeHandle};
use ir_program::{BasicBlock, Operation, Ptr};
use std::alloc::Global;

/// Puts a block that stands in no region and has no operation behind the blocks of an operation's only region.
fn put_in<O, B, T: TypeTable>(
    ctx: &mut TypedProgram<O, B, T>,
    op: Ptr<Operation>,
    block: Ptr<BasicBlock>,
)
    requires operation { IsSome (operation_at ctx.old.program op) }
    requires region { length (regions_in ctx.old.program op) ≡ 1 }
    requires block { IsSome (block_at ctx.old.program block) }
    requires unlinked { IsUnlinkedBlock ctx.old.program block }
    requires empty { operations_in ctx.old.program block ≡ [] }
    ensures edited { (region : Ptr Region) → regions_in ctx.old.program op ≡ region ∷ []
        → PutsBlockLast ctx.old.program ctx.new.program region block }
    ensures values { KeepsValues ctx.old.program ctx.new.program }
    ensures types { ctx.new.types ≡ ctx.old.types }
{
    let region = op.get_region(ctx, 0);
    block.insert_at_back(ctx, region);
}

/// Takes an operation back that stands in no block, has no results, and has no block in its regions. No memory is asked for.
fn take_back<O: Drop, B: Drop, T: TypeTable>(ctx: &mut TypedProgram<O, B, T>, op: Ptr<Operation>)
    requires operation { IsSome (operation_at ctx.old.program op) }
    requires unlinked { IsUnlinkedOperation ctx.old.program op }
    requires bare { HasBareRegions ctx.old.program op }
    requires results { results_at ctx.old.program op ≡ [] }
    ensures taken { TakesBackOperation ctx.old.program ctx.new.program op ctx.old.program.counter }
    ensures types { ctx.new.types ≡ ctx.old.types }
{
    // So no operation takes a value of this one, which defines none.
    ctx.program().know_values();
    op.erase(ctx);
}

/// Makes an operation that stands in no block, with this payload and one region with one block; that has this payload,
/// arguments of these types, and no operation.
///
/// # Errors
/// `Memory`, and `CounterFull` where there are not so many numbers left for values. Each handle leads to what it led to
/// then.
pub(crate) fn build_with_block<O: Drop, B: Drop, T: TypeTable>(
    alloc: Global,
    ctx: &mut TypedProgram<O, B, T>,
    payload: O,
    block_payload: B,
    arguments: &[TypeHandle],
) -> Result<Ptr<Operation>, GrowError>
    requires { AreKnownIn (T.type_count ctx.old.types) arguments.now }
    ensures built { IfOk result (λ p. BuildsWithBlock ctx.old.program ctx.new.program p payload block_payload
        arguments.now) }
    ensures err { OnErr result (IsUnchanged ctx.old.program ctx.new.program) }
    ensures err_values { OnErr result ((v : Value) → type_at ctx.new.program v ≡ type_at ctx.old.program v) }
    ensures full { result ≡ Err CounterFull → 2 ^ 64 ≤ ctx.old.program.counter + length arguments.now }
    ensures types { ctx.new.types ≡ ctx.old.types }
{
    let op = ctx.new_operation(alloc, payload, &[], &[], &[], 1)?;
    match ctx.new_block(alloc, block_payload, arguments) {
        Ok(block) => {
            put_in(ctx, op, block);
            Ok(op)
        }
        Err(error) => {
            take_back(ctx, op);
            Err(error)
        }
    }
}
