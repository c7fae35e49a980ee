//! The names of an operation's results.
ghost use Rattle.std.specs.Prelude.{◌≡◌, ◌<◌, ◌≤◌, ℕ, IsSome, List, Option, OnErr, OnOk, Some, insert, length, option_map, slice_set};
ghost use Rattle.ir_names.specs.Identifier.{text_of};
ghost use Rattle.ir_program.specs.Edits.{EditsOperation, KeepsValues};
ghost use Rattle.ir_program.specs.Program.{operation_at, result_count};
ghost use Rattle.ir_program.specs.declared.handles.DefiningEntity.TheVariants.{Op};
ghost use Rattle.ir_queries.specs.Naming.{attributes_of, name_at, names_under};
ghost use Rattle.builtin_ops.specs.Names.{ChangesAttributes, HoldNames, LoseName, held_names, names_or_none};

use crate::NameLists;
use crate::name_lists::{count_names, insert_name, lose_name, name_in, set_name};
use ir_context::{Context, OperationCalls, OperationData, ResultCalls};
use ir_names::Identifier;
use ir_program::{Operation, Ptr};
use ir_types::DialectTables;
use std::alloc::{AllocError, Global};

/// `set_name` on what an operation carries.
fn set_carried<D: NameLists>(
    alloc: Global,
    payload: &mut OperationData<D>,
    count: usize,
    i: usize,
    name: Option<Identifier>,
) -> Result<(), AllocError>
    requires { i < length (names_or_none D.names D.names_in payload.old.notes.attributes count) }
    ensures hold { OnOk result (HoldNames D.names D.names_in payload.old.notes.attributes payload.new.notes.attributes
        (slice_set (names_or_none D.names D.names_in payload.old.notes.attributes count) i
        (option_map text_of name))) }
    ensures rest { payload.new ≡ record payload.old {
      notes = record payload.old.notes { attributes = payload.new.notes.attributes };
    } }
    ensures err { OnErr result (payload.new ≡ payload.old) }
{
    set_name(alloc, &mut payload.notes.attributes, count, i, name)
}

/// `insert_name` on what an operation carries.
fn insert_carried<D: NameLists>(
    alloc: Global,
    payload: &mut OperationData<D>,
    count: usize,
    i: usize,
    name: Option<Identifier>,
) -> Result<(), AllocError>
    requires { i ≤ length (names_or_none D.names D.names_in payload.old.notes.attributes count) }
    ensures hold { OnOk result (HoldNames D.names D.names_in payload.old.notes.attributes payload.new.notes.attributes
        (insert (names_or_none D.names D.names_in payload.old.notes.attributes count) i (option_map text_of name))) }
    ensures rest { payload.new ≡ record payload.old {
      notes = record payload.old.notes { attributes = payload.new.notes.attributes };
    } }
    ensures err { OnErr result (payload.new ≡ payload.old) }
{
    insert_name(alloc, &mut payload.notes.attributes, count, i, name)
}

/// `lose_name` on what an operation carries.
fn lose_carried<D: NameLists>(alloc: Global, payload: &mut OperationData<D>, i: usize)
    requires { (names : List (Option (List ℕ))) → held_names D.names D.names_in payload.old.notes.attributes ≡ Some names
        → i < length names }
    ensures lose { LoseName D.names D.names_in payload.old.notes.attributes payload.new.notes.attributes i }
    ensures rest { payload.new ≡ record payload.old {
      notes = record payload.old.notes { attributes = payload.new.notes.attributes };
    } }
{
    lose_name(alloc, &mut payload.notes.attributes, i);
}

/// How many members the list of names of an operation has: where it has no list, as many as it has results. The calls below
/// ask for an index below it, or up to it where a name is put in.
pub fn get_num_operation_result_names<D: DialectTables>(
    op: Ptr<Operation>,
    ctx: &Context<D>,
) -> usize
    requires { IsSome (operation_at ctx.now.program op) }
    ensures all { result ≡ length (names_or_none D.names D.names_in (attributes_of ctx.now.program (Op op))
        (result_count ctx.now.program op)) }
    ensures held { (names : List (Option (List ℕ)))
        → held_names D.names D.names_in (attributes_of ctx.now.program (Op op)) ≡ Some names → result ≡ length names }
{
    count_names(&op.deref(ctx).attributes, op.get_num_results(ctx))
}

/// The name that the result at an index was given, if it was given one.
pub fn get_operation_result_name<D: DialectTables>(
    op: Ptr<Operation>,
    ctx: &Context<D>,
    i: usize,
) -> Option<&Identifier>
    requires { IsSome (operation_at ctx.now.program op) }
    ensures { option_map (λ name. text_of name.now) result
        ≡ name_at (names_under D.names D.names_in (attributes_of ctx.now.program (Op op))) i }
{
    name_in(&op.deref(ctx).attributes, i)
}

/// Gives the result at an index this name, in place of the one that it had, or takes its name away. Where the operation has
/// no list of names, it gets one with as many members as it has results.
///
/// # Errors
/// There may be no memory. The operation is as it was then.
pub fn set_operation_result_name<D: NameLists>(
    alloc: Global,
    op: Ptr<Operation>,
    ctx: &mut Context<D>,
    i: usize,
    name: Option<Identifier>,
) -> Result<(), AllocError>
    requires operation { IsSome (operation_at ctx.old.program op) }
    requires within { i < length (names_or_none D.names D.names_in (attributes_of ctx.old.program (Op op))
        (result_count ctx.old.program op)) }
    ensures named { OnOk result (ChangesAttributes ctx.old.program ctx.new.program op
        (λ old new. HoldNames D.names D.names_in old new
        (slice_set (names_or_none D.names D.names_in old (result_count ctx.old.program op)) i
        (option_map text_of name)))) }
    ensures err { OnErr result (EditsOperation ctx.old.program ctx.new.program op (λ o. o)) }
    ensures values { KeepsValues ctx.old.program ctx.new.program }
    ensures types { ctx.new.types ≡ ctx.old.types }
{
    let count = op.get_num_results(ctx);
    set_carried(alloc, ctx.payload_mut(op), count, i, name)?;
    Ok(())
}

/// Puts one name more into the operation's list of names, at an index: that of a result which came there. Where the
/// operation has no list of names, it gets one with as many members as it has results before.
///
/// # Errors
/// There may be no memory. The operation is as it was then.
pub fn insert_operation_result_name<D: NameLists>(
    alloc: Global,
    op: Ptr<Operation>,
    ctx: &mut Context<D>,
    i: usize,
    name: Option<Identifier>,
) -> Result<(), AllocError>
    requires operation { IsSome (operation_at ctx.old.program op) }
    requires within { i ≤ length (names_or_none D.names D.names_in (attributes_of ctx.old.program (Op op))
        (result_count ctx.old.program op)) }
    ensures named { OnOk result (ChangesAttributes ctx.old.program ctx.new.program op
        (λ old new. HoldNames D.names D.names_in old new
        (insert (names_or_none D.names D.names_in old (result_count ctx.old.program op)) i (option_map text_of name)))) }
    ensures err { OnErr result (EditsOperation ctx.old.program ctx.new.program op (λ o. o)) }
    ensures values { KeepsValues ctx.old.program ctx.new.program }
    ensures types { ctx.new.types ≡ ctx.old.types }
{
    let count = op.get_num_results(ctx);
    insert_carried(alloc, ctx.payload_mut(op), count, i, name)?;
    Ok(())
}

/// Takes the name at an index out of the operation's list of names. Where it has none, nothing changes. No memory is asked
/// for.
pub fn remove_operation_result_name<D: NameLists>(
    op: Ptr<Operation>,
    ctx: &mut Context<D>,
    i: usize,
)
    requires operation { IsSome (operation_at ctx.old.program op) }
    requires within { (names : List (Option (List ℕ)))
        → held_names D.names D.names_in (attributes_of ctx.old.program (Op op)) ≡ Some names → i < length names }
    ensures lost { ChangesAttributes ctx.old.program ctx.new.program op
        (λ old new. LoseName D.names D.names_in old new i) }
    ensures values { KeepsValues ctx.old.program ctx.new.program }
    ensures types { ctx.new.types ≡ ctx.old.types }
{
    let alloc = ctx.allocator();
    lose_carried(alloc, ctx.payload_mut(op), i);
}
