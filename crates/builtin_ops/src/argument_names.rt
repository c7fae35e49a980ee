//! The names of a block's arguments.
ghost use Rattle.std.specs.Prelude.{◌≡◌, ◌<◌, ◌≤◌, ℕ, IsSome, List, Option, OnErr, OnOk, Some, insert, length, option_map, slice_set};
ghost use Rattle.ir_names.specs.Identifier.{text_of};
ghost use Rattle.ir_program.specs.Edits.{EditsBlock, KeepsValues};
ghost use Rattle.ir_program.specs.Program.{argument_count, block_at};
ghost use Rattle.ir_program.specs.declared.handles.DefiningEntity.TheVariants.{Block};
ghost use Rattle.ir_queries.specs.Naming.{attributes_of, name_at, names_under};
ghost use Rattle.builtin_ops.specs.Names.{ChangesBlockAttributes, HoldNames, LoseName, held_names, names_or_none};

use crate::NameLists;
use crate::name_lists::{count_names, insert_name, lose_name, name_in, set_name};
use ir_context::{ArgumentCalls, BlockCalls, BlockNotes, Context};
use ir_names::Identifier;
use ir_program::{BasicBlock, Ptr};
use ir_types::DialectTables;
use std::alloc::{AllocError, Global};

/// `set_name` on what a block carries.
fn set_carried<D: NameLists>(
    alloc: Global,
    notes: &mut BlockNotes<D>,
    count: usize,
    i: usize,
    name: Option<Identifier>,
) -> Result<(), AllocError>
    requires { i < length (names_or_none D.names D.names_in notes.old.attributes count) }
    ensures hold { OnOk result (HoldNames D.names D.names_in notes.old.attributes notes.new.attributes
        (slice_set (names_or_none D.names D.names_in notes.old.attributes count) i
        (option_map text_of name))) }
    ensures rest { notes.new ≡ record notes.old { attributes = notes.new.attributes } }
    ensures err { OnErr result (notes.new ≡ notes.old) }
{
    set_name(alloc, &mut notes.attributes, count, i, name)
}

/// `insert_name` on what a block carries.
fn insert_carried<D: NameLists>(
    alloc: Global,
    notes: &mut BlockNotes<D>,
    count: usize,
    i: usize,
    name: Option<Identifier>,
) -> Result<(), AllocError>
    requires { i ≤ length (names_or_none D.names D.names_in notes.old.attributes count) }
    ensures hold { OnOk result (HoldNames D.names D.names_in notes.old.attributes notes.new.attributes
        (insert (names_or_none D.names D.names_in notes.old.attributes count) i (option_map text_of name))) }
    ensures rest { notes.new ≡ record notes.old { attributes = notes.new.attributes } }
    ensures err { OnErr result (notes.new ≡ notes.old) }
{
    insert_name(alloc, &mut notes.attributes, count, i, name)
}

/// `lose_name` on what a block carries.
fn lose_carried<D: NameLists>(alloc: Global, notes: &mut BlockNotes<D>, i: usize)
    requires { (names : List (Option (List ℕ))) → held_names D.names D.names_in notes.old.attributes ≡ Some names
        → i < length names }
    ensures lose { LoseName D.names D.names_in notes.old.attributes notes.new.attributes i }
    ensures rest { notes.new ≡ record notes.old { attributes = notes.new.attributes } }
{
    lose_name(alloc, &mut notes.attributes, i);
}

/// How many members the list of names of a block has: where it has no list, as many as it has arguments. The calls below
/// ask for an index below it, or up to it where a name is put in.
pub fn get_num_block_argument_names<D: DialectTables>(
    block: Ptr<BasicBlock>,
    ctx: &Context<D>,
) -> usize
    requires { IsSome (block_at ctx.now.program block) }
    ensures all { result ≡ length (names_or_none D.names D.names_in (attributes_of ctx.now.program (Block block))
        (argument_count ctx.now.program block)) }
    ensures held { (names : List (Option (List ℕ)))
        → held_names D.names D.names_in (attributes_of ctx.now.program (Block block)) ≡ Some names → result ≡ length names }
{
    count_names(&block.deref(ctx).attributes, block.get_num_arguments(ctx))
}

/// The name that the argument at an index was given, if it was given one.
pub fn get_block_argument_name<D: DialectTables>(
    block: Ptr<BasicBlock>,
    ctx: &Context<D>,
    i: usize,
) -> Option<&Identifier>
    requires { IsSome (block_at ctx.now.program block) }
    ensures { option_map (λ name. text_of name.now) result
        ≡ name_at (names_under D.names D.names_in (attributes_of ctx.now.program (Block block))) i }
{
    name_in(&block.deref(ctx).attributes, i)
}

/// Gives the argument at an index this name, in place of the one that it had, or takes its name away. Where the block has no
/// list of names, it gets one with as many members as it has arguments.
///
/// # Errors
/// There may be no memory. The block is as it was then.
pub fn set_block_argument_name<D: NameLists>(
    alloc: Global,
    block: Ptr<BasicBlock>,
    ctx: &mut Context<D>,
    i: usize,
    name: Option<Identifier>,
) -> Result<(), AllocError>
    requires block { IsSome (block_at ctx.old.program block) }
    requires within { i < length (names_or_none D.names D.names_in (attributes_of ctx.old.program (Block block))
        (argument_count ctx.old.program block)) }
    ensures named { OnOk result (ChangesBlockAttributes ctx.old.program ctx.new.program block
        (λ old new. HoldNames D.names D.names_in old new
        (slice_set (names_or_none D.names D.names_in old (argument_count ctx.old.program block)) i
        (option_map text_of name)))) }
    ensures err { OnErr result (EditsBlock ctx.old.program ctx.new.program block (λ b. b)) }
    ensures values { KeepsValues ctx.old.program ctx.new.program }
    ensures types { ctx.new.types ≡ ctx.old.types }
{
    let count = block.get_num_arguments(ctx);
    set_carried(alloc, ctx.block_payload_mut(block), count, i, name)?;
    Ok(())
}

/// Puts one name more into the block's list of names, at an index: that of an argument which came there. Where the block has
/// no list of names, it gets one with as many members as it has arguments before.
///
/// # Errors
/// There may be no memory. The block is as it was then.
pub fn insert_block_argument_name<D: NameLists>(
    alloc: Global,
    block: Ptr<BasicBlock>,
    ctx: &mut Context<D>,
    i: usize,
    name: Option<Identifier>,
) -> Result<(), AllocError>
    requires block { IsSome (block_at ctx.old.program block) }
    requires within { i ≤ length (names_or_none D.names D.names_in (attributes_of ctx.old.program (Block block))
        (argument_count ctx.old.program block)) }
    ensures named { OnOk result (ChangesBlockAttributes ctx.old.program ctx.new.program block
        (λ old new. HoldNames D.names D.names_in old new
        (insert (names_or_none D.names D.names_in old (argument_count ctx.old.program block)) i (option_map text_of name)))) }
    ensures err { OnErr result (EditsBlock ctx.old.program ctx.new.program block (λ b. b)) }
    ensures values { KeepsValues ctx.old.program ctx.new.program }
    ensures types { ctx.new.types ≡ ctx.old.types }
{
    let count = block.get_num_arguments(ctx);
    insert_carried(alloc, ctx.block_payload_mut(block), count, i, name)?;
    Ok(())
}

/// Takes the name at an index out of the block's list of names. Where it has none, nothing changes. No memory is asked
/// for.
pub fn remove_block_argument_name<D: NameLists>(
    block: Ptr<BasicBlock>,
    ctx: &mut Context<D>,
    i: usize,
)
    requires block { IsSome (block_at ctx.old.program block) }
    requires within { (names : List (Option (List ℕ)))
        → held_names D.names D.names_in (attributes_of ctx.old.program (Block block)) ≡ Some names → i < length names }
    ensures lost { ChangesBlockAttributes ctx.old.program ctx.new.program block
        (λ old new. LoseName D.names D.names_in old new i) }
    ensures values { KeepsValues ctx.old.program ctx.new.program }
    ensures types { ctx.new.types ≡ ctx.old.types }
{
    let alloc = ctx.allocator();
    lose_carried(alloc, ctx.block_payload_mut(block), i);
}
