//! Which arguments of blocks may go.
ghost use Rattle.std.specs.Prelude.{◌≡◌, ◌↔◌, ℕ, IfOk, IsSome, IsTrue, Some, length, slice_get};
ghost use Rattle.ir_program.specs.Program.{block_at};
ghost use Rattle.ir_program.specs.declared.handles.BasicBlock.{BasicBlock};
ghost use Rattle.ir_program.specs.declared.handles.Ptr.{Ptr};
ghost use Rattle.ir_program.specs.declared.handles.Value.{Value};
ghost use Rattle.opt_rows.specs.declared.dead_problem.Argument.{Argument};
ghost use Rattle.opt_inside.specs.Numbered.{numbers_of};
ghost use Rattle.opt_dce.specs.liveness.Problems.{AreBlockRows, AreThere, AreValueRows, HasBranchesOnly, IsBlockRow, TakesRow};
ghost use Rattle.ir_program.specs.declared.handles.DefiningEntity.TheVariants.{Block};
ghost use Rattle.ir_trees.specs.Searched.{Lists};

use crate::liveness::definers::around_block;
use crate::liveness::numbers::block_number;
use ir_program::{BasicBlock, DefiningEntity, Program, Ptr, Value};
use opt_dialect::{OptDialect, is_removable};
use opt_inside::Inside;
use opt_rows::Argument;
use std::alloc::{AllocError, Global};

/// Whether each edge to a block comes from a branch.
fn has_branches_only<D: OptDialect>(
    program: &Program<D::Operation, D::Block>,
    block: Ptr<BasicBlock>,
) -> bool
    requires { IsSome (block_at program.now block) }
    ensures { IsTrue result ↔ HasBranchesOnly D.meaning program.now block }
{
    for edge in program.block_uses(block) {
        if !D::is_branch(program.payload(edge.user_op())) {
            return false;
        }
    }
    true
}

/// What is to be known of each argument of a block.
fn block_row<D: OptDialect>(
    program: &Program<D::Operation, D::Block>,
    inside: &Inside,
    block: Ptr<BasicBlock>,
) -> Argument
    requires { IsSome (block_at program.now block) }
    ensures { IsBlockRow D.meaning program.now (numbers_of inside.now) block result }
{
    Argument {
        may_go: is_removable::<D>(program, block) && has_branches_only::<D>(program, block),
        around: around_block(program, inside, block),
    }
}

/// What is to be known of the arguments of each block.
fn block_rows<D: OptDialect>(
    alloc: Global,
    program: &Program<D::Operation, D::Block>,
    inside: &Inside,
) -> Result<Vec<Argument>, AllocError>
    requires { (b : Ptr BasicBlock) → Lists (numbers_of inside.now).blocks b → IsSome (block_at program.now b) }
    ensures len { IfOk result (λ rows. length rows.items ≡ length (numbers_of inside.now).blocks) }
    ensures rows { IfOk result (λ rows. AreBlockRows D.meaning program.now (numbers_of inside.now) rows.items) }
{
    let mut rows = Vec::with_capacity(alloc, inside.blocks.len())?;
    for block in inside.blocks.as_slice() {
        rows.push(block_row::<D>(program, inside, *block))?;
    }
    Ok(rows)
}

/// What is to be known of a value as an argument.
fn value_row(inside: &Inside, blocks: &[Argument], value: Value) -> Argument
    requires blocks { length blocks.now ≡ length (numbers_of inside.now).blocks }
    requires inside { (b : Ptr BasicBlock) → value.definer ≡ Block b → Lists (numbers_of inside.now).blocks b }
    ensures { TakesRow (numbers_of inside.now) blocks.now value result }
{
    match value.definer() {
        DefiningEntity::Op(_) => Argument {
            may_go: false,
            around: None,
        },
        DefiningEntity::Block(block) => match block_number(inside, block) {
            Some(number) => blocks[number],
            None => unreachable!(),
        },
    }
}

/// What is to be known of each value as an argument, by what is to be known of the arguments of each block.
fn value_rows_by(
    alloc: Global,
    inside: &Inside,
    blocks: &[Argument],
) -> Result<Vec<Argument>, AllocError>
    requires blocks { length blocks.now ≡ length (numbers_of inside.now).blocks }
    requires definers { (v : Value) (b : Ptr BasicBlock) → Lists (numbers_of inside.now).values v
        → v.definer ≡ Block b → Lists (numbers_of inside.now).blocks b }
    ensures len { IfOk result (λ rows. length rows.items ≡ length (numbers_of inside.now).values) }
    ensures rows { IfOk result (λ rows. (k : ℕ) (v : Value) (row : Argument)
        → slice_get (numbers_of inside.now).values k ≡ Some v → slice_get rows.items k ≡ Some row
        → TakesRow (numbers_of inside.now) blocks.now v row) }
{
    let mut rows = Vec::with_capacity(alloc, inside.values.len())?;
    for value in inside.values.as_slice() {
        rows.push(value_row(inside, blocks, *value))?;
    }
    Ok(rows)
}

/// What is to be known of each value as an argument.
pub(crate) fn value_rows<D: OptDialect>(
    alloc: Global,
    program: &Program<D::Operation, D::Block>,
    inside: &Inside,
) -> Result<Vec<Argument>, AllocError>
    requires { AreThere program.now (numbers_of inside.now) }
    ensures len { IfOk result (λ rows. length rows.items ≡ length (numbers_of inside.now).values) }
    ensures rows { IfOk result (λ rows. AreValueRows D.meaning program.now (numbers_of inside.now) rows.items) }
{
    let blocks = block_rows::<D>(alloc, program, inside)?;
    value_rows_by(alloc, inside, &blocks)
}
