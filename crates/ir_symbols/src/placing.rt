//! Where an operation can be put in a symbol table's block.
ghost use Rattle.std.specs.Prelude.{◌≡◌, ◌↔◌, IsSome, IsTrue};
ghost use Rattle.ir_program.specs.Edits.{KeepsValues};
ghost use Rattle.ir_program.specs.Lists.{StandsInBlock};
ghost use Rattle.ir_program.specs.Program.{operation_at, block_at};
ghost use Rattle.ir_symbols.specs.Insertions.{CanStandIn, HasPlace, IsMark, PutsSymbol};

use ir_context::{OperationLists, TypeTable, TypedProgram};
use ir_program::{BasicBlock, IRNode, Operation, Program, Ptr};

/// Whether an operation is one of a block's, or is of no block and isn't around this one.
pub(crate) fn can_stand_in<O, B>(
    program: &Program<O, B>,
    body: Ptr<BasicBlock>,
    op: Ptr<Operation>,
) -> bool
    requires block { IsSome (block_at program.now body) }
    requires op { IsSome (operation_at program.now op) }
    ensures { IsTrue result ↔ CanStandIn program.now body op }
{
    match program.parent_block(op) {
        Some(block) => block == body,
        None => !program.is_inside(IRNode::BasicBlock(body), IRNode::Operation(op)),
    }
}

/// Whether an operation is one of a block's.
fn is_in_block<O, B>(program: &Program<O, B>, body: Ptr<BasicBlock>, op: Ptr<Operation>) -> bool
    ensures { IsTrue result ↔ StandsInBlock program.now op body }
{
    program.has_operation(op) && program.parent_block(op) == Some(body)
}

/// Whether the mark, if there is one, is another operation of the block.
pub(crate) fn is_mark<O, B>(
    program: &Program<O, B>,
    body: Ptr<BasicBlock>,
    op: Ptr<Operation>,
    before: Option<Ptr<Operation>>,
) -> bool
    ensures { IsTrue result ↔ IsMark program.now body op before }
{
    match before {
        Some(mark) => mark != op && is_in_block(program, body, mark),
        None => true,
    }
}

/// Puts an operation of no block before the mark, or at the end of the block. One of this block stays where it is.
pub(crate) fn put<O, B, T: TypeTable>(
    ctx: &mut TypedProgram<O, B, T>,
    body: Ptr<BasicBlock>,
    op: Ptr<Operation>,
    before: Option<Ptr<Operation>>,
)
    requires block { IsSome (block_at ctx.old.program body) }
    requires op { IsSome (operation_at ctx.old.program op) }
    requires place { HasPlace ctx.old.program body op before }
    ensures put { PutsSymbol ctx.old.program ctx.new.program body op before }
    ensures values { KeepsValues ctx.old.program ctx.new.program }
    ensures types { ctx.new.types ≡ ctx.old.types }
{
    ctx.program().know_lists();
    if op.is_linked(ctx) {
        return;
    }
    match before {
        Some(mark) => op.insert_before(ctx, mark),
        None => op.insert_at_back(ctx, body),
    }
}
