//! The one block of an operation that has one region with one block.
ghost use Rattle.std.specs.Prelude.{IsSome, IfSome, MatchOption};
ghost use Rattle.ir_program.specs.Program.{operation_at, block_at};
ghost use Rattle.ir_symbols.specs.Symbols.{HasBody, HasOneBlock};

use ir_context::{TypeTable, TypedProgram};
use ir_program::{BasicBlock, Operation, Program, Ptr};

/// The block of an operation that has one region with one block; `None` for any other operation.
pub(crate) fn body_of<O, B>(program: &Program<O, B>, op: Ptr<Operation>) -> Option<Ptr<BasicBlock>>
    requires { IsSome (operation_at program.now op) }
    ensures body { MatchOption result (HasOneBlock program.now op → ⊥) (HasBody program.now op) }
    ensures live { IfSome result (λ body. IsSome (block_at program.now body)) }
{
    if program.region_count(op) != 1 {
        return None;
    }
    let region = program.region(op, 0)?;
    let block = program.first_block(region)?;
    if program.next_block(block).is_some() {
        return None;
    }
    Some(block)
}

/// The block of an operation that has one region with one block; `None` for any other operation. So it tests what
/// symbol tables ask of the shape of an operation.
pub fn single_block<O, B, T: TypeTable>(
    ctx: &TypedProgram<O, B, T>,
    op: Ptr<Operation>,
) -> Option<Ptr<BasicBlock>>
    requires { IsSome (operation_at ctx.now.program op) }
    ensures body { MatchOption result (HasOneBlock ctx.now.program op → ⊥) (HasBody ctx.now.program op) }
    ensures live { IfSome result (λ body. IsSome (block_at ctx.now.program body)) }
{
    body_of(ctx.program(), op)
}
