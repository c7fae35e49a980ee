//! Which of two operations comes first in their block.
ghost use Rattle.std.specs.Prelude.{◌↔◌, IsSome, IsTrue};
ghost use Rattle.ir_queries.specs.Ancestors.{Precedes};
ghost use Rattle.ir_program.specs.Lists.{StandsInBlock};
ghost use Rattle.ir_program.specs.Program.{operation_at};

use ir_context::{TypeTable, TypedProgram};
use ir_program::{BasicBlock, Operation, Program, Ptr};

/// Whether the first of two operations of a block comes before the second.
fn comes_first<O, B>(
    program: &Program<O, B>,
    block: Ptr<BasicBlock>,
    a: Ptr<Operation>,
    b: Ptr<Operation>,
) -> bool
    requires a { StandsInBlock program.now a block }
    requires b { StandsInBlock program.now b block }
    ensures { IsTrue result ↔ Precedes program.now a b }
{
    program.know_lists();
    for op in program.operations(block) {
        if op == b {
            return false;
        }
        if op == a {
            return true;
        }
    }
    unreachable!()
}

/// Whether two operations stand in one block, `a` before `b`.
fn precedes<O, B>(program: &Program<O, B>, a: Ptr<Operation>, b: Ptr<Operation>) -> bool
    requires a { IsSome (operation_at program.now a) }
    requires b { IsSome (operation_at program.now b) }
    ensures { IsTrue result ↔ Precedes program.now a b }
{
    program.know_lists();
    let Some(block) = program.parent_block(a) else {
        return false;
    };
    if program.parent_block(b) != Some(block) {
        return false;
    }
    comes_first(program, block, a, b)
}

/// Whether both operations stand in one block, `a` before `b`. It goes over the block's operations up to the first of
/// the two.
pub fn strictly_precedes_in_block<O, B, T: TypeTable>(
    ctx: &TypedProgram<O, B, T>,
    a: Ptr<Operation>,
    b: Ptr<Operation>,
) -> bool
    requires a { IsSome (operation_at ctx.now.program a) }
    requires b { IsSome (operation_at ctx.now.program b) }
    ensures { IsTrue result ↔ Precedes ctx.now.program a b }
{
    precedes(ctx.program(), a, b)
}
