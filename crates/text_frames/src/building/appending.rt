//! Operations that get their place in a block.
ghost use Rattle.std.specs.Prelude.{◌≡◌};
ghost use Rattle.text_dialect.specs.Seen.{seen};
ghost use Rattle.text_frames.specs.building.Kept.{GivesNumbers};
ghost use Rattle.text_frames.specs.building.Loose.{IsLooseBlock, IsLooseOperation};
ghost use Rattle.text_frames.specs.building.Made.{AppendsOperation};

use ir_context::{Context, OperationLists};
use ir_program::{BasicBlock, Operation, Ptr};
use ir_types::DialectTables;

/// Puts an operation that is in no block behind the operations of a block that is in no region. It asks for no memory.
pub fn append_operation<D: DialectTables>(
    ctx: &mut Context<D>,
    block: Ptr<BasicBlock>,
    op: Ptr<Operation>,
)
    requires block { IsLooseBlock (seen ctx.old) block }
    requires op { IsLooseOperation (seen ctx.old) op }
    ensures appended { AppendsOperation (seen ctx.old) (seen ctx.new) block op }
    ensures numbers { GivesNumbers ctx.old.program ctx.new.program 0 }
    ensures types { ctx.new.types ≡ ctx.old.types }
{
    op.insert_at_back(ctx, block);
}
