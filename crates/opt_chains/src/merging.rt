//! Joining blocks behind others.
ghost use Rattle.std.specs.Prelude.{◌≡◌};
ghost use Rattle.opt_chains.specs.Merging.{AreJoins, HasJoined, IsReadyToJoin, JoinsBlocks, TakesNoArgument};
ghost use Rattle.opt_chains.specs.declared.merging.Join.{Join};
ghost use Rattle.ir_trees.specs.Searched.{Lists};

use ir_context::{BlockErasing, ContainsOperations, OperationErasing, TypeTable, TypedProgram};
use ir_program::{BasicBlock, Operation, Ptr};

/// A block that is joined into another.
#[derive(Clone, Copy)]
pub struct Join {
    /// The block that it is joined into: the first of its chain.
    pub first: Ptr<BasicBlock>,
    /// The branch to it, at the end of the block before it in the chain.
    pub branch: Ptr<Operation>,
    /// The block.
    pub block: Ptr<BasicBlock>,
}

/// Puts the operations of a block behind those of another, in place of its branch, and erases the branch and the block. No
/// memory is asked for.
fn join_blocks<O: Drop, B: Drop, T: TypeTable>(ctx: &mut TypedProgram<O, B, T>, join: Join)
    requires ready { IsReadyToJoin ctx.old.program join }
    ensures joined { JoinsBlocks ctx.old.program ctx.new.program join }
    ensures numbers { ctx.new.program.counter ≡ ctx.old.program.counter }
    ensures types { ctx.new.types ≡ ctx.old.types }
{
    ctx.program().know_lists();
    ctx.program().know_values();
    join.branch.erase(ctx);
    ctx.program().know_lists();
    join.first.append_linked_list(ctx, join.block);
    join.block.erase(ctx);
}

/// Takes these steps one after the other. No memory is asked for; the time is linear in what moves.
pub(crate) fn join_all<O: Drop, B: Drop, T: TypeTable>(
    ctx: &mut TypedProgram<O, B, T>,
    joins: &[Join],
)
    requires can { AreJoins ctx.old.program joins.now }
    requires unused { (j : Join) → Lists joins.now j → TakesNoArgument ctx.old.program j.block }
    ensures joined { HasJoined ctx.old.program ctx.new.program joins.now }
    ensures numbers { ctx.new.program.counter ≡ ctx.old.program.counter }
    ensures types { ctx.new.types ≡ ctx.old.types }
{
    for join in joins {
        ctx.program().know_lists();
        join_blocks(ctx, *join);
    }
}
