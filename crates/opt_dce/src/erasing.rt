//! Taking operations out with all that is in them.
ghost use Rattle.std.specs.Prelude.{◌≡◌, ◌⊎◌, true, IsSome};
ghost use Rattle.ir_program.specs.Erased.{IsApart};
ghost use Rattle.ir_program.specs.Lists.{IsLinkedOperation, IsLiveNode};
ghost use Rattle.ir_program.specs.Program.{operation_at};
ghost use Rattle.ir_program.specs.declared.handles.IRNode.TheVariants.{Operation as OperationNode};
ghost use Rattle.ir_program.specs.declared.handles.Operation.{Operation};
ghost use Rattle.ir_program.specs.declared.handles.Ptr.{Ptr};
ghost use Rattle.ir_trees.specs.ListRewrites.{is_among};
ghost use Rattle.ir_trees.specs.Searched.{AreDistinct};
ghost use Rattle.opt_dce.specs.Steps.{DecidesInside, DetachesPicked, DropsPicked, ErasesIfThere, ErasesPicked, NamesNone};

use ir_context::{OperationErasing, OperationLists, TypeTable, TypedProgram};
use ir_program::{IRNode, Operation, Program, Ptr};

/// Tells that each operation, block and region is inside an operation or isn't. It does nothing.
fn know_inside<O, B>(program: &Program<O, B>, op: Ptr<Operation>)
    requires { IsSome (operation_at program.now op) }
    ensures { DecidesInside program.now op }
{
    let _inside = program.nodes_inside(IRNode::Operation(op));
}

/// Takes these operations out of the blocks that they stand in, so that none of them stands in another.
pub(crate) fn detach_all<O, B, T: TypeTable>(
    ctx: &mut TypedProgram<O, B, T>,
    ops: &[Ptr<Operation>],
)
    requires linked { (p : Ptr Operation) → is_among ops.now p ≡ true → IsLinkedOperation ctx.old.program p }
    requires once { AreDistinct ops.now }
    ensures detached { DetachesPicked ctx.old.program ctx.new.program (is_among ops.now) }
    ensures numbers { ctx.new.program.counter ≡ ctx.old.program.counter }
    ensures types { ctx.new.types ≡ ctx.old.types }
{
    for op in ops {
        ctx.program().know_lists();
        op.unlink(ctx);
    }
}

/// Takes all operands and successors of these operations, and of all in them, away. No memory is asked for.
pub(crate) fn drop_uses<O, B, T: TypeTable>(ctx: &mut TypedProgram<O, B, T>, ops: &[Ptr<Operation>])
    requires { (p : Ptr Operation) → is_among ops.now p ≡ true → IsLiveNode ctx.old.program (OperationNode p) }
    ensures dropped { DropsPicked ctx.old.program ctx.new.program (is_among ops.now) }
    ensures numbers { ctx.new.program.counter ≡ ctx.old.program.counter }
    ensures types { ctx.new.types ≡ ctx.old.types }
{
    for op in ops {
        know_inside(ctx.program(), *op);
        op.drop_all_uses(ctx);
    }
}

/// Erases an operation with all that is in it, unless it has gone with another.
fn erase_one<O: Drop, B: Drop, T: TypeTable>(ctx: &mut TypedProgram<O, B, T>, op: Ptr<Operation>)
    requires { IsLiveNode ctx.old.program (OperationNode op) → IsApart ctx.old.program (OperationNode op) }
    ensures erased { ErasesIfThere ctx.old.program ctx.new.program op }
    ensures numbers { ctx.new.program.counter ≡ ctx.old.program.counter }
    ensures types { ctx.new.types ≡ ctx.old.types }
{
    if ctx.program().has_operation(op) {
        know_inside(ctx.program(), op);
        op.erase(ctx);
    }
}

/// Erases these operations with all that is in them; some may stand in others. No memory is asked for.
pub(crate) fn erase_all<O: Drop, B: Drop, T: TypeTable>(
    ctx: &mut TypedProgram<O, B, T>,
    ops: &[Ptr<Operation>],
)
    requires there { (p : Ptr Operation) → is_among ops.now p ≡ true → IsLiveNode ctx.old.program (OperationNode p) }
    requires unnamed { NamesNone ctx.old.program (is_among ops.now) }
    ensures erased { ErasesPicked ctx.old.program ctx.new.program (is_among ops.now) }
    ensures numbers { ctx.new.program.counter ≡ ctx.old.program.counter }
    ensures types { ctx.new.types ≡ ctx.old.types }
{
    ctx.program().know_lists();
    for op in ops {
        ctx.program().know_lists();
        erase_one(ctx, *op);
    }
}
