//! The numbers in the names with which operations are printed.
ghost use Rattle.std.specs.Prelude.{IsSome};
ghost use Rattle.ir_program.specs.Lists.{IsLiveNode};
ghost use Rattle.ir_program.specs.Program.{operation_at, block_at, results_at, arguments_at};
ghost use Rattle.ir_program.specs.Rows.{operands_at};
ghost use Rattle.text_dialect.specs.Seen.{seen};
ghost use Rattle.text_rereading.specs.Numbers.{HasSmallNode, HasSmallNodes};
ghost use Rattle.text_rereading.specs.Places.{AreSmall, AreSmallInside, DefinesSmall};

use ir_context::Context;
use ir_program::{BasicBlock, IRNode, Operation, Program, Ptr};
use ir_types::DialectTables;

/// Tells that the numbers of an operation's results fit in 64 bits.
fn know_results<O, B>(program: &Program<O, B>, op: Ptr<Operation>)
    requires { IsSome (operation_at program.now op) }
    ensures { DefinesSmall (results_at program.now op) }
{
    for index in 0..program.result_count(op) {
        let _number = program.result(op, index).number();
    }
}

/// Tells that the numbers of an operation's operands fit in 64 bits.
fn know_operands<O, B>(program: &Program<O, B>, op: Ptr<Operation>)
    requires { IsSome (operation_at program.now op) }
    ensures { AreSmall (operands_at program.now op) }
{
    for index in 0..program.operand_count(op) {
        let _number = program.operand(op, index).number();
    }
}

/// Tells that the numbers of a block's arguments fit in 64 bits.
fn know_arguments<O, B>(program: &Program<O, B>, block: Ptr<BasicBlock>)
    requires { IsSome (block_at program.now block) }
    ensures { DefinesSmall (arguments_at program.now block) }
{
    for index in 0..program.argument_count(block) {
        let _number = program.argument(block, index).number();
    }
}

/// Tells that the numbers of an operation, a region or a block fit in 64 bits.
fn know_node<O, B>(program: &Program<O, B>, node: IRNode)
    requires { IsLiveNode program.now node }
    ensures { HasSmallNode program.now node }
{
    match node {
        IRNode::Operation(op) => {
            know_results(program, op);
            know_operands(program, op);
        }
        IRNode::BasicBlock(block) => {
            let _slot = block.slot();
            let _version = block.version();
            know_arguments(program, block);
        }
        IRNode::Region(_) => {}
    }
}

/// Tells that the numbers of an operation and of all that is inside it fit in 64 bits.
fn know_nodes<O, B>(program: &Program<O, B>, root: Ptr<Operation>)
    requires { IsSome (operation_at program.now root) }
    ensures { HasSmallNodes program.now root }
{
    for node in program.nodes_inside(IRNode::Operation(root)) {
        know_node(program, node);
    }
}

/// Tells that the numbers with which an operation and all that is inside it are printed fit in 64 bits, as they do in
/// every context. It goes over all that is inside, and does nothing.
pub fn know_small_numbers<D: DialectTables>(ctx: &Context<D>, root: Ptr<Operation>)
    requires { IsSome (operation_at ctx.now.program root) }
    ensures { AreSmallInside (seen ctx.now) root }
{
    let program = ctx.program();
    program.know_lists();
    know_nodes(program, root);
}
