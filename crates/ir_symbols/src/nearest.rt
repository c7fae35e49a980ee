//! The nearest symbol table around an operation, and look-ups in it. No memory is asked for.
ghost use Rattle.std.specs.Prelude.{IsSome, IfSome};
ghost use Rattle.ir_program.specs.Program.{operation_at};
ghost use Rattle.ir_program.specs.declared.handles.IRNode.TheVariants.{Operation as OperationNode};
ghost use Rattle.ir_queries.specs.Ancestors.{AnswersNearest};
ghost use Rattle.ir_symbols.specs.Lookups.{IsFoundIn, IsFoundInNearest};
ghost use Rattle.ir_symbols.specs.Symbols.{IsTable};

use crate::bodies::body_of;
use crate::payload::SymbolPayload;
use crate::scanning::{is_table, scan_block};
use ir_context::{TypeTable, TypedProgram};
use ir_program::{IRNode, Operation, Program, Ptr};

/// The first of an operation and the operations that hold it, from the inside out, that holds a symbol table.
fn nearest_table<O: SymbolPayload, B>(
    program: &Program<O, B>,
    op: Ptr<Operation>,
) -> Option<Ptr<Operation>>
    requires { IsSome (operation_at program.now op) }
    ensures nearest { AnswersNearest OperationNode program.now (OperationNode op)
        (IsTable O.holds_table program.now) result }
    ensures live { IfSome result (λ table. IsSome (operation_at program.now table)) }
{
    for node in program.nodes_around(IRNode::Operation(op)) {
        if let IRNode::Operation(holder) = node {
            if is_table(program, holder) {
                return Some(holder);
            }
        }
    }
    None
}

/// The operation itself where it holds a symbol table, else the nearest of the operations that hold it that does; `None`
/// where none does.
pub fn nearest_symbol_table<O: SymbolPayload, B, T: TypeTable>(
    ctx: &TypedProgram<O, B, T>,
    op: Ptr<Operation>,
) -> Option<Ptr<Operation>>
    requires { IsSome (operation_at ctx.now.program op) }
    ensures nearest { AnswersNearest OperationNode ctx.now.program (OperationNode op)
        (IsTable O.holds_table ctx.now.program) result }
    ensures live { IfSome result (λ table. IsSome (operation_at ctx.now.program table)) }
{
    nearest_table(ctx.program(), op)
}

/// The first operation with a name in an operation's one block; `None` where it hasn't one region with one block.
fn found_in<O: SymbolPayload, B>(
    program: &Program<O, B>,
    table: Ptr<Operation>,
    name: &str,
) -> Option<Ptr<Operation>>
    requires { IsSome (operation_at program.now table) }
    ensures { IsFoundIn O.name_in program.now table name.now result }
{
    match body_of(program, table) {
        Some(body) => scan_block(program, body, name),
        None => None,
    }
}

/// The first operation with a name in the one block of an operation; `None` where the operation hasn't one region with
/// one block. It goes over the block.
pub fn scan<O: SymbolPayload, B, T: TypeTable>(
    ctx: &TypedProgram<O, B, T>,
    table: Ptr<Operation>,
    name: &str,
) -> Option<Ptr<Operation>>
    requires { IsSome (operation_at ctx.now.program table) }
    ensures { IsFoundIn O.name_in ctx.now.program table name.now result }
{
    found_in(ctx.program(), table, name)
}

/// What a name means at an operation: the first operation with the name in the block of the nearest symbol table; `None`
/// where no operation around it holds a table. It goes over the block.
pub fn lookup_symbol<O: SymbolPayload, B, T: TypeTable>(
    ctx: &TypedProgram<O, B, T>,
    op: Ptr<Operation>,
    name: &str,
) -> Option<Ptr<Operation>>
    requires { IsSome (operation_at ctx.now.program op) }
    ensures { IsFoundInNearest O.name_in O.holds_table ctx.now.program op name.now result }
{
    match nearest_symbol_table(ctx, op) {
        Some(table) => scan(ctx, table, name),
        None => None,
    }
}
