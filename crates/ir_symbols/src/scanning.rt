//! Symbols of a block, found by going over its operations. No memory is asked for.
ghost use Rattle.std.specs.Prelude.{◌≡◌, ◌↔◌, false, IsSome, IsTrue, option_copied};
ghost use Rattle.ir_program.specs.Lists.{operations_in};
ghost use Rattle.ir_program.specs.Program.{operation_at, block_at};
ghost use Rattle.ir_symbols.specs.Collecting.{ComesLater, IsFirstOfName};
ghost use Rattle.ir_symbols.specs.Scans.{first_named, has_name};
ghost use Rattle.ir_symbols.specs.Symbols.{name_at, IsTable, HasSharedName};

use crate::payload::SymbolPayload;
use ir_program::{BasicBlock, Operation, Program, Ptr};

/// The name of an operation; none where it is no symbol.
pub(crate) fn symbol_name<O: SymbolPayload, B>(
    program: &Program<O, B>,
    op: Ptr<Operation>,
) -> Option<&str>
    requires { IsSome (operation_at program.now op) }
    ensures { option_copied result ≡ name_at O.name_in program.now op }
{
    program.payload(op).symbol_name()
}

/// Whether an operation holds a symbol table.
pub(crate) fn is_table<O: SymbolPayload, B>(program: &Program<O, B>, op: Ptr<Operation>) -> bool
    requires { IsSome (operation_at program.now op) }
    ensures { IsTrue result ↔ IsTable O.holds_table program.now op }
{
    program.payload(op).is_symbol_table()
}

/// Whether an operation has a name.
fn has_name<O: SymbolPayload, B>(program: &Program<O, B>, op: Ptr<Operation>, name: &str) -> bool
    requires { IsSome (operation_at program.now op) }
    ensures { result ≡ has_name O.name_in program.now name.now op }
{
    match symbol_name(program, op) {
        Some(found) => name == found,
        None => false,
    }
}

/// The first operation of a block that has a name.
pub(crate) fn scan_block<O: SymbolPayload, B>(
    program: &Program<O, B>,
    block: Ptr<BasicBlock>,
    name: &str,
) -> Option<Ptr<Operation>>
    requires { IsSome (block_at program.now block) }
    ensures { result ≡ first_named O.name_in program.now name.now (operations_in program.now block) }
{
    for op in program.operations(block) {
        if has_name(program, op, name) {
            return Some(op);
        }
    }
    None
}

/// Whether the operation has a name and isn't the first of the block that has it.
fn comes_second<O: SymbolPayload, B>(
    program: &Program<O, B>,
    block: Ptr<BasicBlock>,
    op: Ptr<Operation>,
) -> bool
    requires block { IsSome (block_at program.now block) }
    requires op { IsSome (operation_at program.now op) }
    ensures later { IsTrue result → ComesLater O.name_in program.now (operations_in program.now block) op }
    ensures first { result ≡ false → IsFirstOfName O.name_in program.now (operations_in program.now block) op }
{
    match symbol_name(program, op) {
        Some(name) => scan_block(program, block, name) != Some(op),
        None => false,
    }
}

/// Whether two operations of a block have one name. It goes over the block for each symbol in it.
pub(crate) fn shares_name<O: SymbolPayload, B>(
    program: &Program<O, B>,
    block: Ptr<BasicBlock>,
) -> bool
    requires { IsSome (block_at program.now block) }
    ensures { IsTrue result ↔ HasSharedName O.name_in program.now block }
{
    program.know_lists();
    for op in program.operations(block) {
        if comes_second(program, block, op) {
            return true;
        }
    }
    false
}
