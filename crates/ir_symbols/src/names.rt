//! Operations by their names.
ghost use Rattle.std.specs.Prelude.{IsSome, OnOk, OnErr, IfErr, IfOk};
ghost use Rattle.std.specs.BTreeMap.{IsUnchanged};
ghost use Rattle.ir_program.specs.Program.{operation_at, block_at};
ghost use Rattle.ir_symbols.specs.Symbols.{HasSharedName};
ghost use Rattle.ir_symbols.specs.Tables.{SetsName, AreSymbolsOf};
ghost use Rattle.ir_symbols.specs.Collecting.{AddsSymbol, IsNamedAlready, IsNotCollectedBy, IsToldBy};

use crate::errors::SymbolTableErr;
use crate::payload::SymbolPayload;
use crate::scanning::{shares_name, symbol_name};
use ir_program::{BasicBlock, Operation, Program, Ptr};
use std::alloc::{AllocError, Global};
use std::collections::BTreeMap;

/// Puts an operation under a name.
pub(crate) fn put_name(
    names: &mut BTreeMap<String, Ptr<Operation>>,
    alloc: Global,
    name: &str,
    op: Ptr<Operation>,
) -> Result<(), AllocError>
    ensures ok { OnOk result (SetsName names.old names.new name.now op) }
    ensures err { OnErr result (IsUnchanged names.old names.new) }
{
    names.insert(String::from_str(alloc, name)?, op)?;
    Ok(())
}

/// Puts an operation under its name, if it has one and no other operation is there.
fn put_symbol<O: SymbolPayload, B>(
    names: &mut BTreeMap<String, Ptr<Operation>>,
    alloc: Global,
    program: &Program<O, B>,
    op: Ptr<Operation>,
) -> Result<(), SymbolTableErr>
    requires { IsSome (operation_at program.now op) }
    ensures ok { OnOk result (AddsSymbol O.name_in program.now names.old names.new op) }
    ensures err { IfErr result (IsNotCollectedBy (IsNamedAlready O.name_in program.now names.old op)) }
{
    match symbol_name(program, op) {
        None => Ok(()),
        Some(name) => {
            if names.contains_key(name) {
                return Err(SymbolTableErr::SymbolRedefined);
            }
            put_name(names, alloc, name, op)?;
            Ok(())
        }
    }
}

/// The symbols of a block by their names, refused at the first one whose name is there already, or where there is no
/// memory for one.
fn collect<O: SymbolPayload, B>(
    alloc: Global,
    program: &Program<O, B>,
    block: Ptr<BasicBlock>,
) -> Result<BTreeMap<String, Ptr<Operation>>, SymbolTableErr>
    requires { IsSome (block_at program.now block) }
    ensures ok { IfOk result (AreSymbolsOf O.name_in program.now block) }
    ensures err { IfErr result (IsNotCollectedBy (HasSharedName O.name_in program.now block)) }
{
    program.know_lists();
    let mut names = BTreeMap::new(alloc);
    for op in program.operations(block) {
        put_symbol(&mut names, alloc, program, op)?;
    }
    Ok(names)
}

/// The reason why the symbols of a block weren't collected: that two have one name comes before want of memory.
fn reason<O: SymbolPayload, B>(
    program: &Program<O, B>,
    block: Ptr<BasicBlock>,
    error: SymbolTableErr,
) -> SymbolTableErr
    requires block { IsSome (block_at program.now block) }
    requires error { IsNotCollectedBy (HasSharedName O.name_in program.now block) error }
    ensures { IsToldBy (HasSharedName O.name_in program.now block) result }
{
    match error {
        SymbolTableErr::Memory => {
            if shares_name(program, block) {
                return SymbolTableErr::SymbolRedefined;
            }
            SymbolTableErr::Memory
        }
        _ => SymbolTableErr::SymbolRedefined,
    }
}

/// The symbols of a block by their names. Refused by `SymbolRedefined` exactly where two have one name.
pub(crate) fn symbols_of<O: SymbolPayload, B>(
    alloc: Global,
    program: &Program<O, B>,
    block: Ptr<BasicBlock>,
) -> Result<BTreeMap<String, Ptr<Operation>>, SymbolTableErr>
    requires { IsSome (block_at program.now block) }
    ensures ok { IfOk result (AreSymbolsOf O.name_in program.now block) }
    ensures err { IfErr result (IsToldBy (HasSharedName O.name_in program.now block)) }
{
    match collect(alloc, program, block) {
        Ok(names) => Ok(names),
        Err(error) => Err(reason(program, block, error)),
    }
}
