//! The functions of a module that calls may name, by number.
ghost use Rattle.std.specs.Prelude.{◌≡◌, ◌↔◌, ℕ, List, false, IsSome, IfOk, IsTrue, MatchOption};
ghost use Rattle.std.specs.Str.{bytes_eq};
ghost use Rattle.ir_program.specs.Lists.{operations_in};
ghost use Rattle.ir_program.specs.Program.{operation_at, block_at};
ghost use Rattle.kit_places.specs.Store.{is_function_named, members};
ghost use Rattle.kit_interpreter.specs.Lowering.{number_of, AreNamedFunctions, HasSymbolTable, HaveTableOf, IsFunctionTable, IsNamedFunction};

use indexmap::IndexSet;
use ir_context::{Context, OperationCalls};
use ir_program::{BasicBlock, Operation, Ptr};
use ir_symbols::{SymbolTableCollection, SymbolTableErr};
use kit::Kit;
use kit_ops::{KitAttr, KitOp, keys};
use kit_places::{attribute, entry};
use std::alloc::{AllocError, Global};

/// The functions of a module, by number and by name.
#[derive(Drop)]
pub(crate) struct Functions {
    pub(crate) outer: Ptr<Operation>,
    /// Those that have names, in the order of the module: the index of each is its number.
    pub(crate) handles: IndexSet<Ptr<Operation>>,
    /// The symbol table of the module, which is made once.
    pub(crate) tables: SymbolTableCollection,
}

/// The name of an operation, if it is a function that has one.
fn function_name<'a>(ctx: &'a Context<Kit>, op: Ptr<Operation>) -> Option<&'a str>
    requires { IsSome (operation_at ctx.now.program op) }
    ensures { MatchOption result ((name : List ℕ) → is_function_named ctx.now.program name op ≡ false)
        (λ text. (name : List ℕ) → is_function_named ctx.now.program name op ≡ bytes_eq name text.now) }
{
    match op.kind(ctx) {
        KitOp::Func => match attribute(ctx, op, keys::SYMBOL_NAME) {
            Some(KitAttr::Identifier(name)) => Some(name.as_str()),
            _ => None,
        },
        _ => None,
    }
}

/// Whether an operation is a function that has a name.
fn is_named_function(ctx: &Context<Kit>, op: Ptr<Operation>) -> bool
    requires { IsSome (operation_at ctx.now.program op) }
    ensures { IsTrue result ↔ IsNamedFunction ctx.now.program op }
{
    match function_name(ctx, op) {
        Some(_name) => true,
        None => false,
    }
}

/// The functions of a block that have names, in order.
fn functions_in(
    alloc: Global,
    ctx: &Context<Kit>,
    block: Ptr<BasicBlock>,
) -> Result<IndexSet<Ptr<Operation>>, AllocError>
    requires { IsSome (block_at ctx.now.program block) }
    ensures { IfOk result (λ handles. AreNamedFunctions ctx.now.program (operations_in ctx.now.program block)
        handles.keys) }
{
    ctx.program().know_lists();
    let mut handles = IndexSet::new(alloc);
    for op in ctx.program().operations(block) {
        if is_named_function(ctx, op) {
            handles.insert(op)?;
        }
    }
    Ok(handles)
}

/// The functions of a module that have names, in order.
fn named_functions(
    alloc: Global,
    ctx: &Context<Kit>,
    outer: Ptr<Operation>,
) -> Result<IndexSet<Ptr<Operation>>, AllocError>
    requires { IsSome (operation_at ctx.now.program outer) }
    ensures { IfOk result (λ handles. AreNamedFunctions ctx.now.program (members ctx.now.program outer)
        handles.keys) }
{
    match entry(ctx, outer) {
        Some(block) => functions_in(alloc, ctx, block),
        None => Ok(IndexSet::new(alloc)),
    }
}

/// The symbol table of a module, kept by its operation.
fn symbol_table_of(
    alloc: Global,
    ctx: &Context<Kit>,
    outer: Ptr<Operation>,
) -> Result<SymbolTableCollection, AllocError>
    requires live { IsSome (operation_at ctx.now.program outer) }
    requires table { HasSymbolTable ctx.now.program outer }
    ensures { IfOk result (λ tables. HaveTableOf ctx.now.program outer tables.tables.entries) }
{
    let mut tables = SymbolTableCollection::new(alloc);
    match tables.make_symbol_table(ctx, outer) {
        Ok(()) => Ok(tables),
        Err(SymbolTableErr::Memory) => Err(AllocError),
        Err(_) => unreachable!(),
    }
}

impl Functions {
    /// The number of the function of a name.
    pub(crate) fn number_of(&self, name: &str) -> Option<usize>
        ensures { result ≡ number_of self.now.tables.tables.entries self.now.outer self.now.handles.keys name.now }
    {
        let table = self.tables.symbol_table(self.outer)?;
        let function = table.lookup(name)?;
        self.handles.get_index_of(&function)
    }
}

/// The functions of a module.
pub(crate) fn functions_of(
    alloc: Global,
    ctx: &Context<Kit>,
    outer: Ptr<Operation>,
) -> Result<Functions, AllocError>
    requires live { IsSome (operation_at ctx.now.program outer) }
    requires table { HasSymbolTable ctx.now.program outer }
    ensures outer { IfOk result (λ functions. functions.outer ≡ outer) }
    ensures table { IfOk result (λ functions. IsFunctionTable ctx.now.program outer functions.handles.keys
        (number_of functions.tables.tables.entries outer functions.handles.keys)) }
{
    ctx.program().know_lists();
    let tables = symbol_table_of(alloc, ctx, outer)?;
    let handles = named_functions(alloc, ctx, outer)?;
    Ok(Functions {
        outer,
        handles,
        tables,
    })
}
