//! Symbol tables.
ghost use Rattle.std.specs.Prelude.{◌≡◌, ◌↔◌, IsSome, IsTrue, IfOk, IfErr, OnOk, OnErr};
ghost use Rattle.ir_program.specs.Edits.{KeepsValues};
ghost use Rattle.ir_program.specs.Erased.{ErasesOperation, IsApart};
ghost use Rattle.ir_program.specs.Lists.{StandsInside};
ghost use Rattle.ir_program.specs.Program.{operation_at, block_at};
ghost use Rattle.ir_program.specs.declared.handles.IRNode.TheVariants.{Operation as OperationNode, BasicBlock as BlockNode};
ghost use Rattle.ir_symbols.specs.Symbols.{IsTable, HasOneBlock};

use crate::bodies::body_of;
use crate::errors::SymbolTableErr;
use crate::names::{put_name, symbols_of};
use crate::payload::SymbolPayload;
use crate::placing::{can_stand_in, is_mark, put};
use crate::scanning::{is_table, symbol_name};
use ir_context::{OperationErasing, TypeTable, TypedProgram};
use ir_program::{BasicBlock, Operation, Program, Ptr};
use std::alloc::{AllocError, Global};
use std::collections::BTreeMap;

/// The symbols of an operation's one block, by their names. Names keep their order as bytes.
///
/// It is in step with the block as long as the block's symbols come and go by it and keep their names. Where one was
/// renamed, look-ups find it under its old name, until it is removed.
#[derive(Drop)]
pub struct SymbolTable {
    op: Ptr<Operation>,
    body: Ptr<BasicBlock>,
    names: BTreeMap<String, Ptr<Operation>>,
    alloc: Global,
}

impl SymbolTable {
    ghost use Rattle.ir_symbols.specs.Insertions.{CanInsert, HasOther, InsertsEntry, IsRefusedBy, PutsSymbol};
    ghost use Rattle.ir_symbols.specs.Tables.{entry_at, Agrees, HasEntryOf, IsNoTableBy, IsSameTable, IsTableOf, TakesEntries};

    /// The table of an operation that holds one, which has one region with one block.
    ///
    /// # Errors
    /// Refused by `DoesNotImplementSymbolTableInterface` exactly where the operation holds no table, else by
    /// `SymbolRedefined` exactly where two operations of the block have one name, else where there is no memory.
    pub fn new<O: SymbolPayload, B, T: TypeTable>(
        alloc: Global,
        ctx: &TypedProgram<O, B, T>,
        op: Ptr<Operation>,
    ) -> Result<SymbolTable, SymbolTableErr>
        requires live { IsSome (operation_at ctx.now.program op) }
        requires shape { IsTable O.holds_table ctx.now.program op → HasOneBlock ctx.now.program op }
        ensures made { IfOk result (IsTableOf O.name_in O.holds_table ctx.now.program op) }
        ensures refused { IfErr result (IsNoTableBy O.name_in O.holds_table ctx.now.program op) }
    {
        let program = ctx.program();
        if !is_table(program, op) {
            return Err(SymbolTableErr::DoesNotImplementSymbolTableInterface);
        }
        let Some(body) = body_of(program, op) else {
            unreachable!()
        };
        let names = symbols_of(alloc, program, body)?;
        Ok(SymbolTable {
            op,
            body,
            names,
            alloc,
        })
    }

    /// The operation whose table it is.
    pub fn op(&self) -> Ptr<Operation>
        ensures { result ≡ self.now.op }
    {
        self.op
    }

    /// The block whose symbols it has.
    pub fn body(&self) -> Ptr<BasicBlock>
        ensures { result ≡ self.now.body }
    {
        self.body
    }

    /// The operation under a name. No memory is asked for.
    pub fn lookup(&self, name: &str) -> Option<Ptr<Operation>>
        ensures { result ≡ entry_at self.now name.now }
    {
        self.names.get(name).copied()
    }

    /// Whether the table has another operation under a name.
    fn has_other(&self, name: &str, op: Ptr<Operation>) -> bool
        ensures { IsTrue result ↔ HasOther self.now name.now op }
    {
        match self.lookup(name) {
            Some(found) => found != op,
            None => false,
        }
    }

    /// Whether an operation can be put into the table, and before the mark or at the end of the table's block.
    fn test<O: SymbolPayload, B>(
        &self,
        program: &Program<O, B>,
        op: Ptr<Operation>,
        before: Option<Ptr<Operation>>,
    ) -> Result<(), SymbolTableErr>
        requires op { IsSome (operation_at program.now op) }
        requires block { IsSome (block_at program.now self.now.body) }
        ensures ok { OnOk result (CanInsert O.name_in program.now self.now op before) }
        ensures err { IfErr result (IsRefusedBy O.name_in program.now self.now op before) }
    {
        let Some(name) = symbol_name(program, op) else {
            return Err(SymbolTableErr::DoesNotImplementSymbolOpInterface);
        };
        if self.has_other(name, op) {
            return Err(SymbolTableErr::SymbolRedefined);
        }
        if !can_stand_in(program, self.body, op) {
            return Err(SymbolTableErr::WrongParent);
        }
        if !is_mark(program, self.body, op, before) {
            return Err(SymbolTableErr::WrongInsertionPoint);
        }
        Ok(())
    }

    /// Puts an operation under its name.
    fn put_entry<O: SymbolPayload, B>(
        &mut self,
        program: &Program<O, B>,
        op: Ptr<Operation>,
    ) -> Result<(), AllocError>
        requires op { IsSome (operation_at program.now op) }
        ensures ok { OnOk result (InsertsEntry O.name_in program.now self.old op self.new) }
        ensures err { OnErr result (IsSameTable self.old self.new) }
    {
        match symbol_name(program, op) {
            Some(name) => put_name(&mut self.names, self.alloc, name, op),
            None => Ok(()),
        }
    }

    /// Puts an operation under its name, and into the table's block: before an operation of it, or at its end. An operation
    /// of the block stays where it is.
    ///
    /// # Errors
    /// Refused where the operation has no name, else where another operation is under its name, else where it is one of
    /// another block's or is around the table, else where it can't be put there, else where there is no memory. The table
    /// has the entries that it had then, and the context is the same.
    pub fn insert<O: SymbolPayload, B, T: TypeTable>(
        &mut self,
        ctx: &mut TypedProgram<O, B, T>,
        op: Ptr<Operation>,
        before: Option<Ptr<Operation>>,
    ) -> Result<(), SymbolTableErr>
        requires op { IsSome (operation_at ctx.old.program op) }
        requires block { IsSome (block_at ctx.old.program self.old.body) }
        ensures accepted { OnOk result (CanInsert O.name_in ctx.old.program self.old op before) }
        ensures entry { OnOk result (InsertsEntry O.name_in ctx.old.program self.old op self.new) }
        ensures put { OnOk result (PutsSymbol ctx.old.program ctx.new.program self.old.body op before) }
        ensures agrees { OnOk result (Agrees O.name_in ctx.old.program self.old
            → Agrees O.name_in ctx.new.program self.new) }
        ensures values { KeepsValues ctx.old.program ctx.new.program }
        ensures types { ctx.new.types ≡ ctx.old.types }
        // A refused operation is nowhere: neither in the table nor in the block.
        ensures refused { IfErr result (IsRefusedBy O.name_in ctx.old.program self.old op before) }
        ensures same_table { OnErr result (IsSameTable self.old self.new) }
        ensures same_context { OnErr result (ctx.new ≡ ctx.old) }
    {
        let body = self.body;
        let program = ctx.program();
        program.know_lists();
        self.test(program, op, before)?;
        self.put_entry(program, op)?;
        put(ctx, body, op, before);
        Ok(())
    }

    /// Takes an operation out of the table, under whichever names it is there, and tells whether it was there. It stays
    /// where it is in the block. No memory is asked for.
    pub fn remove(&mut self, op: Ptr<Operation>) -> bool
        ensures had { IsTrue result ↔ HasEntryOf self.old op }
        ensures taken { TakesEntries self.old self.new op }
    {
        let before = self.names.len();
        self.names.retain(|_name, symbol| *symbol != op);
        self.names.len() < before
    }

    /// Takes an operation out of the table, under whichever names it is there, and erases it with all that is in it. No
    /// operation outside it takes a value or goes on to a block that is inside: `can_erase` tells. No memory is asked for.
    pub fn erase<O: SymbolPayload + Drop, B: Drop, T: TypeTable>(
        &mut self,
        ctx: &mut TypedProgram<O, B, T>,
        op: Ptr<Operation>,
    )
        requires op { IsSome (operation_at ctx.old.program op) }
        requires apart { IsApart ctx.old.program (OperationNode op) }
        ensures taken { TakesEntries self.old self.new op }
        ensures erased { ErasesOperation ctx.old.program ctx.new.program op }
        ensures types { ctx.new.types ≡ ctx.old.types }
        // The table itself isn't inside what is erased.
        ensures agrees { (StandsInside ctx.old.program (OperationNode op) (BlockNode self.old.body) → ⊥)
            → Agrees O.name_in ctx.old.program self.old → Agrees O.name_in ctx.new.program self.new }
    {
        ctx.program().know_lists();
        self.remove(op);
        op.erase(ctx);
    }
}
