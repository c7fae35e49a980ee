//! Symbol tables by the operations that hold them.
ghost use Rattle.std.specs.Prelude.{◌≡◌, ◌↔◌, ◌++◌, ◌∷◌, ℕ, true, false, [], None, Some, IsSome, IsTrue, IfOk, IfErr, OnOk, OnErr, option_copied, slice_get};
ghost use Rattle.ir_program.specs.Lists.{operations_in, StandsInBlock};
ghost use Rattle.ir_program.specs.Program.{operation_at};
ghost use Rattle.ir_program.specs.declared.handles.BasicBlock.{BasicBlock};
ghost use Rattle.ir_program.specs.declared.handles.Operation.{Operation};
ghost use Rattle.ir_program.specs.declared.handles.Ptr.{Ptr};
ghost use Rattle.ir_symbols.specs.Lookups.{IsFoundIn, IsFoundInNearest};
ghost use Rattle.ir_symbols.specs.Symbols.{HasOneBlock, IsTable};

use crate::bodies::single_block;
use crate::errors::SymbolTableErr;
use crate::nearest::nearest_symbol_table;
use crate::payload::SymbolPayload;
use crate::scanning::is_table;
use crate::tables::SymbolTable;
use indexmap::IndexMap;
use ir_context::{TypeTable, TypedProgram};
use ir_program::{Operation, Ptr};
use std::alloc::Global;

/// Symbol tables by the operations that hold them, each made when it is first asked for.
///
/// A table that is kept isn't made anew: where a block or a name was changed without it, look-ups find what was there,
/// until the table is forgotten.
#[derive(Drop)]
pub struct SymbolTableCollection {
    tables: IndexMap<Ptr<Operation>, SymbolTable>,
    alloc: Global,
}

/// Whether an operation holds a table but hasn't one region with one block.
fn lacks_body<O: SymbolPayload, B, T: TypeTable>(
    ctx: &TypedProgram<O, B, T>,
    op: Ptr<Operation>,
) -> bool
    requires { IsSome (operation_at ctx.now.program op) }
    ensures lacks { result ≡ true → HasOneBlock ctx.now.program op → ⊥ }
    ensures has { result ≡ false → IsTable O.holds_table ctx.now.program op → HasOneBlock ctx.now.program op }
{
    is_table(ctx.program(), op) && single_block(ctx, op).is_none()
}

/// Lemma: what is in the list of a block is one of the block's. It does nothing.
fn know_listed<O, B, T: TypeTable>(ctx: &TypedProgram<O, B, T>)
    ensures { (block : Ptr BasicBlock) (k : ℕ) (op : Ptr Operation)
        → slice_get (operations_in ctx.now.program block) k ≡ Some op → StandsInBlock ctx.now.program op block }
{
    ctx.program().know_lists();
}

impl SymbolTableCollection {
    ghost use Rattle.ir_symbols.specs.Collections.{table_in, AreInStep, ForgetsTable, IsNotKeptBy, IsNotKeptFromBy, KeepsTable, LooksUpIn, LooksUpFrom};
    ghost use Rattle.ir_symbols.specs.Tables.{entry_at};
    ghost use Rattle.ir_symbols.specs.declared.errors.SymbolTableErr.TheVariants.{Memory};

    /// No tables.
    pub fn new(alloc: Global) -> SymbolTableCollection
        ensures { result.tables.entries ≡ [] }
    {
        SymbolTableCollection {
            tables: IndexMap::new(alloc),
            alloc,
        }
    }

    /// The table that is kept of an operation.
    pub fn symbol_table(&self, op: Ptr<Operation>) -> Option<&SymbolTable>
        ensures { option_copied result ≡ table_in self.now.tables.entries op }
    {
        self.tables.get(&op)
    }

    /// Forgets the table of an operation, and tells whether there was one. The next look-up makes it anew.
    pub fn invalidate(&mut self, op: Ptr<Operation>) -> bool
        ensures had { IsTrue result ↔ IsSome (table_in self.old.tables.entries op) }
        ensures forgets { ForgetsTable self.old.tables.entries self.new.tables.entries op }
    {
        self.tables.swap_remove(&op).is_some()
    }

    /// Puts in the table of an operation of which none is there.
    fn put(&mut self, op: Ptr<Operation>, table: SymbolTable) -> Result<(), SymbolTableErr>
        requires { table_in self.old.tables.entries op ≡ None }
        ensures ok { OnOk result (self.new.tables.entries ≡ self.old.tables.entries ++ (op, table) ∷ []) }
        ensures memory { IfErr result (λ error. error ≡ Memory) }
        ensures err { OnErr result (self.new.tables.entries ≡ self.old.tables.entries) }
    {
        match self.tables.insert(op, table) {
            Ok(_) => Ok(()),
            Err(_) => Err(SymbolTableErr::Memory),
        }
    }

    /// Makes the table of an operation that holds one, which has one region with one block, where it isn't there.
    ///
    /// # Errors
    /// Those of `SymbolTable::new`, where it isn't there. The tables are as before then.
    pub fn make_symbol_table<O: SymbolPayload, B, T: TypeTable>(
        &mut self,
        ctx: &TypedProgram<O, B, T>,
        op: Ptr<Operation>,
    ) -> Result<(), SymbolTableErr>
        requires live { IsSome (operation_at ctx.now.program op) }
        requires shape { IsTable O.holds_table ctx.now.program op → HasOneBlock ctx.now.program op }
        ensures made { OnOk result (KeepsTable O.name_in O.holds_table ctx.now.program op
            self.old.tables.entries self.new.tables.entries) }
        ensures refused { IfErr result (IsNotKeptBy O.name_in O.holds_table ctx.now.program op
            self.old.tables.entries) }
        ensures same { OnErr result (self.new.tables.entries ≡ self.old.tables.entries) }
    {
        if self.tables.contains_key(&op) {
            return Ok(());
        }
        let table = SymbolTable::new(self.alloc, ctx, op)?;
        self.put(op, table)?;
        Ok(())
    }

    /// The operation under a name in the table that is kept of an operation.
    fn entry(&self, op: Ptr<Operation>, name: &str) -> Option<Ptr<Operation>>
        ensures { (table : _) → table_in self.now.tables.entries op ≡ Some table → result ≡ entry_at table name.now }
    {
        match self.tables.get(&op) {
            Some(table) => table.lookup(name),
            None => None,
        }
    }

    /// The symbol with a name in an operation's table, made where it isn't there. Where the tables are in step, it is what
    /// `scan` finds.
    ///
    /// # Errors
    /// Where the table isn't there: refused by `DoesNotImplementSymbolTableInterface` exactly where the operation holds no
    /// table, else by `SymbolRedefined` exactly where two operations of the block have one name, else where there is no
    /// memory. The tables are as before then.
    pub fn lookup_symbol_in_table<O: SymbolPayload, B, T: TypeTable>(
        &mut self,
        ctx: &TypedProgram<O, B, T>,
        table: Ptr<Operation>,
        name: &str,
    ) -> Result<Option<Ptr<Operation>>, SymbolTableErr>
        requires { IsSome (operation_at ctx.now.program table) }
        ensures found { IfOk result (λ found.
            AreInStep O.name_in O.holds_table ctx.now.program self.old.tables.entries
            → IsFoundIn O.name_in ctx.now.program table name.now found) }
        ensures tables { OnOk result (LooksUpIn O.name_in O.holds_table ctx.now.program table
            self.old.tables.entries self.new.tables.entries) }
        ensures in_step { AreInStep O.name_in O.holds_table ctx.now.program self.old.tables.entries
            → AreInStep O.name_in O.holds_table ctx.now.program self.new.tables.entries }
        ensures refused { IfErr result (IsNotKeptBy O.name_in O.holds_table ctx.now.program table
            self.old.tables.entries) }
        ensures same { OnErr result (self.new.tables.entries ≡ self.old.tables.entries) }
    {
        know_listed(ctx);
        if lacks_body(ctx, table) {
            return Ok(None);
        }
        self.make_symbol_table(ctx, table)?;
        Ok(self.entry(table, name))
    }

    /// What a name means at an operation: the symbol with the name in the nearest table around it, made where it isn't
    /// there; `None` where no operation around it holds a table. Where the tables are in step, it is what `lookup_symbol`
    /// finds.
    ///
    /// # Errors
    /// Where the nearest table isn't there: refused by `SymbolRedefined` exactly where two operations of its block have one
    /// name, else where there is no memory. The tables are as before then.
    pub fn lookup_symbol_in_nearest_table<O: SymbolPayload, B, T: TypeTable>(
        &mut self,
        ctx: &TypedProgram<O, B, T>,
        op: Ptr<Operation>,
        name: &str,
    ) -> Result<Option<Ptr<Operation>>, SymbolTableErr>
        requires { IsSome (operation_at ctx.now.program op) }
        ensures found { IfOk result (λ found.
            AreInStep O.name_in O.holds_table ctx.now.program self.old.tables.entries
            → IsFoundInNearest O.name_in O.holds_table ctx.now.program op name.now found) }
        ensures tables { OnOk result (LooksUpFrom O.name_in O.holds_table ctx.now.program op
            self.old.tables.entries self.new.tables.entries) }
        ensures in_step { AreInStep O.name_in O.holds_table ctx.now.program self.old.tables.entries
            → AreInStep O.name_in O.holds_table ctx.now.program self.new.tables.entries }
        ensures refused { IfErr result (IsNotKeptFromBy O.name_in O.holds_table ctx.now.program op
            self.old.tables.entries) }
        ensures same { OnErr result (self.new.tables.entries ≡ self.old.tables.entries) }
    {
        match nearest_symbol_table(ctx, op) {
            Some(table) => self.lookup_symbol_in_table(ctx, table, name),
            None => Ok(None),
        }
    }
}
