//! What values and blocks are called.
ghost use Rattle.std.specs.Prelude.{◌≡◌, ◌++◌, ℕ, List, IfOk, OnOk, decimal, option_map};
ghost use Rattle.std.specs.Fmt.{WritesInCalls};
ghost use Rattle.ir_names.specs.Identifier.{text_of};
ghost use Rattle.ir_queries.specs.Naming.{Nameable, value as ValueName, block as BlockName, IsLive, IsGivenName, IsUnique, HaveOwnNames, id_text, with_id};

use crate::given::{block_name, value_name};
use crate::writing::{write_block, write_value};
use ir_context::Context;
use ir_names::{Identifier, ident};
use ir_program::{BasicBlock, Ptr, Value};
use ir_types::DialectTables;
use std::alloc::{AllocError, Global};
use std::fmt;

/// A copy of a name, if there is one.
fn copied(alloc: Global, name: Option<&Identifier>) -> Result<Option<Identifier>, AllocError>
    ensures { IfOk result (λ copy. option_map text_of copy ≡ option_map (λ id. text_of id.now) name.entry) }
{
    match name {
        Some(name) => Ok(Some(Identifier::new(alloc, name.as_str())?)),
        None => Ok(None),
    }
}

/// A name, `_` and an id; the id where there is no name.
fn with_id(
    alloc: Global,
    name: Option<&Identifier>,
    id: Identifier,
) -> Result<Identifier, AllocError>
    ensures { IfOk result (λ joined. text_of joined ≡ with_id (option_map (λ given. text_of given.now) name.entry)
        (text_of id)) }
{
    match name {
        Some(name) => {
            let given = Identifier::new(alloc, name.as_str())?;
            let longer = (given + "_")?;
            longer + &id
        }
        None => Ok(id),
    }
}

/// An identifier with the digits of a number behind it.
fn with_number(alloc: Global, name: Identifier, number: u128) -> Result<Identifier, AllocError>
    ensures { IfOk result (λ longer. text_of longer ≡ text_of name ++ decimal number) }
{
    let digits = format!(in alloc; "{number}")?;
    name + digits.as_str()
}

/// What values and blocks are called.
pub trait Named {
    /// The value or the block.
    ghost named: { Self → Nameable };

    /// The name that it was given: the one at the value's index among the names that its definer's attributes hold, or the
    /// label of the block.
    ///
    /// # Errors
    /// Refused where there is no memory for a copy of the name.
    fn given_name<D: DialectTables>(
        self,
        alloc: Global,
        ctx: &Context<D>,
    ) -> Result<Option<Identifier>, AllocError>
        requires { IsLive ctx.now.program (named self) }
        ensures { IfOk result (λ name. IsGivenName D.names D.names_in ctx.now.program (named self)
            (option_map text_of name)) };

    /// Its id: `v` and the number of a value; `block`, the slot counted from 1, `v` and the version of a block.
    ///
    /// # Errors
    /// Refused where there is no memory for it.
    fn id<D: DialectTables>(self, alloc: Global, ctx: &Context<D>) -> Result<Identifier, AllocError>
        ensures { IfOk result (λ id. text_of id ≡ id_text (named self)) };

    /// The name that it was given, `_` and its id; its id where it was given no name.
    ///
    /// # Errors
    /// Refused where there is no memory for it.
    fn unique_name<D: DialectTables>(
        self,
        alloc: Global,
        ctx: &Context<D>,
    ) -> Result<Identifier, AllocError>
        requires { IsLive ctx.now.program (named self) }
        ensures { IfOk result (λ name. IsUnique D.names D.names_in ctx.now.program (named self) (text_of name)) };

    /// Writes its unique name. No memory is asked for.
    fn write_unique_name<D: DialectTables, W: fmt::Write>(
        self,
        ctx: &Context<D>,
        f: &mut W,
    ) -> fmt::Result
        requires { IsLive ctx.now.program (named self) }
        ensures { OnOk result ((text : List ℕ) × IsUnique D.names D.names_in ctx.now.program (named self) text
            × WritesInCalls W.write_str_gives f.old text f.new) };
}

impl Named for Value {
    ghost named = { λ v. ValueName v };

    fn given_name<D: DialectTables>(
        self,
        alloc: Global,
        ctx: &Context<D>,
    ) -> Result<Option<Identifier>, AllocError> {
        copied(alloc, value_name(ctx, self))
    }

    fn id<D: DialectTables>(
        self,
        alloc: Global,
        _ctx: &Context<D>,
    ) -> Result<Identifier, AllocError> {
        with_number(alloc, ident(alloc, "v")?, self.number() as u128)
    }

    fn unique_name<D: DialectTables>(
        self,
        alloc: Global,
        ctx: &Context<D>,
    ) -> Result<Identifier, AllocError> {
        with_id(alloc, value_name(ctx, self), self.id(alloc, ctx)?)
    }

    fn write_unique_name<D: DialectTables, W: fmt::Write>(
        self,
        ctx: &Context<D>,
        f: &mut W,
    ) -> fmt::Result {
        write_value(f, value_name(ctx, self), self.number())
    }
}

impl Named for Ptr<BasicBlock> {
    ghost named = { λ b. BlockName b };

    fn given_name<D: DialectTables>(
        self,
        alloc: Global,
        ctx: &Context<D>,
    ) -> Result<Option<Identifier>, AllocError> {
        copied(alloc, block_name(ctx, self))
    }

    fn id<D: DialectTables>(
        self,
        alloc: Global,
        _ctx: &Context<D>,
    ) -> Result<Identifier, AllocError> {
        let slot = with_number(alloc, ident(alloc, "block")?, self.slot() as u128 + 1)?;
        with_number(alloc, (slot + "v")?, self.version() as u128)
    }

    fn unique_name<D: DialectTables>(
        self,
        alloc: Global,
        ctx: &Context<D>,
    ) -> Result<Identifier, AllocError> {
        with_id(alloc, block_name(ctx, self), self.id(alloc, ctx)?)
    }

    fn write_unique_name<D: DialectTables, W: fmt::Write>(
        self,
        ctx: &Context<D>,
        f: &mut W,
    ) -> fmt::Result {
        write_block(f, block_name(ctx, self), self.slot(), self.version())
    }
}

/// Tells that different values and blocks of a context have different unique names. It does nothing.
pub fn know_unique_names<D: DialectTables>(ctx: &Context<D>)
    ensures { HaveOwnNames D.names D.names_in ctx.now.program }
{
    ctx.program().know_values();
}
