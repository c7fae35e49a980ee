//! Values that a context keeps once.
ghost use Rattle.std.specs.Prelude.{◌≡◌, ◌↔◌, true, false, Ok, Some, IfOk, OnOk, OnErr};
ghost use Rattle.ir_types.specs.Interned.{KeepsSaved, has_saved, saved_key_of, next_saved_key, with_saved};

use ir_context::Context;
use ir_types::{DialectTables, SavedKey};
use std::alloc::{AllocError, Global};
use std::marker::PhantomData;

/// A value that a context keeps once, however often it is given.
#[derive_where(Clone, Copy, Debug, PartialEq, Eq, Hash)]
pub struct Uniqued<S> {
    key: SavedKey,
    #[derive_where(skip)]
    of: PhantomData<S>,
}

/// The key of a value that a context keeps once.
#[derive_where(Clone, Copy, Debug, PartialEq, Eq, Hash)]
pub struct UniquedKey<S> {
    key: SavedKey,
    #[derive_where(skip)]
    of: PhantomData<S>,
}

impl<S> Uniqued<S> {
    ghost use Rattle.ir_queries.specs.Kept.{uniqued, saved_key, uniqued_key, IsKeptByContext, value_at, AreKeptOnce};
    ghost use Rattle.ir_queries.specs.declared.uniqued.Uniqued.{Uniqued};

    /// Keeps a value.
    ///
    /// Where the context keeps an equal value, nothing changes and no memory is asked for.
    ///
    /// # Errors
    /// Without memory nothing is changed.
    pub fn new<D: DialectTables<Saved = S>>(
        alloc: Global,
        ctx: &mut Context<D>,
        value: S,
    ) -> Result<Uniqued<S>, AllocError>
        ensures known { (u : Uniqued S) → (kept : S) → value_at ctx.old.types u ≡ Some kept → S.eq value kept ≡ true
            → (result ≡ Ok u) × (ctx.new ≡ ctx.old) }
        ensures fresh { has_saved S.eq ctx.old.types value ≡ false
            → IfOk result (λ u. saved_key u ≡ next_saved_key ctx.old.types) }
        ensures key { IfOk result (λ u. saved_key u ≡ saved_key_of S.eq ctx.old.types value) }
        ensures ok { OnOk result (ctx.new.types ≡ with_saved S.eq ctx.old.types value) }
        ensures value { IfOk result (λ u. (kept : S) × (value_at ctx.new.types u ≡ Some kept)
            × (S.eq value kept ≡ true)) }
        ensures same { IfOk result (λ u. (other : Uniqued S) → (kept : S) → value_at ctx.new.types other ≡ Some kept
            → ((other ≡ u) ↔ (S.eq value kept ≡ true))) }
        ensures keeps { KeepsSaved ctx.old.types ctx.new.types }
        ensures err { OnErr result (ctx.new ≡ ctx.old) }
        ensures program { ctx.new.program ≡ ctx.old.program }
    {
        let key = ctx.save(alloc, value)?;
        Ok(Uniqued {
            key,
            of: PhantomData,
        })
    }

    /// The value, as the context keeps it.
    pub fn get<D: DialectTables<Saved = S>>(self, ctx: &Context<D>) -> &S
        requires { IsKeptByContext ctx.now.types self }
        ensures { value_at ctx.now.types self ≡ Some result.now }
    {
        ctx.saved(self.key)
    }

    /// Its key.
    pub fn key(self) -> UniquedKey<S>
        ensures { result ≡ uniqued_key self }
    {
        UniquedKey {
            key: self.key,
            of: PhantomData,
        }
    }

    /// A law: what a context keeps is the same exactly where its values are equal.
    pub fn know_distinct<D: DialectTables<Saved = S>>(ctx: &Context<D>)
        ensures { AreKeptOnce S.eq ctx.now.types }
    {
        ctx.know_distinct();
    }
}
