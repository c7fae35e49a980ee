//! Identifiers for sources that need not be identifiers.
ghost use Rattle.std.specs.Prelude.{◌≡◌, ℕ, ◌≤◌, ◌<◌, ◌^◌, ◌-◌, ◌↔◌, List, [], true, false, Some, None, Err, IfOk, OnOk, OnErr, MatchOption, option_map, option_copied, length};
ghost use Rattle.std.specs.Str.{chars};
ghost use Rattle.std.specs.String.{string_bytes};
ghost use Rattle.ir_base.specs.declared.growth.GrowError.TheVariants.{CounterFull};
ghost use Rattle.ir_names.specs.Identifier.{text_of};
ghost use Rattle.ir_names.specs.Text.{clean_text};
ghost use Rattle.ir_names.specs.Legaliser.{Legalised, name_of, source_of, is_taken, GivesOneToOne, numbered, AreTaken, IsNumberedText, IsFresh, IsFull, with_name};
ghost use Rattle.ir_names.specs.Paired.{paired};

use crate::{GrowError, Identifier};
use indexmap::IndexSet;
use std::alloc::{AllocError, Global};
use std::marker::Model;

/// Gives an identifier to each source, a text of any kind: different ones to different sources.
#[derive(Drop)]
pub struct Legaliser {
    sources: IndexSet<String>,
    // The identifier at an index is that of the source at the index.
    names: IndexSet<Identifier>,
    counter: u64,
}

impl Model for Legaliser {
    ghost Value = { Legalised };

    ghost view = { λ l. record { given = paired l.sources.keys l.names.keys; counter = l.counter } };

    ghost invariant = { λ l. (length l.sources.keys ≡ length l.names.keys)
        × GivesOneToOne (paired l.sources.keys l.names.keys) };
}

impl Legaliser {
    /// The legaliser that knows no source.
    pub fn new(alloc: Global) -> Legaliser
        ensures { result ≡ record { given = []; counter = 0 } }
    {
        Legaliser::counting_from(alloc, 0)
    }

    /// The same, whose first number is this one: identifiers that another legaliser gave with lower numbers are not given again.
    pub fn counting_from(alloc: Global, counter: u64) -> Legaliser
        ensures { result ≡ record { given = []; counter = counter } }
    {
        Legaliser {
            sources: IndexSet::new(alloc),
            names: IndexSet::new(alloc),
            counter,
        }
    }

    /// The identifier that the source was given.
    fn known(&self, source: &str) -> Option<&Identifier>
        ensures { option_map (λ name. text_of name.now) result ≡ name_of self.now.given source.now }
    {
        let index = self.sources.get_index_of(source)?;
        self.names.get_index(index)
    }

    /// The source that the identifier was given to.
    pub fn source_name(&self, name: &Identifier) -> Option<&str>
        ensures source { option_map (λ source. source.now) result ≡ source_of self.now.given (text_of name.now) }
        ensures back { GivesOneToOne self.now.given }
    {
        let index = self.names.get_index_of(name)?;
        let source = self.sources.get_index(index)?;
        Some(source.as_str())
    }

    /// Whether the identifier was given to a source.
    fn is_given(&self, name: &Identifier) -> bool
        ensures { result ≡ is_taken self.now.given (text_of name.now) }
    {
        self.names.contains(name)
    }

    /// The text with the first number, from the counter on, with which it isn't taken, and the number behind that.
    fn first_free(&self, text: &Identifier) -> Result<(Identifier, u64), GrowError>
        ensures free { IfOk result (λ r. IsNumberedText self.now.given (text_of text.now) self.now.counter
            (text_of r.0) r.1) }
        ensures full { result ≡ Err CounterFull
            → AreTaken self.now.given (text_of text.now) self.now.counter (2 ^ 64 - 1) }
    {
        for number in self.counter..u64::MAX {
            let name = text.with_number(number)?;
            if !self.is_given(&name) {
                return Ok((name, number + 1));
            }
        }
        Err(GrowError::CounterFull)
    }

    /// An identifier for a new source with this clean text, and the counter behind it.
    fn fresh(&self, text: Identifier) -> Result<(Identifier, u64), GrowError>
        ensures fresh { IfOk result (λ r. IsFresh self.now.given (text_of text) self.now.counter (text_of r.0) r.1) }
        ensures full { result ≡ Err CounterFull → IsFull self.now (text_of text) }
    {
        if self.is_given(&text) {
            self.first_free(&text)
        } else {
            Ok((text, self.counter))
        }
    }

    /// Notes the identifier of a source. Neither was there before.
    fn note(&mut self, source: String, name: Identifier) -> Result<(), AllocError>
        requires new { name_of self.old.given (string_bytes source) ≡ None }
        requires free { is_taken self.old.given (text_of name) ≡ false }
        ensures ok { OnOk result (self.new ≡ record self.old {
          given = with_name self.old.given (string_bytes source)
              (text_of name);
        }) }
        ensures err { OnErr result (self.new ≡ self.old) }
    {
        self.sources.reserve(1)?;
        self.names.reserve(1)?;
        self.sources.insert(source)?;
        self.names.insert(name)?;
        Ok(())
    }

    /// The identifier of a source: a known source keeps its own.
    ///
    /// A new source gets its text, each character that an identifier can't have as `_`, with `_`
    /// in front where it is empty or begins with a digit. Where that is taken, `_` and the counter
    /// follow, one more at each try. A try that finds the counter at its greatest is refused.
    pub fn legalise(&mut self, source: &str) -> Result<Identifier, GrowError>
        ensures known { (name : List ℕ) → name_of self.old.given source.now ≡ Some name
            → IfOk result (λ id. text_of id ≡ name) × (self.new ≡ self.old) }
        ensures fresh { name_of self.old.given source.now ≡ None
            → IfOk result (λ id. IsFresh self.old.given (clean_text (chars source.now)) self.old.counter
            (text_of id) self.new.counter) }
        ensures given { name_of self.old.given source.now ≡ None
            → IfOk result (λ id. self.new.given ≡ with_name self.old.given source.now (text_of id)) }
        ensures one { GivesOneToOne self.new.given }
        ensures full { result ≡ Err CounterFull → (name_of self.old.given source.now ≡ None)
            × IsFull self.old (clean_text (chars source.now)) }
        ensures err { OnErr result (self.new ≡ self.old) }
    {
        if let Some(name) = self.known(source) {
            return Ok(name.try_clone()?);
        }
        let alloc = *self.sources.allocator();
        let text = Identifier::clean(alloc, source)?;
        let (name, counter) = self.fresh(text)?;
        let copy = name.try_clone()?;
        self.note(String::from_str(alloc, source)?, name)?;
        self.counter = counter;
        Ok(copy)
    }
}
