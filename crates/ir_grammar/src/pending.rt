//! What is still to be read.
ghost use Rattle.std.specs.Prelude.{◌≡◌, ◌∷◌, ◌++◌, [], ◌<◌, drop, length, MatchOption, OnOk};
ghost use Rattle.ir_grammar.specs.Pending.{unread};

use crate::grammar::Symbol;
use std::alloc::{AllocError, Global};

/// The symbols that are still to be read: the rest of the body that is being read, and the rests of those around it.
#[derive(Drop)]
pub(crate) struct Pending<'g> {
    rest: &'g [Symbol],
    /// Outer ones first.
    around: Vec<&'g [Symbol]>,
}

impl<'g> Pending<'g> {
    /// These symbols alone.
    pub(crate) fn new(alloc: Global, symbols: &'g [Symbol]) -> Self
        ensures { unread result ≡ symbols.now }
    {
        Pending {
            rest: symbols,
            around: Vec::new(alloc),
        }
    }

    /// The next symbol, if there is one. It stays.
    pub(crate) fn first(&mut self) -> Option<Symbol>
        ensures same { unread self.new ≡ unread self.old }
        ensures first { MatchOption result (unread self.new ≡ []) (λ symbol. (0 < length self.new.rest.now)
            × (unread self.new ≡ symbol ∷ drop 1 (unread self.new))) }
    {
        while self.rest.is_empty() {
            self.rest = self.around.pop()?;
        }
        Some(self.rest[0])
    }

    /// Goes past the next symbol, which [`Pending::first`] found.
    pub(crate) fn skip(&mut self)
        requires { 0 < length self.old.rest.now }
        ensures { unread self.new ≡ drop 1 (unread self.old) }
    {
        self.rest = &self.rest[1..];
    }

    /// Puts a body before what is still to be read. The only error is that memory is refused.
    pub(crate) fn open(&mut self, body: &'g [Symbol]) -> Result<(), AllocError>
        ensures { OnOk result (unread self.new ≡ body.now ++ unread self.old) }
    {
        // A body of which nothing is left isn't kept: where a part ends its own rule, as in a long list, no room is taken.
        if !self.rest.is_empty() {
            self.around.push(self.rest)?;
        }
        self.rest = body;
        Ok(())
    }
}
