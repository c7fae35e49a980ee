//! The names of a scope.
ghost use Rattle.std.specs.Prelude.{◌≡◌, ◌↔◌, [], true, Err, IfOk, OnOk, OnErr, option_map};
ghost use Rattle.ir_names.specs.Identifier.{text_of};
ghost use Rattle.ir_names.specs.Dictionary.{named_entries};
ghost use Rattle.parsed_names.specs.declared.names.DefineError.TheVariants.{MultipleDefinitions};
ghost use Rattle.parsed_names.specs.declared.names.Known.TheVariants.{Defined, Awaited};
ghost use Rattle.parsed_names.specs.Names.{known_of, knowing, Knows, first_awaited, stand_in, is_defined};

use indexmap::IndexMap;
use indexmap::map::Slice;
use ir_hashing::TextKey;
use ir_names::Identifier;
use std::alloc::{AllocError, Global};
use std::marker::Model;
use thiserror::Error;

/// What is known of a name.
#[derive(Clone, Copy, Debug, PartialEq, Eq)]
pub enum Known<V> {
    /// It is defined, and this is its value.
    Defined(V),
    /// It was mentioned and isn't defined yet, and this stands in for its value.
    Awaited(V),
}

/// Why a name wasn't defined.
#[derive(Clone, Copy, Debug, PartialEq, Eq, Error)]
pub enum DefineError {
    /// It is defined already.
    #[error("multiple definitions")]
    MultipleDefinitions,
    /// There is no memory for its text.
    #[error("out of memory")]
    Memory,
}

impl From<AllocError> for DefineError {
    ghost use Rattle.parsed_names.specs.declared.names.DefineError.TheVariants.{Memory};

    ghost from_gives = { λ _ e. e ≡ Memory };

    fn from(_refused: AllocError) -> DefineError {
        DefineError::Memory
    }
}

/// The names of a scope that were mentioned or defined, in the order in which they were mentioned first.
#[derive(Drop)]
pub struct NameScope<V> {
    names: IndexMap<String, Known<V>, TextKey>,
}

impl<V> Model for NameScope<V> {
    ghost use Rattle.std.specs.Prelude.{List, ℕ};
    ghost use Rattle.ir_names.specs.Dictionary.{named_entries};
    ghost use Rattle.parsed_names.specs.Names.{Names};

    ghost Value = { Names V };

    ghost view = { λ scope. named_entries scope.names.entries };
}

impl<V: Copy> NameScope<V> {
    /// The scope without names. Its table hashes by a key that the text gives, so that no text can choose names that are slow to tell apart.
    pub fn new(alloc: Global, key: TextKey) -> NameScope<V>
        ensures { result ≡ [] }
    {
        NameScope {
            names: IndexMap::with_hasher(alloc, key),
        }
    }

    /// What is known of a name.
    pub fn get(&self, name: &str) -> Option<Known<V>>
        ensures { result ≡ known_of self.now name.now }
    {
        self.names.get(name).copied()
    }

    /// Has something known of a name from here on.
    fn know(&mut self, name: Identifier, known: Known<V>) -> Result<(), AllocError>
        ensures known { OnOk result (self.new ≡ knowing self.old (text_of name) known) }
        ensures others { OnOk result (Knows self.old self.new (text_of name) known) }
        ensures err { OnErr result (self.new ≡ self.old) }
    {
        self.names.insert(name.into_string(), known)?;
        Ok(())
    }

    /// Awaits the definition of a name that isn't known: something stands in for its value until then.
    ///
    /// # Errors
    /// Without memory. Nothing is changed then.
    pub fn await_definition(&mut self, name: Identifier, stand_in: V) -> Result<(), AllocError>
        requires { known_of self.old (text_of name) ≡ None }
        ensures known { OnOk result (self.new ≡ knowing self.old (text_of name) (Awaited stand_in)) }
        ensures others { OnOk result (Knows self.old self.new (text_of name) (Awaited stand_in)) }
        ensures err { OnErr result (self.new ≡ self.old) }
    {
        self.know(name, Known::Awaited(stand_in))
    }

    /// Defines a name, and answers what stood in for its value. The name keeps its place in the order of first mention.
    ///
    /// # Errors
    /// `MultipleDefinitions` where the name is defined already, also without memory; else `Memory`. Nothing is changed then.
    pub fn define(&mut self, name: Identifier, value: V) -> Result<Option<V>, DefineError>
        ensures defined { OnOk result (self.new ≡ knowing self.old (text_of name) (Defined value)) }
        ensures others { OnOk result (Knows self.old self.new (text_of name) (Defined value)) }
        ensures replaced { IfOk result (λ replaced. replaced ≡ stand_in (known_of self.old (text_of name))) }
        ensures twice { (result ≡ Err MultipleDefinitions) ↔ (is_defined (known_of self.old (text_of name)) ≡ true) }
        ensures err { OnErr result (self.new ≡ self.old) }
    {
        let replaced = match self.get(name.as_str()) {
            Some(Known::Defined(_)) => return Err(DefineError::MultipleDefinitions),
            Some(Known::Awaited(stand_in)) => Some(stand_in),
            None => None,
        };
        self.know(name, Known::Defined(value))?;
        Ok(replaced)
    }

    /// The first name, in the order of first mention, that isn't defined.
    pub fn first_awaited(&self) -> Option<&str>
        ensures { option_map (λ name. name.now) result ≡ option_map (λ e. e.0) (first_awaited self.now) }
    {
        first_awaited_of(self.names.as_slice())
    }
}

/// The first name of these that isn't defined.
fn first_awaited_of<'a, V>(names: Slice<'a, String, Known<V>>) -> Option<&'a str>
    ensures { option_map (λ name. name.now) result ≡ option_map (λ e. e.0) (first_awaited (named_entries names.entry)) }
{
    let mut names = names;
    while let Some(((name, known), rest)) = names.split_first() {
        if matches!(known, Known::Awaited(_)) {
            return Some(name.as_str());
        }
        names = rest;
    }
    None
}
