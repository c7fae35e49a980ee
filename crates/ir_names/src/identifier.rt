//! Identifiers: the names of labels, attributes and symbols.
ghost use Rattle.std.specs.Prelude.{◌≡◌, ◌↔◌, ◌<◌, Bool, true, false, List, [], ◌∷◌, if◌then◌else◌, IfOk, IfErr, IsErr};
ghost use Rattle.std.specs.List.{list_all};
ghost use Rattle.std.specs.String.{string_bytes};
ghost use Rattle.std.specs.Str.{chars};
ghost use Rattle.ir_names.specs.Text.{is_first_code, is_later_code, is_identifier, clean_code, front_of, clean_text};

use std::alloc::{AllocError, Global};
use std::fmt;
use std::ops::Add;
use thiserror::Error;

/// A text that matches `[a-zA-Z_][a-zA-Z0-9_]*`.
#[derive(Debug, PartialEq, Eq, PartialOrd, Ord, Hash, Drop)]
pub struct Identifier {
    text: String,
    ghost valid: { is_identifier (string_bytes text) ≡ true },
}

/// The text is no identifier.
#[derive(Clone, Copy, Debug, PartialEq, Eq, Error)]
#[error("not an identifier")]
pub struct InvalidIdentifier;

/// Why no identifier was made.
#[derive(Clone, Copy, Debug, PartialEq, Eq, Error)]
pub enum IdentifierError {
    /// The text is no identifier.
    #[error(transparent)]
    Invalid(InvalidIdentifier),
    /// There is no memory for the text.
    #[error("out of memory")]
    Memory,
}

impl From<AllocError> for IdentifierError {
    ghost use Rattle.ir_names.specs.declared.identifier.IdentifierError.TheVariants.{Memory};

    ghost from_gives = { λ _ e. e ≡ Memory };

    fn from(_error: AllocError) -> IdentifierError {
        IdentifierError::Memory
    }
}

/// Whether an identifier can begin with the character.
fn is_first(character: char) -> bool
    ensures { result ≡ is_first_code character }
{
    matches!(character, 'a'..='z' | 'A'..='Z' | '_')
}

/// Whether an identifier can have the character behind its first.
fn is_later(character: char) -> bool
    ensures { result ≡ is_later_code character }
{
    is_first(character) || matches!(character, '0'..='9')
}

/// Whether an identifier can have the characters behind its first.
fn are_later(characters: &[char]) -> bool
    ensures { result ≡ list_all is_later_code characters.now }
{
    characters.iter().all(|character| is_later(*character))
}

/// The same of bytes.
fn are_later_bytes(bytes: &[u8]) -> bool
    ensures { result ≡ list_all is_later_code bytes.now }
{
    bytes.iter().all(|byte| is_later(char::from(*byte)))
}

/// Whether the characters are those of an identifier.
fn are_valid(characters: &[char]) -> bool
    ensures { result ≡ is_identifier characters.now }
{
    match characters {
        [] => false,
        [first, rest @ ..] => is_first(*first) && are_later(rest),
    }
}

/// The character where an identifier can have it, else `_`.
fn clean_character(character: char) -> char
    ensures code { result ≡ clean_code character }
    ensures small { result < 128 }
{
    if is_later(character) { character } else { '_' }
}

/// Whether no identifier begins with the characters, also once each is clean.
fn needs_front(characters: &[char]) -> bool
    ensures { (if result then 95 ∷ [] else []) ≡ front_of characters.now }
{
    match characters {
        [] => true,
        [first, ..] => matches!(*first, '0'..='9'),
    }
}

/// The identifier of characters, each made clean.
fn clean_characters(alloc: Global, characters: &[char]) -> Result<Identifier, AllocError>
    ensures { IfOk result (λ id. string_bytes id.text ≡ clean_text characters.now) }
{
    let mut text = String::new(alloc);
    if needs_front(characters) {
        text.push('_')?;
    }
    for character in characters {
        text.push(clean_character(*character))?;
    }
    Ok(Identifier { text })
}

impl Identifier {
    ghost use Rattle.ir_names.specs.Identifier.{text_of, invalid};
    ghost use Rattle.ir_names.specs.Legaliser.{numbered};

    /// Whether the text matches `[a-zA-Z_][a-zA-Z0-9_]*`.
    pub fn is_valid(text: &str) -> bool
        ensures { result ≡ is_identifier text.now }
    {
        match text.as_bytes() {
            [] => false,
            [first, rest @ ..] => is_first(char::from(*first)) && are_later_bytes(rest),
        }
    }

    /// The identifier with this text. A text that is no identifier is refused, also where there
    /// is no memory.
    pub fn try_new(alloc: Global, text: &str) -> Result<Identifier, IdentifierError>
        ensures text { IfOk result (λ id. text_of id ≡ text.now) }
        ensures invalid { (result ≡ invalid) ↔ (is_identifier text.now ≡ false) }
    {
        if !Identifier::is_valid(text) {
            return Err(IdentifierError::Invalid(InvalidIdentifier));
        }
        Ok(Identifier {
            text: String::from_str(alloc, text)?,
        })
    }

    /// The identifier with this text, which is one.
    pub fn new(alloc: Global, text: &str) -> Result<Identifier, AllocError>
        requires { is_identifier text.now ≡ true }
        ensures { IfOk result (λ id. text_of id ≡ text.now) }
    {
        Ok(Identifier {
            text: String::from_str(alloc, text)?,
        })
    }

    /// The identifier with this text, which becomes its own. A text that is no identifier is refused.
    pub fn try_from_string(text: String) -> Result<Identifier, InvalidIdentifier>
        ensures text { IfOk result (λ id. text_of id ≡ string_bytes text) }
        ensures invalid { IsErr result ↔ (is_identifier (string_bytes text) ≡ false) }
    {
        if !Identifier::is_valid(text.as_str()) {
            return Err(InvalidIdentifier);
        }
        Ok(Identifier { text })
    }

    /// The identifier with these characters, refused as by `try_new`.
    pub fn from_chars(alloc: Global, chars: &[char]) -> Result<Identifier, IdentifierError>
        ensures text { IfOk result (λ id. text_of id ≡ chars.now) }
        ensures invalid { (result ≡ invalid) ↔ (is_identifier chars.now ≡ false) }
    {
        if !are_valid(chars) {
            return Err(IdentifierError::Invalid(InvalidIdentifier));
        }
        let mut text = String::new(alloc);
        for character in chars {
            text.push(*character)?;
        }
        Ok(Identifier { text })
    }

    /// An identifier like this text: each character that it can't have is `_`, and `_` stands in
    /// front where the text is empty or begins with a digit.
    pub fn clean(alloc: Global, source: &str) -> Result<Identifier, AllocError>
        ensures { IfOk result (λ id. text_of id ≡ clean_text (chars source.now)) }
    {
        let characters: Vec<char> = source.chars().collect(alloc)?;
        clean_characters(alloc, &characters)
    }

    /// Its text.
    pub fn as_str(&self) -> &str
        ensures text { result.now ≡ text_of self.now }
        ensures valid { is_identifier result.now ≡ true }
    {
        self.text.as_str()
    }

    /// An identifier with the same text.
    pub fn try_clone(&self) -> Result<Identifier, AllocError>
        ensures { IfOk result (λ id. text_of id ≡ text_of self.now) }
    {
        Ok(Identifier {
            text: self.text.clone()?,
        })
    }

    /// The identifier, `_` and a number.
    pub(crate) fn with_number(&self, number: u64) -> Result<Identifier, AllocError>
        ensures { IfOk result (λ id. text_of id ≡ numbered (text_of self.now) number) }
    {
        let digits = format!(in *self.text.allocator(); "{number}")?;
        let longer = (self.try_clone()? + "_")?;
        longer + digits.as_str()
    }

    /// Its text, as a string of its own.
    pub fn into_string(self) -> String
        ensures text { string_bytes result ≡ text_of self }
    {
        let Identifier { text } = self;
        text
    }
}

/// The identifier with this text, which is one.
pub fn ident(alloc: Global, text: &str) -> Result<Identifier, AllocError>
    requires { is_identifier text.now ≡ true }
    ensures { IfOk result (λ id. string_bytes id.text ≡ text.now) }
{
    Identifier::new(alloc, text)
}

impl Add<&str> for Identifier {
    type Output = Result<Identifier, AllocError>;

    ghost use Rattle.std.specs.Prelude.{◌++◌};
    ghost use Rattle.ir_names.specs.Identifier.{text_of};

    ghost can_add = { λ _ rest. list_all is_later_code rest.now ≡ true };

    ghost add_gives = { λ name rest result. IfOk result (λ id. text_of id ≡ text_of name ++ rest.now) };

    /// The identifier of both texts, one behind the other.
    fn add(self, rest: &str) -> Result<Identifier, AllocError> {
        let Identifier { mut text } = self;
        text.push_str(rest)?;
        Ok(Identifier { text })
    }
}

impl Add<&Identifier> for Identifier {
    type Output = Result<Identifier, AllocError>;

    ghost use Rattle.std.specs.Prelude.{◌++◌};
    ghost use Rattle.ir_names.specs.Identifier.{text_of};

    ghost add_gives = { λ name rest result. IfOk result (λ id. text_of id ≡ text_of name ++ text_of rest.now) };

    /// The identifier of both texts, one behind the other.
    fn add(self, rest: &Identifier) -> Result<Identifier, AllocError> {
        self + rest.as_str()
    }
}

impl fmt::Display for Identifier {
    ghost use Rattle.std.specs.Prelude.{Some};
    ghost use Rattle.ir_names.specs.Identifier.{text_of};

    ghost output = { λ id. Some (text_of id) };

    fn fmt<W: fmt::Write>(&self, f: &mut fmt::Formatter<W>) -> fmt::Result {
        f.write_str(self.as_str())
    }
}
