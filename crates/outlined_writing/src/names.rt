//! Given names of values.
ghost use Rattle.std.specs.Prelude.{◌≡◌, ◌++◌, false, None, Some, IfOk, OnOk, if◌then◌else◌};
ghost use Rattle.std.specs.String.{string_bytes};
ghost use Rattle.outlined_writing.specs.Bare.{AreNoNames};

use crate::words::{split_character, split_word, value_number};
use ir_names::Identifier;
use std::alloc::{AllocError, Global};

/// The given name of the value that a word behind a sign is, if it is one and has a name.
fn name_of<'a>(names: &'a [Option<Identifier>], number: usize) -> Option<&'a str>
    ensures { AreNoNames names.now → result ≡ None }
{
    match names.get(number) {
        Some(Some(name)) => Some(name.as_str()),
        Some(None) => None,
        None => None,
    }
}

/// Writes the given name of the value that a word behind a sign is, and a `_`, if it is one and has a name.
fn push_name(
    out: &mut String,
    names: &[Option<Identifier>],
    sign: char,
    word: &str,
) -> Result<(), AllocError>
    ensures { OnOk result (AreNoNames names.now → string_bytes out.new ≡ string_bytes out.old) }
{
    let Some(number) = value_number(sign, word) else {
        return Ok(());
    };
    let Some(name) = name_of(names, number) else {
        return Ok(());
    };
    out.push_str(name)?;
    out.push('_')?;
    Ok(())
}

/// Writes a word that stands behind a sign, with its given name before it where it is a value that has one.
fn push_word(
    out: &mut String,
    names: &[Option<Identifier>],
    sign: char,
    word: &str,
) -> Result<(), AllocError>
    ensures { OnOk result (AreNoNames names.now → string_bytes out.new ≡ string_bytes out.old ++ word.now) }
{
    push_name(out, names, sign, word)?;
    out.push_str(word)?;
    Ok(())
}

/// Writes a text, with its given name before each value that has one.
pub fn push_named(
    out: &mut String,
    names: &[Option<Identifier>],
    text: &str,
) -> Result<(), AllocError>
    ensures { OnOk result (AreNoNames names.now → string_bytes out.new ≡ string_bytes out.old ++ text.now) }
{
    let (first, mut rest) = split_word(text);
    push_word(out, names, ' ', first)?;
    while let Some((sign, behind)) = split_character(rest) {
        out.push(sign)?;
        let (word, left) = split_word(behind);
        push_word(out, names, sign, word)?;
        rest = left;
    }
    Ok(())
}

/// The given names of some values.
#[derive(Drop)]
struct Listed {
    /// The names, `?` for a value without one, with `, ` between them.
    text: String,
    /// Whether one of the values has a name.
    is_given: bool,
}

impl Listed {
    /// The names of no values.
    fn new(alloc: Global) -> Listed
        ensures { result.is_given ≡ false }
    {
        Listed {
            text: String::new(alloc),
            is_given: false,
        }
    }

    /// Adds the name of the value that a word behind a sign is, if it is one.
    fn add(
        &mut self,
        names: &[Option<Identifier>],
        sign: char,
        word: &str,
    ) -> Result<(), AllocError>
        ensures { OnOk result (AreNoNames names.now → self.new.is_given ≡ self.old.is_given) }
    {
        let Some(number) = value_number(sign, word) else {
            return Ok(());
        };
        if !self.text.is_empty() {
            self.text.push_str(", ")?;
        }
        match name_of(names, number) {
            Some(name) => {
                self.is_given = true;
                self.text.push_str(name)?;
            }
            None => self.text.push('?')?,
        }
        Ok(())
    }

    /// Adds the names of all values of a text.
    fn add_all(&mut self, names: &[Option<Identifier>], text: &str) -> Result<(), AllocError>
        ensures { OnOk result (AreNoNames names.now → self.new.is_given ≡ self.old.is_given) }
    {
        let (first, mut rest) = split_word(text);
        self.add(names, ' ', first)?;
        while let Some((sign, behind)) = split_character(rest) {
            let (word, left) = split_word(behind);
            self.add(names, sign, word)?;
            rest = left;
        }
        Ok(())
    }

    /// The names, if one of the values has one.
    fn into_given(self) -> Option<String>
        ensures { result ≡ (if self.is_given then Some self.text else None) }
    {
        if self.is_given { Some(self.text) } else { None }
    }
}

/// The given names of the values of a text, `?` for a value without one, with `, ` between them; if one of the values has a name.
pub fn given_names(
    alloc: Global,
    names: &[Option<Identifier>],
    text: &str,
) -> Result<Option<String>, AllocError>
    ensures { IfOk result (λ given. AreNoNames names.now → given ≡ None) }
{
    let mut listed = Listed::new(alloc);
    listed.add_all(names, text)?;
    Ok(listed.into_given())
}
