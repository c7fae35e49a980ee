//! A bare text, from its first line on.
ghost use Rattle.std.specs.Prelude.{◌≡◌, ◌++◌, ◌∷◌, [], None, IfOk, OnOk};
ghost use Rattle.std.specs.String.{string_bytes};
ghost use Rattle.outlined_writing.specs.Bare.{IsBare, AddsText, AreNoNames, AreNothing};

use crate::entries::{Beside, Entry, beside_of, origins_of};
use crate::lines::{definitions_of, has_item, split_end};
use crate::names::{given_names, push_named};
use crate::section::{push_mark, push_section};
use ir_hashing::TextKey;
use ir_names::Identifier;
use std::alloc::{AllocError, Global};

/// What a bare text leaves out.
#[derive(Clone, Copy)]
struct Given<'a> {
    beside: &'a [Beside],
    names: &'a [Option<Identifier>],
}

/// The text of the first lines of a bare text.
#[derive(Drop)]
struct Outlining<'a> {
    text: String,
    /// What is said of the items that were marked.
    entries: Vec<Entry<'a>>,
    /// For each item that is left, the number of what stands beside it.
    items: &'a [Option<usize>],
}

impl<'a> Outlining<'a> {
    /// The text of no lines.
    fn new(alloc: Global, items: &'a [Option<usize>]) -> Outlining<'a>
        ensures text { string_bytes result.text ≡ [] }
        ensures entries { result.entries.items ≡ [] }
    {
        Outlining {
            text: String::new(alloc),
            entries: Vec::new(alloc),
            items,
        }
    }

    /// What stands beside the next item, which is not left then.
    fn next_beside(&mut self, given: Given<'a>) -> Option<&'a Beside>
        ensures result { AreNothing given.entry.beside.now → result ≡ None }
        ensures text { self.new.text ≡ self.old.text }
        ensures entries { self.new.entries ≡ self.old.entries }
    {
        let (item, left) = self.items.split_first()?;
        self.items = left;
        let number = (*item)?;
        beside_of(given.beside, number)
    }

    /// Adds an entry and its mark, where there is anything to say.
    fn add_entry(
        &mut self,
        names: Option<String>,
        beside: Option<&'a Beside>,
    ) -> Result<(), AllocError>
        ensures { OnOk result (names ≡ None → beside.entry ≡ None → self.new ≡ self.old) }
    {
        if names.is_none() && beside.is_none() {
            return Ok(());
        }
        self.text.push(' ')?;
        push_mark(&mut self.text, self.entries.len() as u128)?;
        self.entries.push(Entry { names, beside })?;
        Ok(())
    }

    /// Adds a line with an item, up to the place behind its mark.
    fn add_item(&mut self, alloc: Global, given: Given<'a>, body: &str) -> Result<(), AllocError>
        ensures { OnOk result (IsBare given.entry → AddsText self.old self.new body.now) }
    {
        push_named(&mut self.text, given.names, body)?;
        let beside = self.next_beside(given);
        let names = given_names(alloc, given.names, definitions_of(body))?;
        self.add_entry(names, beside)
    }

    /// Adds a line.
    fn add_line(&mut self, alloc: Global, given: Given<'a>, line: &str) -> Result<(), AllocError>
        ensures { OnOk result (IsBare given.entry → AddsText self.old self.new (line.now ++ 10 ∷ [])) }
    {
        if has_item(line) {
            let (body, end) = split_end(line);
            self.add_item(alloc, given, body)?;
            self.text.push_str(end)?;
        } else {
            self.text.push_str(line)?;
        }
        self.text.push('\n')?;
        Ok(())
    }

    /// Adds all lines of a text.
    fn add_lines(&mut self, alloc: Global, given: Given<'a>, plain: &str) -> Result<(), AllocError>
        ensures { OnOk result (IsBare given.entry → AddsText self.old self.new plain.now) }
    {
        let mut rest = plain;
        while let Some((line, behind)) = rest.split_once('\n') {
            self.add_line(alloc, given, line)?;
            rest = behind;
        }
        self.text.push_str(rest)?;
        Ok(())
    }

    /// Adds the section.
    fn add_section(&mut self, alloc: Global, key: TextKey) -> Result<(), AllocError>
        ensures { OnOk result (self.old.entries.items ≡ [] → string_bytes self.new.text ≡ string_bytes self.old.text) }
    {
        let origins = origins_of(alloc, key, self.entries.as_slice())?;
        push_section(&mut self.text, self.entries.as_slice(), &origins)?;
        Ok(())
    }
}

/// A printed module with names, marks and the section of outlined attributes.
///
/// The plain text is the module as it is printed without these, ending in a line feed. A block is an item at its header, an operation at its end:
/// `items` has, for the items in the order of the text, the number of what stands beside each in `beside`, if anything does. `names` has
/// the given name of each value by its number, if it has one. What a number leads to outside of these is not there.
///
/// A value `v3` with the given name `x` is written `x_v3`. An item is marked where one of the values that it defines has a given name, or it has a
/// note or an origin. Where there is a mark, the section follows the text. The key is one that has read what the origins come from.
///
/// # Errors
/// Where memory is refused.
pub fn outlined_text(
    alloc: Global,
    key: TextKey,
    plain: &str,
    items: &[Option<usize>],
    beside: &[Beside],
    names: &[Option<Identifier>],
) -> Result<String, AllocError>
    ensures empty { IfOk result (λ text. beside.now ≡ [] → names.now ≡ [] → string_bytes text ≡ plain.now) }
    ensures bare { IfOk result (λ text. AreNothing beside.now → AreNoNames names.now → string_bytes text ≡ plain.now) }
{
    let mut outlining = Outlining::new(alloc, items);
    outlining.add_lines(alloc, Given { beside, names }, plain)?;
    outlining.add_section(alloc, key)?;
    Ok(outlining.text)
}
