//! A text taken apart.
ghost use Rattle.std.specs.Prelude.{◌≡◌, [], None, IfOk, MatchOption, ◌≤◌, length};
ghost use Rattle.ir_characters.specs.Texts.{codes_of, owned_codes};
ghost use Rattle.outlined_texts.specs.Sections.{front_of};
ghost use Rattle.outlined_texts.specs.Splits.{IsSplit};

use crate::searching::find_section;
use ir_characters::{Characters, Text};
use std::alloc::{AllocError, Global};
use text_marking::{Mark, take_marks};

/// A text with a section of outlined attributes, taken apart.
#[derive(Drop)]
pub struct OutlinedText {
    /// The text before the section, with a space in the place of each character of a mark.
    pub front: Characters,
    /// The marks before the section, in the order of the text.
    pub marks: Vec<Mark>,
    /// Where the section begins, in characters from 0, if there is one.
    pub section: Option<usize>,
}

/// The text before a section.
fn front_of(text: Text, section: Option<usize>) -> Text
    requires { MatchOption section Unit (λ start. start ≤ length (codes_of text)) }
    ensures { codes_of result ≡ front_of section (codes_of text.entry) }
{
    match section {
        Some(start) => text.slice(0, start),
        None => text,
    }
}

/// A text taken apart: the text before its section of outlined attributes, with each mark blanked by spaces, its marks, and
/// where the section begins.
///
/// The section begins at the first name `outlined_attributes` that is outside all braces, has a `:` behind it and a token before it,
/// which is neither `@` nor `,`. Where there is none, all of the text is before it.
///
/// The time is linear in the text.
///
/// # Errors
/// There may be no memory for the front or the marks.
pub fn split_outlined(alloc: Global, text: Text) -> Result<OutlinedText, AllocError>
    ensures split { IfOk result (λ split. IsSplit (codes_of text.entry) split) }
    ensures plain { IfOk result (λ split. split.section ≡ None → split.marks.items ≡ []
        → owned_codes split.front ≡ codes_of text.entry) }
{
    let section = find_section(text);
    let taken = take_marks(alloc, front_of(text, section))?;
    Ok(OutlinedText {
        front: taken.bare,
        marks: taken.marks,
        section,
    })
}
