//! Marks put into a text.
ghost use Rattle.std.specs.Prelude.{◌≡◌, ◌++◌, IfOk, OnOk};
ghost use Rattle.ir_characters.specs.Texts.{codes_of, owned_codes};
ghost use Rattle.text_marking.specs.Putting.{next_place, spaced_mark, with_marks};

use ir_characters::{Characters, Text};
use itoa::Buffer;
use std::alloc::{AllocError, Global};

/// Where the next mark is put into a text of so many characters, behind those before `from`.
fn place_of(offset: usize, from: usize, len: usize) -> usize
    ensures { result ≡ next_place len from offset }
{
    from.max(offset).min(len)
}

/// Puts a mark behind some bytes.
fn push_bytes(bytes: &mut Vec<u8>, number: u64) -> Result<(), AllocError>
    ensures { OnOk result (bytes.new.items ≡ bytes.old.items ++ spaced_mark number) }
{
    let mut digits = Buffer::new();
    bytes.extend_from_slice(b" !")?;
    bytes.extend_from_slice(digits.format(number).as_bytes())
}

/// Puts a mark behind some characters.
fn push_characters(characters: &mut Vec<char>, number: u64) -> Result<(), AllocError>
    ensures { OnOk result (characters.new.items ≡ characters.old.items ++ spaced_mark number) }
{
    let mut digits = Buffer::new();
    characters.extend_from_slice(&[' ', '!'])?;
    for digit in digits.format(number).as_bytes() {
        characters.push(char::from(*digit))?;
    }
    Ok(())
}

/// A text of bytes with these marks.
fn marked_bytes(alloc: Global, bare: &[u8], marks: &[(usize, u64)]) -> Result<Vec<u8>, AllocError>
    ensures { IfOk result (λ all. all.items ≡ with_marks bare.now marks.now) }
{
    let mut all = Vec::new(alloc);
    let mut from = 0;
    for (offset, number) in marks {
        let place = place_of(*offset, from, bare.len());
        all.extend_from_slice(&bare[from..place])?;
        push_bytes(&mut all, *number)?;
        from = place;
    }
    all.extend_from_slice(&bare[from..])?;
    Ok(all)
}

/// A text of characters with these marks.
fn marked_characters(
    alloc: Global,
    bare: &[char],
    marks: &[(usize, u64)],
) -> Result<Vec<char>, AllocError>
    ensures { IfOk result (λ all. all.items ≡ with_marks bare.now marks.now) }
{
    let mut all = Vec::new(alloc);
    let mut from = 0;
    for (offset, number) in marks {
        let place = place_of(*offset, from, bare.len());
        all.extend_from_slice(&bare[from..place])?;
        push_characters(&mut all, *number)?;
        from = place;
    }
    all.extend_from_slice(&bare[from..])?;
    Ok(all)
}

/// The text with marks put in: ` !n` before the character at each offset, in rising order. An offset past the end is the
/// end, and one before that of an earlier mark is that one.
///
/// # Errors
/// There may be no memory for the text.
pub fn put_marks(
    alloc: Global,
    bare: Text,
    marks: &[(usize, u64)],
) -> Result<Characters, AllocError>
    ensures { IfOk result (λ all. owned_codes all ≡ with_marks (codes_of bare.entry) marks.now) }
{
    match bare {
        Text::Bytes(bytes) => Ok(Characters::Bytes(marked_bytes(alloc, bytes, marks)?)),
        Text::Characters(characters) => {
            Ok(Characters::Characters(marked_characters(alloc, characters, marks)?))
        }
    }
}
