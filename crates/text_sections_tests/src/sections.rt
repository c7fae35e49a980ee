//! Sections that are printed.
use crate::saids::Said;
use ir_hashing::TextKey;
use ir_names::Identifier;
use outline_tables::Outlined;
use std::alloc::Global;
use std::test::Fail;
use text_sections::Section;
use text_writers::{Printable, State};

/// The text of the section of items, behind the marks of these.
fn printed(alloc: Global, items: &[Outlined<'_, Said, &'static str>]) -> Result<String, Fail> {
    let section = Section::new(alloc, TextKey::new(), items)?;
    let mut out = String::new(alloc);
    for mark in section.marks(alloc)?.iter() {
        match mark {
            Some(number) => write!(&mut out, "!{number} ")?,
            None => out.push_str("- ")?,
        }
    }
    section.fmt(&(), &mut State::new(), &mut out)?;
    Ok(out)
}

/// An item with two attributes under two keys, and where it comes from.
fn item<'a>(
    alloc: Global,
    keys: &'a [Identifier; 2],
    first: &'a Said,
    second: &'a Said,
    location: Option<&'a &'static str>,
) -> Result<Outlined<'a, Said, &'static str>, Fail> {
    let [a, b] = keys;
    let mut attributes = Vec::new(alloc);
    attributes.push((a, first))?;
    attributes.push((b, second))?;
    Ok(Outlined {
        location,
        attributes,
    })
}

/// An item with nothing beside it but where it comes from, if that is known.
fn bare<'a>(alloc: Global, location: Option<&'a &'static str>) -> Outlined<'a, Said, &'static str> {
    Outlined {
        location,
        attributes: Vec::new(alloc),
    }
}

/// Four items in a row.
fn listed<'a>(
    alloc: Global,
    first: Outlined<'a, Said, &'static str>,
    second: Outlined<'a, Said, &'static str>,
    third: Outlined<'a, Said, &'static str>,
    fourth: Outlined<'a, Said, &'static str>,
) -> Result<Vec<Outlined<'a, Said, &'static str>>, Fail> {
    let mut items = Vec::new(alloc);
    items.push(first)?;
    items.push(second)?;
    items.push(third)?;
    items.push(fourth)?;
    Ok(items)
}

/// The text of four items: one with two attributes that are printed once, one with nothing beside it, one with a note and one of these attributes,
/// and one with a location alone.
fn printed_four<'a>(
    alloc: Global,
    keys: &'a [Identifier; 2],
    said: &'a [Said; 4],
    places: &'a [&'static str; 2],
) -> Result<String, Fail> {
    let [note, origin, same, other] = said;
    let [unknown, there] = places;
    let items = listed(
        alloc,
        item(alloc, keys, other, origin, Some(unknown))?,
        bare(alloc, None),
        item(alloc, keys, note, same, None)?,
        bare(alloc, Some(there)),
    )?;
    printed(alloc, items.as_slice())
}

#[test]
fn marked_items_have_entries(rt: HostRuntime) -> Result<(), Fail> {
    let alloc = rt.alloc();
    let keys = [
        Identifier::try_new(alloc, "a")?,
        Identifier::try_new(alloc, "b")?,
    ];
    let said = [
        Said::Note("note"),
        Said::Origin("origin"),
        Said::Origin("origin"),
        Said::Origin("other"),
    ];
    let text = printed_four(alloc, &keys, &said, &["?", "there"])?;
    let expected =
        "!0 - !1 !2 \noutlined_attributes:\n!0 = @[?], [a = !3, b = !4]\n!1 = [a = note, b = !4]\n!2 = @[there], []\n!3 = other\n!4 = origin\n";
    assert_eq!(rt; text.as_str(), expected);
    Ok(())
}

#[test]
fn nothing_is_printed_for_items_without_marks(rt: HostRuntime) -> Result<(), Fail> {
    let alloc = rt.alloc();
    let mut items = Vec::new(alloc);
    items.push(bare(alloc, None))?;
    assert_eq!(rt; printed(alloc, items.as_slice())?.as_str(), "- ");
    Ok(())
}
