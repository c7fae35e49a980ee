//! Attributes that are printed once.
ghost use Rattle.std.specs.Prelude.{◌≡◌, ◌∷◌, [], ℕ, Bool, IfOk, List, OnOk};
ghost use Rattle.ir_names.specs.Identifier.{text_of};
ghost use Rattle.ir_outlines.specs.Marks.{marked};
ghost use Rattle.ir_outlines.specs.Section.{once_in, once_of, with_distinct};
ghost use Rattle.outline_tables.specs.Tables.{found_under, said_beside};
ghost use Rattle.text_sections.specs.Items.{attributes_in, once_among, said_items, sharing};

use crate::marks::is_marked;
use indexmap::IndexSet;
use ir_hashing::TextKey;
use ir_names::Identifier;
use outline_tables::Outlined;
use std::alloc::{AllocError, Global};
use std::hash::Hash;

/// Attributes, some of which are printed once: each of these has an entry of its own, to which those that are equal lead.
pub trait PrintOnce: Eq + Hash {
    /// Whether an attribute under a key is printed once.
    ghost is_once: { List ℕ → Self → Bool };

    /// Whether it is printed once under a key.
    fn is_once(&self, key: &str) -> bool
        ensures { result ≡ is_once key.now self.now };
}

/// Puts in an attribute that stands under a key, as the last one, where it is printed once and isn't there.
fn add_attribute<'a, A: PrintOnce>(
    once: &mut IndexSet<&'a A, TextKey>,
    key: &Identifier,
    attribute: &'a A,
) -> Result<(), AllocError>
    ensures { OnOk result (attributes_in once.new.keys
        ≡ with_distinct (sharing A.is_once A.eq) (attributes_in once.old.keys) (once_in (sharing A.is_once A.eq) ((text_of key.now, attribute.now) ∷ []))) }
{
    if attribute.is_once(key.as_str()) {
        once.insert(attribute)?;
    }
    Ok(())
}

/// Puts in those of some attributes that are printed once, each that isn't there, as the last one.
fn add_attributes<'a, A: PrintOnce>(
    once: &mut IndexSet<&'a A, TextKey>,
    attributes: &[(&'a Identifier, &'a A)],
) -> Result<(), AllocError>
    ensures { OnOk result (attributes_in once.new.keys
        ≡ with_distinct (sharing A.is_once A.eq) (attributes_in once.old.keys) (once_in (sharing A.is_once A.eq) (found_under attributes.now))) }
{
    for attribute in attributes {
        add_attribute(once, attribute.0, attribute.1)?;
    }
    Ok(())
}

/// Puts in those of an item.
fn add_item<'a, A: PrintOnce, L>(
    once: &mut IndexSet<&'a A, TextKey>,
    item: &Outlined<'a, A, L>,
) -> Result<(), AllocError>
    ensures { OnOk result (attributes_in once.new.keys
        ≡ with_distinct (sharing A.is_once A.eq) (attributes_in once.old.keys) (once_among (sharing A.is_once A.eq) (said_beside item.now ∷ []))) }
{
    if is_marked(item) {
        add_attributes(once, item.attributes.as_slice())?;
    }
    Ok(())
}

/// The attributes of marked items that are printed once, each once, in order of first mention.
pub fn once_of<'a, A: PrintOnce, L>(
    alloc: Global,
    key: TextKey,
    items: &[Outlined<'a, A, L>],
) -> Result<IndexSet<&'a A, TextKey>, AllocError>
    ensures { IfOk result (λ once. attributes_in once.keys ≡ once_of (sharing A.is_once A.eq) (marked (said_items items.now))) }
{
    let mut once = IndexSet::with_hasher(alloc, key);
    for item in items {
        add_item(&mut once, item)?;
    }
    Ok(once)
}
