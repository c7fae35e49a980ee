//! Answers as texts.
use crate::names::Names;
use ir_core::{BasicBlock, Entity, Identifier, Operation, Ptr, Region, TypeHandle, Use, Value};
use std::alloc::{AllocError, Global};
use std::fmt::Write;

/// What can have a name.
pub trait Nameable: Copy {
    /// It as an entity.
    fn entity(self) -> Entity;
}

impl Nameable for Ptr<Operation> {
    fn entity(self) -> Entity {
        Entity::Operation(self)
    }
}

impl Nameable for Ptr<BasicBlock> {
    fn entity(self) -> Entity {
        Entity::Block(self)
    }
}

impl Nameable for Ptr<Region> {
    fn entity(self) -> Entity {
        Entity::Region(self)
    }
}

impl Nameable for Value {
    fn entity(self) -> Entity {
        Entity::Value(self)
    }
}

/// Adds a word, behind a space where there is one already.
fn push_word(text: &mut String, word: &str) -> Result<(), AllocError> {
    if !text.is_empty() {
        text.push(' ')?;
    }
    text.push_str(word)
}

/// Adds the names of these, in this order.
fn push_names<T: Nameable>(
    text: &mut String,
    names: &Names,
    items: &[T],
) -> Result<(), AllocError> {
    for item in items {
        push_word(text, names.word_of(item.entity()))?;
    }
    Ok(())
}

/// The names of these, in this order.
pub fn names_of<T: Nameable>(
    alloc: Global,
    names: &Names,
    items: &[T],
) -> Result<Option<String>, AllocError> {
    let mut text = String::new(alloc);
    push_names(&mut text, names, items)?;
    Ok(Some(text))
}

/// The names of what was asked for, in this order.
pub fn names_in<T: Nameable>(
    alloc: Global,
    names: &Names,
    items: Result<Vec<T>, AllocError>,
) -> Result<Option<String>, AllocError> {
    names_of(alloc, names, &items?)
}

/// Adds the words for these types, in this order.
fn push_types(text: &mut String, names: &Names, types: &[TypeHandle]) -> Result<(), AllocError> {
    for ty in types {
        push_word(text, names.type_word(*ty))?;
    }
    Ok(())
}

/// The words for the types that were asked for, in this order.
pub fn type_words(
    alloc: Global,
    names: &Names,
    types: Result<Vec<TypeHandle>, AllocError>,
) -> Result<Option<String>, AllocError> {
    let mut text = String::new(alloc);
    push_types(&mut text, names, &types?)?;
    Ok(Some(text))
}

/// A use by the names of its user and what is used, in the order of which uses are written.
type NamedUse<'a> = (&'a str, usize, &'a str);

/// Uses by their names, in order.
fn named_uses<'a, T: Nameable>(
    alloc: Global,
    names: &Names<'a>,
    uses: &[Use<T>],
) -> Result<Vec<NamedUse<'a>>, AllocError> {
    let mut places = Vec::new(alloc);
    for place in uses {
        let user = names.word_of(Entity::Operation(place.user_op));
        places.push((user, place.index, names.word_of(place.def.entity())))?;
    }
    places.sort()?;
    Ok(places)
}

/// Adds uses as `user.index:definition`.
fn push_places(text: &mut String, places: &[NamedUse]) -> Result<(), AllocError> {
    for (user, index, def) in places {
        write!(text, "{user}.{index}:{def} ")?;
    }
    Ok(())
}

/// The uses that were asked for as `user.index:definition`, in the order of users' names and indices.
pub fn places<T: Nameable>(
    alloc: Global,
    names: &Names,
    uses: Result<Vec<Use<T>>, AllocError>,
) -> Result<Option<String>, AllocError> {
    let places = named_uses(alloc, names, &uses?)?;
    let mut text = String::new(alloc);
    push_places(&mut text, &places)?;
    Ok(Some(text))
}

/// The name that was asked for.
pub fn spelt(name: Result<Identifier, AllocError>) -> Result<Option<String>, AllocError> {
    Ok(Some(name?.into_string()))
}

/// The name that was asked for, if there is one.
pub fn spelt_or_none(
    alloc: Global,
    name: Result<Option<Identifier>, AllocError>,
) -> Result<Option<String>, AllocError> {
    match name? {
        Some(name) => Ok(Some(name.into_string())),
        None => plain(alloc, "none"),
    }
}

/// A text that doesn't depend on anything.
pub fn plain(alloc: Global, text: &str) -> Result<Option<String>, AllocError> {
    Ok(Some(String::from_str(alloc, text)?))
}

/// A number.
pub fn number(alloc: Global, number: usize) -> Result<Option<String>, AllocError> {
    Ok(Some(format!(in alloc; "{number}")?))
}
