//! What the names of a script stand for.
use crate::argument::Argument;
use ir_core::{At, Entity, RegionAt, TypeHandle, ValueAt};
use std::alloc::{AllocError, Global};

/// What the names of a script stand for, and the words for types.
#[derive(Drop)]
pub struct Names<'a> {
    /// The types `integer` and `named`.
    pub types: [TypeHandle; 2],
    /// What is there, the newest last.
    pub known: Vec<(&'a str, Entity)>,
    /// What edits that are still to be made will make, and the numbers of these edits.
    pub promised: Vec<Promise<'a>>,
}

/// A name for what an edit will make.
#[derive(Clone, Copy)]
pub struct Promise<'a> {
    pub name: &'a str,
    /// The edit's number in its list.
    pub number: usize,
    /// What the name stands for in later edits of the list.
    pub meaning: Argument,
}

impl<'a> Names<'a> {
    /// No names.
    pub fn new(alloc: Global, types: [TypeHandle; 2]) -> Names<'a> {
        Names {
            types,
            known: Vec::new(alloc),
            promised: Vec::new(alloc),
        }
    }

    /// What a word stands for, if it stands for anything: a type, a number, `#3` what edit 3 makes, `op.result.0`,
    /// `block.argument.0`, `op.region.0`, or a name.
    pub fn argument(&self, word: &str) -> Option<Argument> {
        match word {
            "integer" => return Some(Argument::Type(self.types[0])),
            "named" => return Some(Argument::Type(self.types[1])),
            "unknown" => return Some(Argument::Type(TypeHandle::new(7))),
            _ => (),
        }
        if let Ok(number) = word.parse() {
            return Some(Argument::Number(number));
        }
        match word.split_once('.') {
            None => self.named(word),
            Some((name, part)) => part_of(self.named(name)?, part),
        }
    }

    /// What a name stands for, the newest of this name.
    fn named(&self, name: &str) -> Option<Argument> {
        if let Some(number) = name.strip_prefix('#') {
            return Some(Argument::Made(number.parse().ok()?));
        }
        if let Some(promise) = self
            .promised
            .iter()
            .rev()
            .find(|promise| promise.name == name)
        {
            return Some(promise.meaning);
        }
        self.entity(name).map(Argument::of)
    }

    /// What is there under a name, the newest of this name.
    pub fn entity(&self, name: &str) -> Option<Entity> {
        let (_, entity) = self.known.iter().rev().find(|entry| entry.0 == name)?;
        Some(*entity)
    }

    /// The name of an entity, or `?` where it has none.
    pub fn word_of(&self, entity: Entity) -> &'a str {
        match self.known.iter().rev().find(|entry| entry.1 == entity) {
            Some((name, _)) => *name,
            None => "?",
        }
    }

    /// The word for a type.
    pub fn type_word(&self, ty: TypeHandle) -> &'static str {
        if ty == self.types[0] {
            "integer"
        } else {
            "named"
        }
    }

    /// Names what the edit with a number will make, by the word of the edit.
    pub fn promise(
        &mut self,
        name: &'a str,
        number: usize,
        command: &str,
    ) -> Result<(), AllocError> {
        let meaning = match command {
            "block" | "entry" => Argument::Block(At::Made(number)),
            "add_region" => Argument::Region(RegionAt::Made(number)),
            "def" | "jump" | "graph" => Argument::Operation(At::Made(number)),
            _ => Argument::Value(ValueAt::Made(number)),
        };
        self.promised.push(Promise {
            name,
            number,
            meaning,
        })?;
        Ok(())
    }

    /// Keeps what the names of edits stand for that were made.
    pub fn keep(&mut self, made: &[Option<Entity>]) -> Result<(), AllocError> {
        for promise in &self.promised {
            if let Some(Some(entity)) = made.get(promise.number) {
                self.known.push((promise.name, *entity))?;
            }
        }
        self.promised.clear();
        Ok(())
    }
}

/// A part of what a name stands for, by the sort of part and its index.
fn part_of(whole: Argument, part: &str) -> Option<Argument> {
    let (sort, index) = part.split_once('.')?;
    let index = index.parse().ok()?;
    match (whole, sort) {
        (Argument::Operation(op), "result") => Some(Argument::Value(ValueAt::ResultOf(op, index))),
        (Argument::Block(block), "argument") => {
            Some(Argument::Value(ValueAt::ArgumentOf(block, index)))
        }
        (Argument::Operation(op), "region") => Some(Argument::Region(RegionAt::RegionOf(
            op, index,
        ))),
        _ => None,
    }
}
