//! The marks of items: where they stand, and what they lead to.
use crate::items::Item;
use crate::rules::is_known;
use crate::sections::Entries;
use ir_characters::Text;
use ir_names::Identifier;
use ir_tokens::{ScopeCause, place_after};
use irkit_refusals::Refusal;
use kit::Kit;
use kit_ops::{KitOp, keys};
use outline_tables::{Entry, Reference};
use outline_values::OutlinedValue;
use outlined_writing::Beside;
use std::alloc::{AllocError, Global};
use text_dialect::TextDialect;
use text_marking::Mark;

/// How many of the marks stand where they may, which belong to these items: up to the first that no item has or whose number isn't
/// below 2^64, or that is the second one of an item.
pub(crate) fn count_placed(marks: &[Mark], items: &[Option<usize>]) -> usize {
    let mut count: usize = 0;
    let mut before: Option<usize> = None;
    for (mark, item) in marks.iter().zip(items) {
        if mark.number.is_none() || item.is_none() || before == Some(mark.tokens_before) {
            break;
        }
        before = Some(mark.tokens_before);
        count = count.saturating_add(1);
    }
    count
}

/// A fault of marks, at a place of the text. Of several at one place the one with the smaller order is named.
#[derive(Clone, Copy)]
pub(crate) struct MarkFault {
    pub(crate) place: usize,
    order: u8,
    cause: ScopeCause,
}

impl MarkFault {
    /// The fault as it is told, of a text with these characters.
    pub(crate) fn refusal(self, text: Text) -> Refusal {
        let (line, column) = place_after(text.slice(0, self.place.min(text.len())));
        Refusal::Scope(line, column, self.cause)
    }

    fn precedes(self, other: MarkFault) -> bool {
        self.place < other.place || (self.place == other.place && self.order < other.order)
    }
}

/// What marks lead to, as far as they were looked up.
#[derive(Drop)]
pub(crate) struct Resolved {
    pub(crate) beside: Vec<Beside>,
    /// Of each item the number of what stands beside it.
    pub(crate) of_items: Vec<Option<usize>>,
    /// The name of each definition.
    pub(crate) names: Vec<Option<Identifier>>,
    /// The first operation that has, or a block of which has, what none may have.
    pub(crate) broken: Option<usize>,
    fault: Option<MarkFault>,
    inner: Option<MarkFault>,
}

/// Whether a kind of operations has an attribute of its own under a key.
fn is_own(kind: Option<u8>, key: &str) -> bool {
    let Some(number) = kind else {
        return false;
    };
    match Kit::op_kind_at(number as usize) {
        Some(KitOp::Module) => key == keys::SYMBOL_NAME,
        Some(KitOp::Func) => key == keys::SYMBOL_NAME || key == keys::FUNCTION_TYPE,
        Some(KitOp::Constant) => key == keys::CONSTANT_VALUE,
        Some(KitOp::CondBr) => key == keys::SEGMENT_SIZES,
        Some(KitOp::Call) => key == keys::CALLEE || key == keys::CALLEE_TYPE,
        _ => false,
    }
}

/// The single attribute that stands under a key, or that its mark leads to.
fn value_of<'a>(
    entries: &'a Entries,
    reference: &'a Reference<OutlinedValue>,
) -> Option<&'a OutlinedValue> {
    match reference {
        Reference::Here(value) => Some(value),
        Reference::AtMark(mark) => match entries.entry(*mark) {
            Some(Entry::Single(value)) => Some(value),
            _ => None,
        },
    }
}

/// The marks of a text: where its section begins, and all of them.
#[derive(Clone, Copy)]
pub(crate) struct Marks<'a> {
    pub(crate) bare: Text<'a>,
    pub(crate) all: &'a [Mark],
}

/// Whether the first visible character from a place on is this one.
fn is_next(text: Text, from: usize, sign: char) -> bool {
    for place in from..text.len() {
        if !text.at(place).is_whitespace() {
            return text.at(place) == sign;
        }
    }
    false
}

impl Marks<'_> {
    /// The place of a mark in an entry, of which so many marks stand before it.
    fn place_in(&self, entry: u64, before: usize) -> usize {
        let mut left: Option<usize> = None;
        for mark in self.all {
            match left {
                Some(0) => return mark.start,
                Some(more) => left = Some(more.saturating_sub(1)),
                None => {
                    if mark.number == Some(entry) && is_next(self.bare, mark.start, '=') {
                        left = Some(before);
                    }
                }
            }
        }
        self.bare.len()
    }
}

impl Resolved {
    /// Nothing has been looked up, and definitions have these names.
    pub(crate) fn new(
        alloc: Global,
        items: usize,
        names: Vec<Option<Identifier>>,
    ) -> Result<Resolved, AllocError> {
        let mut of_items = Vec::new(alloc);
        for _item in 0..items {
            of_items.push(None)?;
        }
        Ok(Resolved {
            beside: Vec::new(alloc),
            of_items,
            names,
            broken: None,
            fault: None,
            inner: None,
        })
    }

    /// The fault that is named, if there is one.
    pub(crate) fn named(&self) -> Option<MarkFault> {
        match self.fault {
            Some(fault) => Some(fault),
            None => self.inner,
        }
    }

    fn refuse(&mut self, place: usize, order: u8, cause: ScopeCause) {
        let fault = MarkFault {
            place,
            order,
            cause,
        };
        match self.fault {
            Some(other) => {
                if fault.precedes(other) {
                    self.fault = Some(fault);
                }
            }
            None => self.fault = Some(fault),
        }
    }

    fn refuse_inner(&mut self, place: usize) {
        let fault = MarkFault {
            place,
            order: 0,
            cause: ScopeCause::UnknownOutline,
        };
        match self.inner {
            Some(other) => {
                if fault.precedes(other) {
                    self.inner = Some(fault);
                }
            }
            None => self.inner = Some(fault),
        }
    }

    /// An operation has, or a block of it has, what none may have.
    fn break_rule(&mut self, operation: usize) {
        match self.broken {
            Some(first) => self.broken = Some(first.min(operation)),
            None => self.broken = Some(operation),
        }
    }

    /// Gives a definition its name.
    fn rename(&mut self, index: usize, name: Option<Identifier>) {
        if let Some(slot) = self.names.get_mut(index) {
            *slot = name;
        }
    }

    /// Gives the values of an item these names.
    fn rename_all(&mut self, item: Item, names: &[Option<Identifier>]) -> Result<(), AllocError> {
        for (index, name) in names.iter().enumerate() {
            let name = match name {
                Some(name) => Some(name.try_clone()?),
                None => None,
            };
            self.rename(item.first.saturating_add(index), name);
        }
        Ok(())
    }

    /// What stands beside an item, which may be nothing so far.
    fn beside(&mut self, number: usize) -> Result<Option<&mut Beside>, AllocError> {
        let Some(slot) = self.of_items.get_mut(number) else {
            return Ok(None);
        };
        let index = match *slot {
            Some(index) => index,
            None => {
                let index = self.beside.len();
                self.beside.push(Beside {
                    note: None,
                    origin: None,
                })?;
                *slot = Some(index);
                index
            }
        };
        Ok(self.beside.get_mut(index))
    }

    /// Puts a note or an origin beside an item.
    fn put(&mut self, number: usize, value: &OutlinedValue) -> Result<(), AllocError> {
        match value {
            OutlinedValue::Note(text) => {
                let text = text.clone()?;
                if let Some(beside) = self.beside(number)? {
                    beside.note = Some(text);
                }
            }
            OutlinedValue::Origin(text) => {
                let text = text.clone()?;
                if let Some(beside) = self.beside(number)? {
                    beside.origin = Some(text);
                }
            }
            _ => {}
        }
        Ok(())
    }

    /// Gives an item what stands under a key of its entry. Its mark is at a place.
    fn add(
        &mut self,
        item: Item,
        number: usize,
        place: usize,
        key: &str,
        value: &OutlinedValue,
    ) -> Result<(), AllocError> {
        if key == keys::GIVEN_NAMES {
            if let OutlinedValue::Names(names) = value {
                if names.len() == item.values {
                    return self.rename_all(item, names.as_slice());
                }
            }
            self.refuse(place, 1, ScopeCause::GivenNamesMismatch);
            return Ok(());
        }
        if is_own(item.kind, key) {
            self.refuse(place, 2, ScopeCause::AttributeRedefined);
            return Ok(());
        }
        if !is_known(key, value) {
            self.break_rule(item.operation);
            return Ok(());
        }
        self.put(number, value)
    }

    /// Looks up the mark of an item.
    pub(crate) fn look_up(
        &mut self,
        entries: &Entries,
        marks: Marks<'_>,
        mark: Mark,
        item: Item,
        number: usize,
    ) -> Result<(), AllocError> {
        let index = mark.number.unwrap_or(0);
        let Some(Entry::Bracketed { attributes, .. }) = entries.entry(index) else {
            self.refuse(mark.start, 0, ScopeCause::UnknownOutline);
            return Ok(());
        };
        let mut before = 0usize;
        for (key, reference) in attributes {
            match value_of(entries, reference) {
                Some(value) => self.add(item, number, mark.start, key.as_str(), value)?,
                None => self.refuse_inner(marks.place_in(index, before)),
            }
            if let Reference::AtMark(_) = reference {
                before = before.saturating_add(1);
            }
        }
        Ok(())
    }
}
