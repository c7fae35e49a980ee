//! The items of a text: its operations and blocks, by what reading did.
use ir_grammar::grammar::{Action, Event};
use std::alloc::{AllocError, Global};

/// An operation or a block of a text.
#[derive(Clone, Copy)]
pub(crate) struct Item {
    /// Its mark stands behind so many tokens.
    pub(crate) end: usize,
    /// The number of its kind, if it is an operation.
    pub(crate) kind: Option<u8>,
    /// The first of its results or arguments among the definitions of the text.
    pub(crate) first: usize,
    /// How many results or arguments it has.
    pub(crate) values: usize,
    /// How many operations begin before it, or before the operation that the block is in.
    pub(crate) operation: usize,
}

/// What a text has.
#[derive(Drop)]
pub(crate) struct Items {
    /// Its operations and blocks, in the order in which their marks would stand.
    pub(crate) items: Vec<Item>,
    /// The token of the name of each result and argument, in the order of the text.
    pub(crate) definitions: Vec<usize>,
}

/// How far a text has been gone through.
#[derive(Drop)]
struct Walk {
    found: Items,
    /// The operations that have begun and not ended, the innermost last.
    open: Vec<Item>,
    taken: usize,
    /// How many operations have begun.
    begun: usize,
    /// How many names stand before what begins next.
    pending: usize,
}

impl Walk {
    fn new(alloc: Global) -> Walk {
        Walk {
            found: Items {
                items: Vec::new(alloc),
                definitions: Vec::new(alloc),
            },
            open: Vec::new(alloc),
            taken: 0,
            begun: 0,
            pending: 0,
        }
    }

    /// Takes the name that was read last for that of a result or an argument.
    fn define(&mut self) -> Result<(), AllocError> {
        self.pending = self.pending.saturating_add(1);
        self.found.definitions.push(self.taken.saturating_sub(1))?;
        Ok(())
    }

    /// An item of a kind that has the names which stand before it.
    fn item(&mut self, kind: Option<u8>, operation: usize) -> Item {
        let values = self.pending;
        self.pending = 0;
        Item {
            end: self.taken,
            kind,
            first: self.found.definitions.len().saturating_sub(values),
            values,
            operation,
        }
    }

    /// Begins an operation.
    fn begin(&mut self, kind: u8) -> Result<(), AllocError> {
        let item = self.item(Some(kind), self.begun);
        self.begun = self.begun.saturating_add(1);
        self.open.push(item)?;
        Ok(())
    }

    /// Ends the header of a block. Its mark stands before the `:` that was read last.
    fn head(&mut self) -> Result<(), AllocError> {
        let operation = match self.open.last() {
            Some(around) => around.operation,
            None => 0,
        };
        let item = self.item(None, operation);
        self.found.items.push(Item {
            end: self.taken.saturating_sub(1),
            ..item
        })?;
        Ok(())
    }

    /// Ends an operation.
    fn end(&mut self) -> Result<(), AllocError> {
        match self.open.pop() {
            Some(item) => self.found.items.push(Item {
                end: self.taken,
                ..item
            })?,
            None => {}
        }
        Ok(())
    }

    fn follow(&mut self, event: Event) -> Result<(), AllocError> {
        match event {
            Event::Took => {
                self.taken = self.taken.saturating_add(1);
                Ok(())
            }
            Event::Did(Action::Result) => self.define(),
            Event::Did(Action::Argument) => self.define(),
            Event::Did(Action::Operation(kind)) => self.begin(kind),
            Event::Did(Action::Header) => self.head(),
            Event::Did(Action::EndOperation) => self.end(),
            Event::Did(_) => Ok(()),
        }
    }
}

/// The items of a text of which reading did this.
pub(crate) fn items_of(alloc: Global, events: &[Event]) -> Result<Items, AllocError> {
    let mut walk = Walk::new(alloc);
    for event in events {
        walk.follow(*event)?;
    }
    Ok(walk.found)
}

/// The way to an operation that is being sought: of each region, block and operation around it how many stand before it.
#[derive(Drop)]
struct Way {
    children: Vec<usize>,
    /// How many operations have begun.
    begun: usize,
}

impl Way {
    /// One more of those at the innermost level.
    fn next(&mut self) {
        if let Some(last) = self.children.last_mut() {
            *last = last.saturating_add(1);
        }
    }

    /// Goes in, where nothing has been met so far. Numbers are counted from 1 here.
    fn enter(&mut self) -> Result<(), AllocError> {
        self.children.push(0)?;
        Ok(())
    }

    fn leave(&mut self) {
        self.children.pop();
    }

    fn follow(&mut self, action: Action) -> Result<(), AllocError> {
        match action {
            Action::Operation(_) => {
                self.next();
                self.begun = self.begun.saturating_add(1);
                self.enter()
            }
            Action::EndOperation => {
                self.leave();
                Ok(())
            }
            Action::BeginRegion => {
                self.next();
                self.enter()
            }
            Action::EndRegion => {
                self.leave();
                Ok(())
            }
            Action::Label => {
                self.next();
                self.enter()
            }
            Action::EndBlock => {
                self.leave();
                Ok(())
            }
            _ => Ok(()),
        }
    }

    /// The numbers, from 0, of what is around the operation that has just begun, and of this.
    fn place(&self, alloc: Global) -> Result<Vec<usize>, AllocError> {
        let mut place = Vec::new(alloc);
        let around = self.children.len().saturating_sub(1);
        // The first number is that of the root, and behind the last one nothing has been met.
        for number in self.children.iter().take(around).skip(1) {
            place.push(number.saturating_sub(1))?;
        }
        Ok(place)
    }
}

/// The way from the root to the operation before which so many others begin: the numbers of regions, blocks and operations.
pub(crate) fn place_of(
    alloc: Global,
    events: &[Event],
    operation: usize,
) -> Result<Vec<usize>, AllocError> {
    let mut way = Way {
        children: Vec::new(alloc),
        begun: 0,
    };
    way.enter()?;
    for event in events {
        if let Event::Did(action) = event {
            way.follow(*action)?;
            if way.begun > operation {
                break;
            }
        }
    }
    way.place(alloc)
}
