//! Where the names of a text stand.
//!
//! A region of an operation that is isolated from above opens a scope of values, each region one of labels. A scope
//! is given by a number: that of the events before it.
ghost use Rattle.std.specs.Prelude.{◌≡◌, [], ◌∷◌, ◌++◌, ◌+◌, ◌<◌, ◌≤◌, ◌^◌, OnOk, IfOk, slice_get, reverse};
ghost use Rattle.ir_scopes.specs.Scopes.{is_marked, opened_below_root, known_or_first, beginning, outside, last_token, behind, here_after, around_after, here_behind_operation, here_behind_region, rest, operation_frame, region_frame, place_of, defined, labelled, mentioned, label_mentioned, values_end, labels_end, ended, closed, label_closed, AreSites};
ghost use Rattle.ir_grammar.specs.declared.grammar.Event.TheVariants.{Did};
ghost use Rattle.ir_grammar.specs.declared.grammar.Action.TheVariants.{BeginRegion};

use ir_grammar::grammar::{Action, Event};
use std::alloc::{AllocError, Global};

/// An operation or a region that is being read, as far as names in it are concerned.
#[derive(Clone, Copy)]
pub struct Frame {
    /// Whether it is an operation whose regions are scopes of values.
    pub isolated: bool,
    /// The scope of labels in it.
    pub labels: usize,
    /// The token that opens the scope of labels.
    pub labels_opened: usize,
    /// The scope of values in it.
    pub values: usize,
    /// The token that opens the scope of values.
    pub values_opened: usize,
}

/// A name in a text.
#[derive(Clone, Copy)]
pub struct Site {
    /// The scope in which it stands.
    pub scope: usize,
    pub token: usize,
}

/// The end of a scope.
#[derive(Clone, Copy)]
pub struct Closing {
    pub scope: usize,
    /// The token at which it ends.
    pub met: usize,
    /// The token that opens it.
    pub place: usize,
}

/// The names of one sort in a text, those of values or those of blocks, each list in the order of the text.
#[derive(Drop)]
pub struct NameSites {
    pub definitions: Vec<Site>,
    pub mentions: Vec<Site>,
    /// The ends of their scopes.
    pub closings: Vec<Closing>,
}

/// The names of a text, and where a region of its root opens that mustn't.
#[derive(Drop)]
pub struct Sites {
    pub values: NameSites,
    /// The labels, by which blocks are named.
    pub labels: NameSites,
    /// The token that opens the first region directly below the root, if the root isn't isolated from above.
    pub root_opened: Option<usize>,
    /// How many operations begin. Nothing is proved of this number or the next.
    pub operations: usize,
    /// How many regions begin.
    pub regions: usize,
}

/// A walk over events: how many of each kind have passed, and what is open. How many have passed in all is asked only
/// where a scope begins.
#[derive(Drop)]
pub struct Walker {
    pub tokens: usize,
    pub actions: usize,
    /// The innermost of what is open.
    pub here: Frame,
    /// What is open around it, the inner ones last.
    pub around: Vec<Frame>,
}

/// Outside of all operations, behind so many events.
fn outside(events: usize) -> Frame
    ensures { result ≡ outside events }
{
    Frame {
        isolated: false,
        labels: events,
        labels_opened: 0,
        values: events,
        values_opened: 0,
    }
}

impl Frame {
    /// The end of the scope of values in it, at a token.
    fn values_end(&self, met: usize) -> Closing
        ensures { result ≡ values_end met self.now }
    {
        Closing {
            scope: self.values,
            met,
            place: self.values_opened,
        }
    }

    /// The end of the scope of labels in it, at a token.
    fn labels_end(&self, met: usize) -> Closing
        ensures { result ≡ labels_end met self.now }
    {
        Closing {
            scope: self.labels,
            met,
            place: self.labels_opened,
        }
    }
}

/// Whether operations of the kind with this number are isolated from above, given that of each kind.
fn is_isolated(isolated: &[bool], number: u8) -> bool
    ensures { result ≡ is_marked isolated.now number }
{
    match isolated.get(number as usize) {
        Some(mark) => *mark,
        None => false,
    }
}

impl Walker {
    fn new(alloc: Global) -> Walker
        ensures { place_of result ≡ beginning }
    {
        Walker {
            tokens: 0,
            actions: 0,
            here: outside(0),
            around: Vec::new(alloc),
        }
    }

    /// How many events will have passed behind the next one.
    fn behind(&self) -> usize
        requires { (place_of self.now).events < 2 ^ 63 }
        ensures { result ≡ (place_of self.now).events + 1 }
    {
        self.tokens + self.actions + 1
    }

    /// The token that was taken last.
    fn last(&self) -> usize
        ensures { result ≡ last_token (place_of self.now) }
    {
        self.tokens.saturating_sub(1)
    }

    /// An operation that begins here.
    fn operation(&self, isolated: bool) -> Frame
        ensures { result ≡ operation_frame isolated self.now.here }
    {
        Frame {
            isolated,
            ..self.here
        }
    }

    /// A region that begins here.
    fn region(&self) -> Frame
        requires { (place_of self.now).events < 2 ^ 63 }
        ensures { result ≡ region_frame (place_of self.now) }
    {
        let opens = self.here.isolated;
        Frame {
            isolated: false,
            labels: self.behind(),
            labels_opened: self.last(),
            values: if opens {
                self.behind()
            } else {
                self.here.values
            },
            values_opened: if opens {
                self.last()
            } else {
                self.here.values_opened
            },
        }
    }

    fn enter(&mut self, frame: Frame) -> Result<(), AllocError>
        ensures here { OnOk result (self.new.here ≡ frame) }
        ensures around { OnOk result (reverse self.new.around.items ≡ self.old.here ∷ reverse self.old.around.items) }
        ensures counts { (self.new.tokens ≡ self.old.tokens) × (self.new.actions ≡ self.old.actions) }
    {
        self.around.push(self.here)?;
        self.here = frame;
        Ok(())
    }

    /// Leaves an operation. Behind the root all is as in the beginning.
    fn leave_operation(&mut self)
        requires { (place_of self.old).events < 2 ^ 63 }
        ensures here { self.new.here ≡ here_behind_operation (place_of self.old).events
            (reverse self.old.around.items) }
        ensures around { reverse self.new.around.items ≡ rest (reverse self.old.around.items) }
        ensures counts { (self.new.tokens ≡ self.old.tokens) × (self.new.actions ≡ self.old.actions) }
    {
        let outer = self.around.pop();
        let is_root = self.around.is_empty();
        self.here = match outer {
            None => outside(self.behind()),
            Some(frame) => {
                if is_root {
                    outside(self.behind())
                } else {
                    frame
                }
            }
        };
    }

    fn leave_region(&mut self)
        ensures here { self.new.here ≡ here_behind_region self.old.here (reverse self.old.around.items) }
        ensures around { reverse self.new.around.items ≡ rest (reverse self.old.around.items) }
        ensures counts { (self.new.tokens ≡ self.old.tokens) × (self.new.actions ≡ self.old.actions) }
    {
        if let Some(frame) = self.around.pop() {
            self.here = frame;
        }
    }

    /// The token that opens a region here, if this is one of a root that isn't isolated from above.
    fn opened_below_root(&self) -> Option<usize>
        ensures { result ≡ slice_get (opened_below_root (place_of self.now) (Did BeginRegion)) 0 }
    {
        if self.around.len() == 1 && !self.here.isolated {
            Some(self.last())
        } else {
            None
        }
    }

    /// A name of the scope that stands at the last token.
    fn site(&self, scope: usize) -> Site
        ensures { result ≡ record { scope = scope; token = last_token (place_of self.now) } }
    {
        Site {
            scope,
            token: self.last(),
        }
    }
}

impl NameSites {
    fn new(alloc: Global) -> NameSites
        ensures definitions { result.definitions.items ≡ [] }
        ensures mentions { result.mentions.items ≡ [] }
        ensures closings { result.closings.items ≡ [] }
    {
        NameSites {
            definitions: Vec::new(alloc),
            mentions: Vec::new(alloc),
            closings: Vec::new(alloc),
        }
    }

    /// Adds the end of a scope, if what follows is in another.
    fn add_end(&mut self, closing: Closing, next: usize) -> Result<(), AllocError>
        ensures closings { OnOk result (self.new.closings.items ≡ self.old.closings.items ++ ended closing next) }
        ensures definitions { self.new.definitions.items ≡ self.old.definitions.items }
        ensures mentions { self.new.mentions.items ≡ self.old.mentions.items }
    {
        if next != closing.scope {
            self.closings.push(closing)?;
        }
        Ok(())
    }
}

impl Sites {
    /// Adds the scopes that end at a token between one frame and the next.
    fn add_ends(&mut self, met: usize, before: Frame, after: Frame) -> Result<(), AllocError>
        ensures closings { OnOk result (self.new.values.closings.items ≡ self.old.values.closings.items ++ ended
            (values_end met before) after.values) }
        ensures label_closings { OnOk result (self.new.labels.closings.items ≡ self.old.labels.closings.items ++ ended
            (labels_end met before) after.labels) }
        ensures definitions { self.new.values.definitions.items ≡ self.old.values.definitions.items }
        ensures mentions { self.new.values.mentions.items ≡ self.old.values.mentions.items }
        ensures labels { self.new.labels.definitions.items ≡ self.old.labels.definitions.items }
        ensures label_mentions { self.new.labels.mentions.items ≡ self.old.labels.mentions.items }
        ensures root_opened { self.new.root_opened ≡ self.old.root_opened }
    {
        self.values.add_end(before.values_end(met), after.values)?;
        self.labels.add_end(before.labels_end(met), after.labels)
    }

    /// Adds the names and the ends that the action makes at the place to which the walk has come, and opens or leaves
    /// what the action does. One `match` does all of it, since most actions do nothing here.
    fn act(&mut self, at: &mut Walker, action: Action, isolated: &[bool]) -> Result<(), AllocError>
        requires { (place_of at.old).events < 2 ^ 63 }
        ensures here { OnOk result (at.new.here ≡ here_after (is_marked isolated.now) (place_of at.old) action) }
        ensures around { OnOk result (reverse at.new.around.items ≡ around_after (place_of at.old) action) }
        ensures counts { OnOk result ((at.new.tokens ≡ at.old.tokens) × (at.new.actions ≡ at.old.actions)) }
        ensures definitions { OnOk result (self.new.values.definitions.items ≡ self.old.values.definitions.items ++
            defined (place_of at.old) (Did action)) }
        ensures mentions { OnOk result (self.new.values.mentions.items ≡ self.old.values.mentions.items ++ mentioned
            (place_of at.old) (Did action)) }
        ensures closings { OnOk result (self.new.values.closings.items ≡ self.old.values.closings.items ++ closed
            (is_marked isolated.now) (place_of at.old) (Did action)) }
        ensures root_opened { OnOk result (self.new.root_opened ≡ known_or_first self.old.root_opened (opened_below_root
            (place_of at.old) (Did action))) }
        ensures labels { OnOk result (self.new.labels.definitions.items ≡ self.old.labels.definitions.items ++ labelled
            (place_of at.old) (Did action)) }
        ensures label_mentions { OnOk result (self.new.labels.mentions.items ≡ self.old.labels.mentions.items ++
            label_mentioned (place_of at.old) (Did action)) }
        ensures label_closings { OnOk result (self.new.labels.closings.items ≡ self.old.labels.closings.items ++
            label_closed (is_marked isolated.now) (place_of at.old) (Did action)) }
    {
        match action {
            Action::Result | Action::Argument => self
                .values
                .definitions
                .push(at.site(at.here.values))?,
            Action::Label => self.labels.definitions.push(at.site(at.here.labels))?,
            Action::Operand => self.values.mentions.push(at.site(at.here.values))?,
            Action::BeginSuccessor => self.labels.mentions.push(at.site(at.here.labels))?,
            Action::Operation(number) => {
                self.operations = self.operations.saturating_add(1);
                at.enter(at.operation(is_isolated(isolated, number)))?;
            }
            Action::BeginRegion => {
                self.regions = self.regions.saturating_add(1);
                self.root_opened = self.root_opened.or(at.opened_below_root());
                at.enter(at.region())?;
            }
            Action::EndOperation => {
                let inner = at.here;
                at.leave_operation();
                self.add_ends(at.last(), inner, at.here)?;
            }
            Action::EndRegion => {
                let inner = at.here;
                at.leave_region();
                self.add_ends(at.last(), inner, at.here)?;
            }
            _ => {}
        }
        Ok(())
    }

    /// Adds what the event makes at the place to which the walk has come, and goes behind it.
    fn follow(&mut self, at: &mut Walker, event: Event, isolated: &[bool]) -> Result<(), AllocError>
        requires { (place_of at.old).events < 2 ^ 63 }
        ensures walk { OnOk result (place_of at.new ≡ behind (is_marked isolated.now) (place_of at.old) event) }
        ensures definitions { OnOk result (self.new.values.definitions.items ≡ self.old.values.definitions.items ++
            defined (place_of at.old) event) }
        ensures mentions { OnOk result (self.new.values.mentions.items ≡ self.old.values.mentions.items ++ mentioned
            (place_of at.old) event) }
        ensures closings { OnOk result (self.new.values.closings.items ≡ self.old.values.closings.items ++ closed
            (is_marked isolated.now) (place_of at.old) event) }
        ensures root_opened { OnOk result (self.new.root_opened ≡ known_or_first self.old.root_opened (opened_below_root
            (place_of at.old) event)) }
        ensures labels { OnOk result (self.new.labels.definitions.items ≡ self.old.labels.definitions.items ++ labelled
            (place_of at.old) event) }
        ensures label_mentions { OnOk result (self.new.labels.mentions.items ≡ self.old.labels.mentions.items ++
            label_mentioned (place_of at.old) event) }
        ensures label_closings { OnOk result (self.new.labels.closings.items ≡ self.old.labels.closings.items ++
            label_closed (is_marked isolated.now) (place_of at.old) event) }
    {
        match event {
            Event::Took => at.tokens += 1,
            Event::Did(action) => {
                self.act(at, action, isolated)?;
                at.actions += 1;
            }
        }
        Ok(())
    }
}

/// The names of a text, of which reading did this, and where a region of its root opens that mustn't. The only error is that memory is refused.
///
/// `isolated` has for each kind of operations whether it is isolated from above.
pub fn sites_of(alloc: Global, events: &[Event], isolated: &[bool]) -> Result<Sites, AllocError>
    ensures { IfOk result (AreSites (is_marked isolated.now) events.now) }
{
    let mut walker = Walker::new(alloc);
    let mut sites = Sites {
        values: NameSites::new(alloc),
        labels: NameSites::new(alloc),
        root_opened: None,
        operations: 0,
        regions: 0,
    };
    for event in events {
        sites.follow(&mut walker, *event, isolated)?;
    }
    Ok(sites)
}
