//! A grammar that is data, and a reader over it that decides each step by the next token.
ghost use Rattle.std.specs.Prelude.{◌≡◌, ℕ, List, ◌∷◌, [], ◌++◌, slice_get, cond, IfOk, OnOk, IsTrue, Some, ◌<◌, drop, length};
ghost use Rattle.ir_grammar.specs.declared.grammar.Change.TheVariants as change;
ghost use Rattle.ir_grammar.specs.declared.grammar.Event.TheVariants.{Took, Did};
ghost use Rattle.ir_grammar.specs.declared.grammar.Rule.{Rule};
ghost use Rattle.ir_grammar.specs.Grammar.{accepts};
ghost use Rattle.ir_grammar.specs.Table.{pick, closing_of, IsFine, AreKnownSymbols, IsPredictive, CanRead};
ghost use Rattle.ir_grammar.specs.Run.{LeadsToStack, Closes, Advances, Ends, Grows, IsDepth};
ghost use Rattle.ir_grammar.specs.Reading.{Reads, IsFirstDeep, opens, closes, begins_member, tooks};
ghost use Rattle.ir_grammar.specs.Pending.{unread};

use crate::pending::Pending;
use ir_print::{LeafSort, ValueSort};
use std::alloc::{AllocError, Global};

/// Something that reading does at the token before it.
#[derive(Clone, Copy, PartialEq, Eq)]
pub enum Action {
    /// The name names a result of the operation that comes.
    Result,
    /// The dotted name is the id of an operation of the kind with this number; its body begins.
    Operation(u8),
    /// An operation with its body has been read.
    EndOperation,
    /// The brace opens a region.
    BeginRegion,
    /// The brace closes the region.
    EndRegion,
    /// The name is the label of a block.
    Label,
    /// The name is that of a block's argument.
    Argument,
    /// The header of a block has been read.
    Header,
    /// A block with its operations has been read.
    EndBlock,
    /// A value of this sort and of the kind with this number begins.
    Begin(ValueSort, u8),
    /// The value has been read.
    End(ValueSort),
    /// The token is a part of what is being read.
    Leaf(LeafSort),
    /// A list of operands begins behind this token.
    BeginOperands,
    /// The name mentions a value.
    Operand,
    /// The operands have been read.
    EndOperands,
    /// The name is the label of a block that an edge leads to; what the edge hands on comes.
    BeginSuccessor,
    /// The edge has been read, with the operands that it hands on.
    EndSuccessor,
    /// A list begins behind this token.
    BeginList,
    /// A member of the list begins with the next token.
    BeginItem,
    /// The member has been read.
    EndItem,
    /// The list has been read.
    EndList,
    /// What the format with this number, of several, says begins with the next token.
    BeginChoice(usize),
    /// It has been read.
    EndChoice,
}

/// What an action does to the number of open parts that count for the depth.
#[derive(Clone, Copy, PartialEq, Eq)]
pub enum Change {
    Opens,
    Closes,
    Keeps,
}

/// What stands in the body of a rule.
#[derive(Clone, Copy, PartialEq, Eq)]
pub enum Symbol {
    /// A token of one of the kinds of the sign with this number.
    Sign(u32),
    /// What one of the rules for the part with this number says.
    Part(u32),
    /// No token, but something that is done at the token before.
    Act(Action),
}

/// What reading does.
#[derive(Clone, Copy, PartialEq, Eq)]
pub enum Event {
    /// A token was taken.
    Took,
    /// An action of a rule was met, at the last token that was taken.
    Did(Action),
}

/// A sign: the kinds of token that it stands for. The kind with number k is one of them where `kinds[k]` holds.
#[derive(Drop)]
pub struct Class {
    pub kinds: Vec<bool>,
}

/// One way to write a part of a text: the symbols of its body, one after the other.
#[derive(Drop)]
pub struct Rule {
    pub part: u32,
    pub body: Vec<Symbol>,
}

/// What the table knows of a part. Column 0 is the end of the text, and column k + 1 a token of kind k.
#[derive(Drop)]
pub struct Facts {
    /// The rule to take at each column.
    pub choices: Vec<Option<usize>>,
    /// Whether the part may stand before each column.
    pub follows: Vec<bool>,
    /// The rule to take where no token goes on with the part. A part without one has a token in each of its texts.
    pub closing: Option<usize>,
    /// More than the number of rules and actions that are taken for the part before a token is.
    pub cost: u32,
    /// A rule whose parts have lower ranks.
    pub shortest: usize,
    /// Less than this are the ranks of the parts in `shortest`.
    pub rank: u32,
}

/// Why reading stopped.
#[derive(Clone, Copy, PartialEq, Eq)]
pub enum Stop {
    /// What was taken is a whole text, and no longer front begins a text.
    Text,
    /// What was taken is no whole text, and no longer front begins a text.
    Stuck,
    /// More parts are open than may be.
    Deep,
}

/// What was read of the front of some tokens.
#[derive(Drop)]
pub struct Reading {
    /// Why reading stopped.
    pub stop: Stop,
    /// How many tokens were taken.
    pub taken: usize,
    /// The token at which the first part begins that is too deep, if there is one.
    pub deep: Option<usize>,
    /// What reading did, with all that may end at the last token unless too much is open.
    pub events: Vec<Event>,
}

/// Rules with the table by which they are read.
#[derive(Drop)]
pub struct Grammar {
    /// The signs, by number.
    pub signs: Vec<Class>,
    /// The rules, by number.
    pub rules: Vec<Rule>,
    /// What the table knows of each part, by number.
    pub parts: Vec<Facts>,
}

impl Action {
    /// What is done to the number of open parts that count for the depth: regions, types and attributes.
    pub fn change(self) -> Change
        ensures { result ≡ cond (opens self) change.Opens (cond (closes self) change.Closes change.Keeps) }
    {
        match self {
            Action::BeginRegion | Action::Begin(_, _) => Change::Opens,
            Action::EndRegion | Action::End(_) => Change::Closes,
            _ => Change::Keeps,
        }
    }

    /// Whether a member of a list begins, with the next token.
    pub fn begins_member(self) -> bool
        ensures { result ≡ begins_member self }
    {
        match self {
            Action::BeginItem => true,
            Action::BeginChoice(_) => true,
            _ => false,
        }
    }
}

impl Grammar {
    /// Whether a token of this kind may stand where the sign does.
    pub fn accepts(&self, sign: u32, kind: usize) -> bool
        ensures { result ≡ accepts self.now sign kind }
    {
        match self.signs.get(sign as usize) {
            None => false,
            Some(class) => match class.kinds.get(kind) {
                None => false,
                Some(yes) => *yes,
            },
        }
    }

    /// The rule to take where no token goes on with the part.
    pub fn closing(&self, part: u32) -> Option<usize>
        ensures { result ≡ closing_of (slice_get self.now.parts.items part) }
    {
        match self.parts.get(part as usize) {
            None => None,
            Some(facts) => facts.closing,
        }
    }

    /// The rule to take for the part at the column.
    pub fn pick(&self, part: u32, column: usize) -> Option<usize>
        ensures { result ≡ pick self.now part column }
    {
        match self.parts.get(part as usize) {
            None => None,
            Some(facts) => match facts.choices.get(column) {
                None => None,
                Some(choice) => *choice,
            },
        }
    }

    /// Takes a token of this kind, where the sign that comes next stands for it.
    #[inline]
    fn take(
        &self,
        pending: &mut Pending<'_>,
        events: &mut Vec<Event>,
        sign: u32,
        kind: u32,
    ) -> Result<bool, AllocError>
        requires { 0 < length pending.old.rest.now }
        ensures accepts { IfOk result (λ yes. yes ≡ accepts self.now sign kind) }
        ensures unread { IfOk result (λ yes. unread pending.new
            ≡ cond yes (drop 1 (unread pending.old)) (unread pending.old)) }
        ensures events { IfOk result (λ yes. events.new.items
            ≡ cond yes (events.old.items ++ Took ∷ []) events.old.items) }
    {
        if !self.accepts(sign, kind as usize) {
            return Ok(false);
        }
        events.push(Event::Took)?;
        pending.skip();
        Ok(true)
    }

    /// Puts the body of a rule in the place of the part that comes next.
    #[inline]
    fn expand<'g>(&'g self, pending: &mut Pending<'g>, rule: usize) -> Result<(), AllocError>
        requires rule { rule < length self.now.rules.items }
        requires next { 0 < length pending.old.rest.now }
        ensures { OnOk result ((r : Rule) × (slice_get self.now.rules.items rule ≡ Some r)
            × (unread pending.new ≡ r.body.items ++ drop 1 (unread pending.old))) }
    {
        pending.skip();
        pending.open(&self.rules[rule].body)
    }

    /// Takes a token, if one of its kind may come next. Else parts may be closed. The depth follows what is done.
    fn advance<'g>(
        &'g self,
        pending: &mut Pending<'g>,
        events: &mut Vec<Event>,
        depth: &mut Option<usize>,
        deepest: usize,
        kind: u32,
    ) -> Result<bool, AllocError>
        requires predictive { IsPredictive self.now }
        requires fine { IsFine self.now (unread pending.old) }
        requires known { AreKnownSymbols self.now (unread pending.old) }
        requires depth { IsDepth deepest (tooks events.old.items) events.old.items depth.old }
        ensures advanced { IfOk result (λ yes. (root : ℕ) (done : List ℕ)
            → LeadsToStack self.now root done events.old.items (unread pending.old)
            → Advances self.now root done kind yes events.new.items (unread pending.new)) }
        ensures grows { IfOk result (λ yes. IsTrue yes → Grows events.old.items events.new.items) }
        ensures fine { OnOk result (IsFine self.now (unread pending.new)) }
        ensures known { OnOk result (AreKnownSymbols self.now (unread pending.new)) }
        ensures depth { OnOk result (IsDepth deepest (tooks events.old.items) events.new.items depth.new) }
    {
        while let Some(symbol) = pending.first() {
            match symbol {
                Symbol::Sign(sign) => return self.take(pending, events, sign, kind),
                Symbol::Act(action) => act(pending, events, depth, deepest, action)?,
                Symbol::Part(part) => match self.pick(part, kind as usize + 1) {
                    None => return Ok(false),
                    Some(rule) => self.expand(pending, rule)?,
                },
            }
        }
        Ok(false)
    }

    /// Closes each part that may end, where no further token is taken, and says why reading stops. The depth follows
    /// what is done.
    fn close<'g>(
        &'g self,
        pending: &mut Pending<'g>,
        events: &mut Vec<Event>,
        depth: &mut Option<usize>,
        deepest: usize,
    ) -> Result<Stop, AllocError>
        requires predictive { IsPredictive self.now }
        requires fine { IsFine self.now (unread pending.old) }
        requires known { AreKnownSymbols self.now (unread pending.old) }
        requires depth { IsDepth deepest (tooks events.old.items) events.old.items depth.old }
        ensures ends { IfOk result (λ stop. (root : ℕ) (done : List ℕ)
            → Closes self.now root done events.old.items (unread pending.old)
            → Ends self.now root done stop events.new.items) }
        ensures depth { OnOk result (IsDepth deepest (tooks events.old.items) events.new.items depth.new) }
    {
        while let Some(symbol) = pending.first() {
            match symbol {
                Symbol::Sign(_) => return Ok(Stop::Stuck),
                Symbol::Act(action) => act(pending, events, depth, deepest, action)?,
                Symbol::Part(part) => match self.closing(part) {
                    None => return Ok(Stop::Stuck),
                    Some(rule) => self.expand(pending, rule)?,
                },
            }
        }
        Ok(Stop::Text)
    }

    /// Closes each part that may end, where no further token is taken. The depth follows what is done.
    fn finish<'g>(
        &'g self,
        mut pending: Pending<'g>,
        mut events: Vec<Event>,
        mut depth: Option<usize>,
        deepest: usize,
        taken: usize,
    ) -> Result<Reading, AllocError>
        requires predictive { IsPredictive self.now }
        requires fine { IsFine self.now (unread pending) }
        requires known { AreKnownSymbols self.now (unread pending) }
        requires took { tooks events.items ≡ taken }
        requires depth { IsDepth deepest taken events.items depth }
        ensures ends { IfOk result (λ r. (root : ℕ) (done : List ℕ)
            → Closes self.now root done events.items (unread pending.entry)
            → Ends self.now root done r.stop r.events.items) }
        ensures taken { IfOk result (λ r. r.taken ≡ taken) }
        ensures deep { IfOk result (λ r. IsFirstDeep deepest r.events.items r.deep) }
    {
        let stop = self.close(&mut pending, &mut events, &mut depth, deepest)?;
        Ok(Reading {
            stop,
            taken,
            deep: deep_at(depth, taken),
            events,
        })
    }

    /// Reads the longest front of tokens that begins a text of the part `root`, or up to where too many parts are open.
    ///
    /// In come the kinds of the tokens, by number, and how many regions, types and attributes may be open at once. Out
    /// comes what stopped the reading, the number of tokens taken, where the first part begins that is too deep, and
    /// the events, one [`Event::Took`] for each token. [`Stop::Deep`] is answered one token after the first token of
    /// the part that is too deep. The only error is that memory is refused.
    pub fn read(
        &self,
        alloc: Global,
        root: u32,
        deepest: usize,
        kinds: &[u32],
    ) -> Result<Reading, AllocError>
        requires { CanRead self.now root }
        ensures reads { IfOk result (λ r. Reads self.now root deepest kinds.now r.stop r.taken r.events.items) }
        ensures deep { IfOk result (λ r. IsFirstDeep deepest r.events.items r.deep) }
    {
        let start = [Symbol::Part(root)];
        let mut pending = Pending::new(alloc, &start);
        // Reading seldom does more than nine things at eight tokens, in most texts, beside taking them.
        let mut events = Vec::with_capacity(alloc, kinds.len().saturating_mul(17) / 8)?;
        let mut depth = Some(0);
        for taken in 0..kinds.len() {
            if !self.advance(&mut pending, &mut events, &mut depth, deepest, kinds[taken])? {
                return self.finish(pending, events, depth, deepest, taken);
            }
            if depth.is_none() {
                return Ok(Reading {
                    stop: Stop::Deep,
                    taken: taken + 1,
                    deep: deep_at(depth, taken),
                    events,
                });
            }
        }
        self.finish(pending, events, depth, deepest, kinds.len())
    }
}

/// Does the action that comes next. The depth follows.
#[inline]
fn act(
    pending: &mut Pending<'_>,
    events: &mut Vec<Event>,
    depth: &mut Option<usize>,
    deepest: usize,
    action: Action,
) -> Result<(), AllocError>
    requires { 0 < length pending.old.rest.now }
    ensures unread { OnOk result (unread pending.new ≡ drop 1 (unread pending.old)) }
    ensures events { OnOk result (events.new.items ≡ events.old.items ++ Did action ∷ []) }
    ensures depth { OnOk result ((taken : ℕ) → tooks events.old.items ≡ taken
        → IsDepth deepest taken events.old.items depth.old → IsDepth deepest taken events.new.items depth.new) }
{
    events.push(Event::Did(action))?;
    *depth = depth_at(*depth, action, deepest);
    pending.skip();
    Ok(())
}

/// How many parts are open after one more action, or none where a part was too deep.
fn depth_at(depth: Option<usize>, action: Action, deepest: usize) -> Option<usize>
    ensures { (done : List Event) → IsDepth deepest (tooks done) done depth
        → IsDepth deepest (tooks done) (done ++ Did action ∷ []) result }
{
    let open = depth?;
    match action.change() {
        Change::Opens => {
            if open >= deepest {
                return None;
            }
            Some(open + 1)
        }
        Change::Closes => Some(open.saturating_sub(1)),
        Change::Keeps => Some(open),
    }
}

/// The token at which the first part begins that is too deep, if one is: the last of so many tokens.
fn deep_at(depth: Option<usize>, taken: usize) -> Option<usize>
    ensures { (deepest : ℕ) (done : List Event) → IsDepth deepest taken done depth → IsFirstDeep deepest done result }
{
    match depth {
        None => Some(taken.saturating_sub(1)),
        Some(_) => None,
    }
}
