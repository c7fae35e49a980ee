//! The table of a grammar, worked out of its rules. Nothing is proved of what stands in it: `Grammar::can_read` tests
//! whether it fits the rules.

ghost use Rattle.std.specs.Prelude.{◌≡◌, IfOk, length};

use crate::grammar::{Class, Facts, Grammar, Rule, Symbol};
use std::alloc::{AllocError, Global};
use std::mem;

/// What is known of a part before its columns are.
#[derive(Clone, Copy, PartialEq, Eq)]
struct Draft {
    /// A rule by which the part stands for no token.
    closing: Option<usize>,
    cost: u32,
    rank: Option<u32>,
    shortest: usize,
}

const UNKNOWN: Draft = Draft {
    closing: None,
    cost: 0,
    rank: None,
    shortest: 0,
};

/// The name of a set of columns.
#[derive(Clone, Copy)]
enum Row {
    /// Those of the tokens of a sign.
    Sign(u32),
    /// Those at which the texts of a part begin.
    First(u32),
    /// Those before which a part may stand.
    Follow(u32),
}

/// The columns of one row are all in another.
#[derive(Clone, Copy)]
struct Edge {
    from: Row,
    to: Row,
}

/// Each set of columns, as a mark for each column.
#[derive(Drop)]
struct Rows {
    signs: Vec<Vec<bool>>,
    first: Vec<Vec<bool>>,
    follow: Vec<Vec<bool>>,
}

impl Grammar {
    /// The grammar of these rules, with the table that is worked out of them.
    ///
    /// A text is read as one of part 0. The parts are numbered below `parts`, and the kinds of token below `columns`
    /// less one. Numbers of signs, parts or kinds beyond these make a grammar that [`Grammar::can_read`] refuses, as do
    /// rules that the next token doesn't decide. The only error is that memory is refused.
    pub fn new(
        alloc: Global,
        signs: Vec<Class>,
        rules: Vec<Rule>,
        parts: usize,
        columns: usize,
    ) -> Result<Grammar, AllocError>
        ensures signs { IfOk result (λ g. g.signs ≡ signs) }
        ensures rules { IfOk result (λ g. g.rules ≡ rules) }
        ensures parts { IfOk result (λ g. length g.parts.items ≡ parts) }
    {
        let parts = table(alloc, &signs, &rules, parts, columns)?;
        Ok(Grammar {
            signs,
            rules,
            parts,
        })
    }
}

/// What is known of each part, worked out of the rules.
fn table(
    alloc: Global,
    signs: &[Class],
    rules: &[Rule],
    parts: usize,
    columns: usize,
) -> Result<Vec<Facts>, AllocError>
    ensures { IfOk result (λ facts. length facts.items ≡ parts) }
{
    let drafts = drafts(alloc, rules, parts)?;
    let mut rows = Rows::new(alloc, signs, parts, columns)?;
    rows.spread_by(alloc, &drafts, rules)?;
    let mut choices = choices(alloc, &rows, &drafts, rules, columns)?;
    facts(alloc, &drafts, &mut choices, &mut rows.follow, parts)
}

/// What the table knows of each part, which leaves empty rows behind.
fn facts(
    alloc: Global,
    drafts: &[Draft],
    choices: &mut [Vec<Option<usize>>],
    follows: &mut [Vec<bool>],
    parts: usize,
) -> Result<Vec<Facts>, AllocError>
    ensures { IfOk result (λ facts. length facts.items ≡ parts) }
{
    let mut facts = Vec::new(alloc);
    for part in 0..parts {
        let draft = drafts.get(part).copied().unwrap_or(UNKNOWN);
        facts.push(Facts {
            choices: taken(alloc, choices, part),
            follows: taken(alloc, follows, part),
            closing: draft.closing,
            cost: draft.cost,
            shortest: draft.shortest,
            rank: draft.rank.unwrap_or(0),
        })?;
    }
    Ok(facts)
}

/// The row with this number, which leaves an empty one behind.
fn taken<T: Drop>(alloc: Global, rows: &mut [Vec<T>], number: usize) -> Vec<T> {
    match rows.get_mut(number) {
        Some(row) => mem::replace(row, Vec::new(alloc)),
        None => Vec::new(alloc),
    }
}

/// What the rules say of each part, gone over until nothing is new.
fn drafts(alloc: Global, rules: &[Rule], parts: usize) -> Result<Vec<Draft>, AllocError> {
    let mut drafts = vec![in alloc; UNKNOWN; parts]?;
    for _ in 0..parts.saturating_mul(2) {
        if !improve(&mut drafts, rules) {
            break;
        }
    }
    Ok(drafts)
}

/// One turn over the rules. Says whether anything is new.
fn improve(drafts: &mut [Draft], rules: &[Rule]) -> bool {
    let mut is_new = false;
    for (number, rule) in rules.iter().enumerate() {
        let part = rule.part as usize;
        if part < drafts.len() {
            let better = improved(drafts, drafts[part], number, &rule.body);
            if better != drafts[part] {
                drafts[part] = better;
                is_new = true;
            }
        }
    }
    is_new
}

/// What one rule adds to what is known of its part.
fn improved(drafts: &[Draft], draft: Draft, number: usize, body: &[Symbol]) -> Draft {
    let mut better = draft;
    if draft.closing.is_none() && all_empty(drafts, body) {
        better.closing = Some(number);
    }
    better.cost = draft.cost.max(height(drafts, body).saturating_add(1));
    if draft.rank.is_none() {
        if let Some(rank) = rank(drafts, body) {
            better.rank = Some(rank);
            better.shortest = number;
        }
    }
    better
}

/// Whether the part may stand for no token.
fn is_empty(drafts: &[Draft], part: u32) -> bool {
    match drafts.get(part as usize) {
        None => false,
        Some(draft) => draft.closing.is_some(),
    }
}

/// Whether the symbols may stand for no token.
fn all_empty(drafts: &[Draft], body: &[Symbol]) -> bool {
    for symbol in body {
        match symbol {
            Symbol::Act(_) => {}
            Symbol::Sign(_) => return false,
            Symbol::Part(part) => {
                if !is_empty(drafts, *part) {
                    return false;
                }
            }
        }
    }
    true
}

/// How many rules and actions come before the next token at most, as far as is known.
fn height(drafts: &[Draft], body: &[Symbol]) -> u32 {
    let mut total: u32 = 0;
    for symbol in body {
        match symbol {
            Symbol::Act(_) => total = total.saturating_add(1),
            Symbol::Sign(_) => return total,
            Symbol::Part(part) => match drafts.get(*part as usize) {
                None => return total,
                Some(draft) => {
                    total = total.saturating_add(draft.cost);
                    if draft.closing.is_none() {
                        return total;
                    }
                }
            },
        }
    }
    total
}

/// One more than the highest rank of the parts, if each has one.
fn rank(drafts: &[Draft], body: &[Symbol]) -> Option<u32> {
    let mut highest: u32 = 0;
    for symbol in body {
        if let Symbol::Part(part) = symbol {
            let draft = drafts.get(*part as usize)?;
            highest = highest.max(draft.rank?);
        }
    }
    highest.checked_add(1)
}

/// Which rows lie in which others.
fn edges(alloc: Global, drafts: &[Draft], rules: &[Rule]) -> Result<Vec<Edge>, AllocError> {
    let mut edges = Vec::new(alloc);
    for rule in rules {
        first_edges(&mut edges, drafts, rule)?;
        follow_edges(&mut edges, drafts, rule)?;
    }
    Ok(edges)
}

/// A part begins as the bodies of its rules do.
fn first_edges(edges: &mut Vec<Edge>, drafts: &[Draft], rule: &Rule) -> Result<(), AllocError> {
    let to = Row::First(rule.part);
    for symbol in &rule.body {
        match symbol {
            Symbol::Act(_) => {}
            Symbol::Sign(sign) => {
                let from = Row::Sign(*sign);
                edges.push(Edge { from, to })?;
                return Ok(());
            }
            Symbol::Part(inner) => {
                let from = Row::First(*inner);
                edges.push(Edge { from, to })?;
                if !is_empty(drafts, *inner) {
                    return Ok(());
                }
            }
        }
    }
    Ok(())
}

/// Each part of a body stands before what the rest of the body begins with.
fn follow_edges(edges: &mut Vec<Edge>, drafts: &[Draft], rule: &Rule) -> Result<(), AllocError> {
    for i in 0..rule.body.len() {
        if let Symbol::Part(inner) = rule.body[i] {
            let to = Row::Follow(inner);
            let (from, other) = openers(drafts, rule.part, &rule.body[i + 1..]);
            edges.push(Edge { from, to })?;
            if let Some(from) = other {
                edges.push(Edge { from, to })?;
            }
        }
    }
    Ok(())
}

/// The rows at which the rest of a rule for a part may begin. As in the table, its first symbol decides.
fn openers(drafts: &[Draft], part: u32, rest: &[Symbol]) -> (Row, Option<Row>) {
    for symbol in rest {
        match symbol {
            Symbol::Act(_) => {}
            Symbol::Sign(sign) => return (Row::Sign(*sign), None),
            Symbol::Part(inner) => {
                if is_empty(drafts, *inner) {
                    return (Row::First(*inner), Some(Row::Follow(*inner)));
                }
                return (Row::First(*inner), None);
            }
        }
    }
    (Row::Follow(part), None)
}

/// Which rule to take for each part at each column.
fn choices(
    alloc: Global,
    rows: &Rows,
    drafts: &[Draft],
    rules: &[Rule],
    columns: usize,
) -> Result<Vec<Vec<Option<usize>>>, AllocError> {
    let mut choices = filled_rows(alloc, None, drafts.len(), columns)?;
    for number in 0..rules.len() {
        let rule = &rules[number];
        if let Some(chosen) = choices.get_mut(rule.part as usize) {
            choose_rule(chosen, rows, drafts, rule, number);
        }
    }
    Ok(choices)
}

/// Chooses the rule for its part at each column at which its body may begin.
fn choose_rule(
    chosen: &mut [Option<usize>],
    rows: &Rows,
    drafts: &[Draft],
    rule: &Rule,
    number: usize,
) {
    let (row, other) = openers(drafts, rule.part, &rule.body);
    choose(chosen, rows.row(row), number);
    if let Some(row) = other {
        choose(chosen, rows.row(row), number);
    }
}

/// Chooses the rule at each column that is marked.
fn choose(chosen: &mut [Option<usize>], marks: Option<&Vec<bool>>, rule: usize) {
    if let Some(marks) = marks {
        for column in 0..chosen.len().min(marks.len()) {
            if marks[column] {
                chosen[column] = Some(rule);
            }
        }
    }
}

impl Rows {
    /// The rows before anything is worked out: the kinds of the signs.
    fn new(
        alloc: Global,
        signs: &[Class],
        parts: usize,
        columns: usize,
    ) -> Result<Rows, AllocError> {
        Ok(Rows {
            signs: sign_rows(alloc, signs)?,
            first: filled_rows(alloc, false, parts, columns)?,
            follow: filled_rows(alloc, false, parts, columns)?,
        })
    }

    fn row(&self, name: Row) -> Option<&Vec<bool>> {
        match name {
            Row::Sign(sign) => self.signs.get(sign as usize),
            Row::First(part) => self.first.get(part as usize),
            Row::Follow(part) => self.follow.get(part as usize),
        }
    }

    fn row_mut(&mut self, name: Row) -> Option<&mut Vec<bool>> {
        match name {
            Row::Sign(sign) => self.signs.get_mut(sign as usize),
            Row::First(part) => self.first.get_mut(part as usize),
            Row::Follow(part) => self.follow.get_mut(part as usize),
        }
    }

    /// Puts the row into the spare place, and what was there in the place of the row.
    fn swap(&mut self, name: Row, spare: &mut Vec<bool>) {
        if let Some(row) = self.row_mut(name) {
            mem::swap(row, spare);
        }
    }

    /// Marks the end behind part 0, and what the rules say, until nothing is new.
    fn spread_by(
        &mut self,
        alloc: Global,
        drafts: &[Draft],
        rules: &[Rule],
    ) -> Result<(), AllocError> {
        if let Some(row) = self.row_mut(Row::Follow(0)) {
            add_marks(row, &[true]);
        }
        let edges = edges(alloc, drafts, rules)?;
        self.spread(alloc, &edges);
        Ok(())
    }

    /// Marks along the edges until nothing is new.
    fn spread(&mut self, alloc: Global, edges: &[Edge]) {
        let mut from = Vec::new(alloc);
        for _ in 0..edges.len() {
            let mut is_new = false;
            for edge in edges {
                self.swap(edge.from, &mut from);
                if let Some(to) = self.row_mut(edge.to) {
                    is_new |= add_marks(to, &from);
                }
                self.swap(edge.from, &mut from);
            }
            if !is_new {
                return;
            }
        }
    }
}

/// The columns of the tokens of each sign.
fn sign_rows(alloc: Global, signs: &[Class]) -> Result<Vec<Vec<bool>>, AllocError> {
    let mut rows = Vec::new(alloc);
    for class in signs {
        let mut row = vec![in alloc; false]?;
        row.extend_from_slice(&class.kinds)?;
        rows.push(row)?;
    }
    Ok(rows)
}

/// So many rows, with the same at each column.
fn filled_rows<T: Copy>(
    alloc: Global,
    value: T,
    rows: usize,
    columns: usize,
) -> Result<Vec<Vec<T>>, AllocError> {
    let mut filled = Vec::new(alloc);
    for _ in 0..rows {
        filled.push(vec![in alloc; value; columns]?)?;
    }
    Ok(filled)
}

/// Marks in a row what another marks. Says whether a mark is new.
fn add_marks(row: &mut [bool], more: &[bool]) -> bool {
    let mut is_new = false;
    for column in 0..row.len().min(more.len()) {
        if more[column] && !row[column] {
            row[column] = true;
            is_new = true;
        }
    }
    is_new
}
