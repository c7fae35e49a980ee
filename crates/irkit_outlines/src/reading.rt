//! From a text with marks and a section to a module with what stands beside its items.
ghost use Rattle.std.specs.Prelude.{◌≡◌, [], None, true, IfErr, IfOk, encode_utf8_all};
ghost use Rattle.ir_characters.specs.Texts.{codes_of, owned_codes};
ghost use Rattle.irkit_running.specs.Known.{CanBeWritten, HasGrammar};
ghost use Rattle.irkit_running.specs.Outcomes.{Loads};
ghost use Rattle.irkit_outlines.specs.Outlined.{IsBareText, IsRefused, LoadsFront};

use crate::ends::ends_of;
use crate::items::{Items, items_of};
use crate::marks::{Marks, Resolved, count_placed};
use crate::outlines::{OutlinedModule, Outlines};
use crate::rules::{first_rule, unknown_attribute};
use crate::sections::{Entries, entries_of};
use crate::source::{behind, utf8_of};
use indexmap::IndexMap;
use ir_characters::{Characters, Text};
use ir_context::Context;
use ir_formats::words::{classify, spelled};
use ir_grammar::grammar::{Event, Reading};
use ir_names::{Identifier, IdentifierError, Place};
use ir_program::{IRNode, Operation, Ptr};
use ir_scopes::depth::DEEPEST;
use ir_tokens::{Numbers, place_after};
use irkit_refusals::Refusal;
use irkit_running::load as load_front;
use irkit_streams::Watched;
use kit::{Kit, let_go};
use kit_checks::Rule;
use mark_places::marked_items;
use outlined_texts::{OutlinedText, split_outlined};
use std::alloc::{AllocError, Global};
use text_dialect::grammar_of;
use text_marking::{Mark, take_marks};

/// Whether a text may have marks or a section: it has a `!`, or the word that a section begins with.
pub fn has_outlines(text: &str) -> bool {
    text.contains('!') || text.contains("outlined_attributes")
}

/// The tokens of a text and what reading it does.
#[derive(Drop)]
struct Front {
    starts: Numbers,
    reading: Reading,
}

/// Reads a text without marks by the grammar.
fn read_front(alloc: Global, text: Text) -> Result<Front, AllocError> {
    let language = grammar_of::<Kit>(alloc)?;
    let words = spelled(alloc, &language.words)?;
    let classified = classify(alloc, &words, text)?;
    let reading = language.grammar.read(alloc, 0, DEEPEST, &classified.kinds)?;
    Ok(Front {
        starts: classified.starts,
        reading,
    })
}

/// The name that a token is. The next token begins at `end`, if there is one.
fn name_at(
    alloc: Global,
    text: Text,
    start: usize,
    end: usize,
) -> Result<Option<Identifier>, AllocError> {
    let mut name = String::new(alloc);
    for place in start..end.min(text.len()) {
        let c = text.at(place);
        if c != '_' && !c.is_ascii_alphanumeric() {
            break;
        }
        name.push(c)?;
    }
    match Identifier::try_new(alloc, name.as_str()) {
        Ok(name) => Ok(Some(name)),
        Err(IdentifierError::Invalid(_)) => Ok(None),
        Err(IdentifierError::Memory) => Err(AllocError),
    }
}

/// The names of the definitions of a text, which are these of its tokens.
fn names_of(
    alloc: Global,
    text: Text,
    starts: &Numbers,
    definitions: &[usize],
) -> Result<Vec<Option<Identifier>>, AllocError> {
    let mut names = Vec::new(alloc);
    for token in definitions {
        let start = starts.get(*token).unwrap_or(0);
        let name = name_at(alloc, text, start, text.len())?;
        names.push(name)?;
    }
    Ok(names)
}

/// The refusal of a module by itself, or none.
fn refusal_alone(alloc: Global, front: &str) -> Option<Refusal> {
    let mut ctx = Context::new(alloc);
    let loaded = load_front(alloc, &mut ctx, &mut Watched::new(front.as_bytes()));
    let_go(ctx);
    match loaded {
        Ok(_) => None,
        Err(refusal) => Some(refusal),
    }
}

/// Whether an operation or the header of a block may end where a text does, before this sign.
fn may_end(alloc: Global, front: &str, sign: &str, tokens: usize) -> Result<bool, AllocError> {
    let mut longer = String::from_str(alloc, front)?;
    longer.push_str(sign)?;
    let chars = Characters::from_str(alloc, longer.as_str())?;
    let read = read_front(alloc, chars.as_text())?;
    let found = items_of(alloc, &read.reading.events)?;
    match found.items.last() {
        Some(item) => Ok(item.end == tokens),
        None => Ok(false),
    }
}

/// The place of the first visible character from one on, or behind the last character.
fn visible_from(text: Text, from: usize) -> usize {
    for place in from..text.len() {
        if !text.at(place).is_whitespace() {
            return place;
        }
    }
    text.len()
}

/// A syntax fault at a place of a text.
fn syntax_at(text: Text, place: usize) -> Refusal {
    let (line, column) = place_after(text.slice(0, place.min(text.len())));
    Refusal::Syntax(line, column)
}

/// Whether a refusal is the syntax fault that this one is.
fn is_same_syntax(refusal: &Refusal, other: &Refusal) -> bool {
    match (refusal, other) {
        (Refusal::Syntax(line, column), Refusal::Syntax(there, at)) => line == there
            && column == at,
        _ => false,
    }
}

/// Why a text is refused in which a mark can't stand where it does, or has too large a number: by what is before it, at the mark, or at
/// what is behind it, where the mark could end what is before it.
fn refusal_of_mark(
    alloc: Global,
    bare: Text,
    mark: Mark,
    is_second: bool,
) -> Result<Refusal, AllocError> {
    let here = syntax_at(bare, mark.start);
    let front = utf8_of(alloc, bare.slice(0, mark.start.min(bare.len())))?;
    match refusal_alone(alloc, front.as_str()) {
        Some(Refusal::Rule(_, _)) => return Ok(here),
        None => return Ok(here),
        Some(refusal) => {
            if !is_same_syntax(&refusal, &here) {
                return Ok(refusal);
            }
        }
    }
    if is_second || mark.number.is_none() {
        return Ok(here);
    }
    if may_end(alloc, front.as_str(), ";", mark.tokens_before)?
        || may_end(alloc, front.as_str(), ":", mark.tokens_before)?
    {
        return Ok(syntax_at(bare, visible_from(bare, mark.start)));
    }
    Ok(here)
}

/// Why a text is refused in which so many marks are placed, and the next one can't be.
fn refusal_of_marks(
    alloc: Global,
    bare: Text,
    marks: &[Mark],
    placed: usize,
) -> Result<Option<Refusal>, AllocError> {
    let Some(mark) = marks.get(placed) else {
        return Ok(None);
    };
    let is_second = match marks.get(placed.wrapping_sub(1)) {
        Some(before) => before.tokens_before == mark.tokens_before,
        None => false,
    };
    Ok(Some(refusal_of_mark(alloc, bare, *mark, is_second)?))
}

/// A text, taken apart.
#[derive(Clone, Copy)]
struct Parts<'a> {
    text: &'a str,
    all: Text<'a>,
    split: &'a OutlinedText,
}

impl<'a> Parts<'a> {
    fn new(text: &'a str, all: Text<'a>, split: &'a OutlinedText) -> Parts<'a>
        ensures { result.split ≡ split.entry }
    {
        Parts { text, all, split }
    }
}

/// Looks up the marks of items, which are those of these items.
fn look_up_all(
    marks: Marks<'_>,
    of_text: &[Mark],
    found: &Items,
    placed: &[Option<usize>],
    entries: &Entries,
    resolved: &mut Resolved,
) -> Result<(), AllocError> {
    for (number, mark) in placed.iter().zip(of_text) {
        if let Some(number) = number {
            if let Some(item) = found.items.get(*number) {
                resolved.look_up(entries, marks, *mark, *item, *number)?;
            }
        }
    }
    Ok(())
}

/// The entries of the section of a text, none where it has no section.
fn entries_in(alloc: Global, parts: Parts<'_>) -> Result<Entries, Refusal> {
    let key = parts.all.key();
    match parts.split.section {
        Some(start) => {
            let place = place_after(parts.all.slice(0, start.min(parts.all.len())));
            entries_of(alloc, behind(parts.text, start), place, key)
        }
        None => Ok(Entries::new(alloc, key)),
    }
}

/// What stands beside the items of a text, by its section.
fn resolved_of(
    alloc: Global,
    parts: Parts<'_>,
    front: &Front,
    found: &Items,
    placed: &[Option<usize>],
) -> Result<Resolved, Refusal> {
    let bare = parts.split.front.as_text();
    let entries = entries_in(alloc, parts)?;
    let names = names_of(alloc, bare, &front.starts, found.definitions.as_slice())?;
    let mut resolved = Resolved::new(alloc, found.items.len(), names)?;
    look_up_marks(alloc, parts, found, placed, &entries, &mut resolved)?;
    match resolved.named() {
        Some(fault) => Err(fault.refusal(parts.all)),
        None => Ok(resolved),
    }
}

/// Looks up the marks of the items of a text.
fn look_up_marks(
    alloc: Global,
    parts: Parts<'_>,
    found: &Items,
    placed: &[Option<usize>],
    entries: &Entries,
    resolved: &mut Resolved,
) -> Result<(), AllocError> {
    let whole = take_marks(alloc, parts.all)?;
    let marks = Marks {
        bare: whole.bare.as_text(),
        all: whole.marks.as_slice(),
    };
    let of_text = parts.split.marks.as_slice();
    look_up_all(marks, of_text, found, placed, entries, resolved)
}

/// Binds what stands beside the items of a text to those of its module, which come in the same order.
fn bind(
    outlines: &mut Outlines,
    nodes: &[IRNode],
    of_items: &[Option<usize>],
) -> Result<(), AllocError> {
    for (node, beside) in nodes.iter().zip(of_items) {
        if let Some(index) = beside {
            match node {
                IRNode::Operation(op) => {
                    outlines.operations.insert(*op, *index)?;
                }
                IRNode::BasicBlock(block) => {
                    outlines.blocks.insert(*block, *index)?;
                }
                IRNode::Region(_) => {}
            }
        }
    }
    Ok(())
}

/// A module of the context with what stands beside its items.
fn bound(
    alloc: Global,
    ctx: &Context<Kit>,
    root: Ptr<Operation>,
    resolved: Resolved,
) -> Result<OutlinedModule, AllocError>
    ensures { IfOk result (λ m. m.root ≡ root) }
{
    let nodes = ends_of(alloc, ctx, root)?;
    let mut outlines = Outlines {
        beside: resolved.beside,
        operations: IndexMap::new(alloc),
        blocks: IndexMap::new(alloc),
        names: resolved.names,
    };
    bind(
        &mut outlines,
        nodes.as_slice(),
        resolved.of_items.as_slice(),
    )?;
    Ok(OutlinedModule { root, outlines })
}

/// What stands beside the items of a text that was read, as this operation.
fn finish(
    alloc: Global,
    ctx: &Context<Kit>,
    parts: Parts<'_>,
    front: &Front,
    placed: &[Option<usize>],
    root: Ptr<Operation>,
) -> Result<OutlinedModule, Refusal>
    ensures { IfOk result (λ m. m.root ≡ root) }
{
    let found = items_of(alloc, &front.reading.events)?;
    let resolved = resolved_of(alloc, parts, front, &found, placed)?;
    match resolved.broken {
        Some(operation) => Err(unknown_attribute(alloc, &front.reading.events, operation)?),
        None => Ok(bound(alloc, ctx, root, resolved)?),
    }
}

/// Why a text is refused that breaks this rule first at a place: for a fault of its section or its marks, or for the first rule.
fn broken(
    alloc: Global,
    parts: Parts<'_>,
    front: &Front,
    placed: &[Option<usize>],
    rule: Rule,
    place: Place,
) -> Result<Refusal, Refusal> {
    let found = items_of(alloc, &front.reading.events)?;
    let resolved = resolved_of(alloc, parts, front, &found, placed)?;
    let operation = resolved.broken;
    drop(resolved);
    Ok(first_rule(alloc, &front.reading.events, operation, rule, place)?)
}

/// The refusal that comes either way.
fn either(refusal: Result<Refusal, Refusal>) -> Refusal {
    match refusal {
        Ok(refusal) => refusal,
        Err(refusal) => refusal,
    }
}

/// Reads the operations of a text that is taken apart, of which the grammar reads this.
fn load_read(
    alloc: Global,
    ctx: &mut Context<Kit>,
    parts: Parts<'_>,
    front: &Front,
) -> Result<OutlinedModule, Refusal>
    ensures loads { IfOk result (λ m. Loads (encode_utf8_all (owned_codes parts.entry.split.now.front)) ctx.old ctx.new m.root) }
    ensures writable { IfOk result (λ m. CanBeWritten ctx.new m.root) }
    ensures grammar { IfOk result (λ _. HasGrammar) }
{
    let bare = parts.split.front.as_text();
    let marks = parts.split.marks.as_slice();
    let placed = marked_items(alloc, &front.reading.events, marks)?;
    let count = count_placed(marks, placed.as_slice());
    if let Some(refusal) = refusal_of_marks(alloc, bare, marks, count)? {
        return Err(refusal);
    }
    load_placed(alloc, ctx, parts, front, placed.as_slice())
}

/// The same where marks stand where they may, which belong to these items.
fn load_placed(
    alloc: Global,
    ctx: &mut Context<Kit>,
    parts: Parts<'_>,
    front: &Front,
    placed: &[Option<usize>],
) -> Result<OutlinedModule, Refusal>
    ensures loads { IfOk result (λ m. Loads (encode_utf8_all (owned_codes parts.entry.split.now.front)) ctx.old ctx.new m.root) }
    ensures writable { IfOk result (λ m. CanBeWritten ctx.new m.root) }
    ensures grammar { IfOk result (λ _. HasGrammar) }
{
    match load_text(alloc, ctx, parts.split.front.as_text()) {
        Ok(root) => finish(alloc, ctx, parts, front, placed, root),
        Err(Refusal::Rule(rule, place)) => {
            Err(either(broken(alloc, parts, front, placed, rule, place)))
        }
        Err(refusal) => Err(refusal),
    }
}

/// Reads bytes that are a text without marks and section.
fn load_bytes(
    alloc: Global,
    ctx: &mut Context<Kit>,
    bytes: &[u8],
) -> Result<Ptr<Operation>, Refusal>
    ensures loads { IfOk result (Loads bytes.now ctx.old ctx.new) }
    ensures refused { IfErr result (IsRefused bytes.now ctx.old) }
    ensures writable { IfOk result (CanBeWritten ctx.new) }
    ensures grammar { IfOk result (λ _. HasGrammar) }
{
    load_front(alloc, ctx, &mut Watched::new(bytes))
}

/// Reads a text without marks and section.
fn load_text(alloc: Global, ctx: &mut Context<Kit>, text: Text) -> Result<Ptr<Operation>, Refusal>
    ensures loads { IfOk result (Loads (encode_utf8_all (codes_of text.entry)) ctx.old ctx.new) }
    ensures refused { IfErr result (IsRefused (encode_utf8_all (codes_of text.entry)) ctx.old) }
    ensures writable { IfOk result (CanBeWritten ctx.new) }
    ensures grammar { IfOk result (λ _. HasGrammar) }
{
    let bytes = utf8_of(alloc, text)?;
    load_bytes(alloc, ctx, bytes.as_bytes())
}

/// Whether a text has no marks and no section.
fn is_bare(split: &OutlinedText) -> bool
    ensures { (split.now.section ≡ None) × (split.now.marks.items ≡ []) → result ≡ true }
{
    split.section.is_none() && split.marks.is_empty()
}

/// What stands beside the items of a text without marks and section that was read, as this operation: the names of its values.
fn finish_bare(
    alloc: Global,
    ctx: &Context<Kit>,
    parts: Parts<'_>,
    root: Ptr<Operation>,
) -> Result<OutlinedModule, AllocError>
    ensures { IfOk result (λ m. m.root ≡ root) }
{
    let bare = parts.split.front.as_text();
    let front = read_front(alloc, bare)?;
    let found = items_of(alloc, &front.reading.events)?;
    let names = names_of(alloc, bare, &front.starts, found.definitions.as_slice())?;
    bound(
        alloc,
        ctx,
        root,
        Resolved::new(alloc, found.items.len(), names)?,
    )
}

/// Reads a text without marks and section.
fn load_bare(
    alloc: Global,
    ctx: &mut Context<Kit>,
    parts: Parts<'_>,
) -> Result<OutlinedModule, Refusal>
    ensures loads { IfOk result (λ m. Loads (encode_utf8_all (owned_codes parts.entry.split.now.front)) ctx.old ctx.new m.root) }
    ensures writable { IfOk result (λ m. CanBeWritten ctx.new m.root) }
    ensures grammar { IfOk result (λ _. HasGrammar) }
    ensures refused { IfErr result (IsRefused (encode_utf8_all (owned_codes parts.entry.split.now.front)) ctx.old) }
{
    let root = load_text(alloc, ctx, parts.split.front.as_text())?;
    Ok(finish_bare(alloc, ctx, parts, root)?)
}

/// Reads a module with what stands beside its items into a context.
///
/// # Errors
/// The first fault of the text: of its operations, its marks or its section, by line and column, or a broken rule by its place; that memory
/// is refused; or that the context has too few numbers left for the text's values. The context may hold operations of the text then.
pub fn load(alloc: Global, ctx: &mut Context<Kit>, text: &str) -> Result<OutlinedModule, Refusal>
    ensures loads { IfOk result (λ m. LoadsFront text.now ctx.old ctx.new m.root) }
    ensures writable { IfOk result (λ m. CanBeWritten ctx.new m.root) }
    ensures grammar { IfOk result (λ _. HasGrammar) }
    ensures whole { IsBareText text.now → IfOk result (λ m. Loads text.now ctx.old ctx.new m.root) }
    ensures refused { IsBareText text.now → IfErr result (IsRefused text.now ctx.old) }
{
    let chars = Characters::from_str(alloc, text)?;
    let all = chars.as_text();
    let split = split_outlined(alloc, all)?;
    let parts = Parts::new(text, all, &split);
    if is_bare(&split) {
        return load_bare(alloc, ctx, parts);
    }
    load_split(alloc, ctx, parts)
}

/// The same of a text that is taken apart.
fn load_split(
    alloc: Global,
    ctx: &mut Context<Kit>,
    parts: Parts<'_>,
) -> Result<OutlinedModule, Refusal>
    ensures loads { IfOk result (λ m. Loads (encode_utf8_all (owned_codes parts.entry.split.now.front)) ctx.old ctx.new m.root) }
    ensures writable { IfOk result (λ m. CanBeWritten ctx.new m.root) }
    ensures grammar { IfOk result (λ _. HasGrammar) }
{
    let front = read_front(alloc, parts.split.front.as_text())?;
    load_read(alloc, ctx, parts, &front)
}

/// The operations of a text alone: without marks, and without the section.
pub(crate) fn front_of(alloc: Global, text: &str) -> Result<String, AllocError> {
    let chars = Characters::from_str(alloc, text)?;
    let split = split_outlined(alloc, chars.as_text())?;
    utf8_of(alloc, split.front.as_text())
}
