//! Reading by formats.
ghost use Rattle.std.specs.Prelude.{◌≡◌, ℕ, suc, List, OnOk, IfErr};
ghost use Rattle.ir_print.specs.Formats.{step_of, steps_of, choices_of, a_leaf, a_value, list_of, choice_of};
ghost use Rattle.value_texts.specs.Progress.{TakesStep, TakesOne, TakesSteps, TakesMember};
ghost use Rattle.value_texts.specs.Only.{IsRefusal, RefusesStep, RefusesSteps};

use crate::deciding::{begins_at, chosen_at};
use crate::kinds::kind_named;
use crate::maker::{Refusal, ValueMaker};
use crate::progress::{Progress, ReadFault, leaf_at, syntax};
use ir_print::{Directive, LeafSort, ValueSort};
use std::alloc::Global;
use stream_tokens::next_token;
use text_streams::{Position, TextError};

/// Lists and choices stand in one another at most so deep in a format.
const LISTS: u32 = 64;

/// What is answered where no value is made of what was read.
fn refused<'a, P: Drop>(refusal: Refusal, read: &Progress<'a, P>) -> ReadFault<'a>
    ensures { IsRefusal refusal result }
{
    match refusal {
        Refusal::Memory => ReadFault::Memory,
        Refusal::Refused(number) => match read.places.get(number) {
            Some(place) => ReadFault::Text(TextError::Syntax, *place),
            None => ReadFault::Text(TextError::Syntax, read.last),
        },
    }
}

/// Reads a leaf.
fn read_leaf<'a, M: ValueMaker>(
    alloc: Global,
    sort: LeafSort,
    progress: &mut Progress<'a, M::Part>,
) -> Result<(), ReadFault<'a>>
    ensures took { (s : M.Store) (left : ℕ) → OnOk result (TakesOne M.formats M.values M.leaf_in (M.shows s) left (a_leaf sort) progress.old progress.new) }
    ensures refuses { (deepest lists : ℕ) → IfErr result (λ fault. RefusesStep M.formats M.values M.leaf_in (a_leaf sort) progress.old.at deepest lists fault) }
{
    let Some(token) = leaf_at(alloc, progress.at, sort)? else {
        return Err(syntax(progress.at));
    };
    let part = M::leaf(alloc, sort, &token)?;
    progress.put(part, token.start)?;
    progress.at = token.end;
    progress.last = token.start;
    Ok(())
}

/// Reads a type or an attribute, where `left` may stand in one another from here on.
#[cycle(steps)]
pub(crate) fn read_value<'a, M: ValueMaker>(
    alloc: Global,
    store: &mut M::Store,
    sort: ValueSort,
    progress: &mut Progress<'a, M::Part>,
    left: u32,
) -> Result<(), ReadFault<'a>>
    ensures took { OnOk result (TakesOne M.formats M.values M.leaf_in (M.shows store.new) left (a_value sort) progress.old progress.new) }
    ensures keeps { M.keeps store.old store.new }
    ensures refuses { (lists : ℕ) → IfErr result (λ fault. RefusesStep M.formats M.values M.leaf_in (a_value sort) progress.old.at left lists fault) }
{
    let Some(token) = next_token(alloc, progress.at)? else {
        return Err(syntax(progress.at));
    };
    let Some((number, format)) = kind_named::<M>(sort, &token) else {
        return Err(syntax(progress.at));
    };
    if left == 0 {
        return Err(ReadFault::Text(TextError::TooDeep, token.start));
    }
    let mut inner = Progress::new(alloc, token.end, token.start);
    read_steps::<M>(alloc, store, format, &mut inner, left - 1, LISTS)?;
    let part = match M::value(alloc, store, sort, number, &inner.parts) {
        Ok(part) => part,
        Err(refusal) => return Err(refused(refusal, &inner)),
    };
    progress.put(part, token.start)?;
    progress.at = inner.at;
    progress.last = inner.last;
    Ok(())
}

/// Reads what a format says. Lists and choices may stand in one another `lists` deep in it.
#[cycle(steps)]
fn read_steps<'a, M: ValueMaker>(
    alloc: Global,
    store: &mut M::Store,
    format: &[Directive],
    progress: &mut Progress<'a, M::Part>,
    left: u32,
    lists: u32,
) -> Result<(), ReadFault<'a>>
    ensures took { OnOk result (TakesSteps M.formats M.values M.leaf_in (M.shows store.new) left (steps_of format.now) progress.old progress.new) }
    ensures keeps { M.keeps store.old store.new }
    ensures refuses { IfErr result (λ fault. RefusesSteps M.formats M.values M.leaf_in (steps_of format.now) progress.old.at left lists fault) }
{
    for directive in format {
        read_step::<M>(alloc, store, *directive, progress, left, lists)?;
    }
    Ok(())
}

/// Reads what a step of a format says. Operands, edges, regions and symbols are of operations alone.
#[cycle(steps)]
fn read_step<'a, M: ValueMaker>(
    alloc: Global,
    store: &mut M::Store,
    directive: Directive,
    progress: &mut Progress<'a, M::Part>,
    left: u32,
    lists: u32,
) -> Result<(), ReadFault<'a>>
    ensures took { OnOk result (TakesStep M.formats M.values M.leaf_in (M.shows store.new) left (step_of directive) progress.old progress.new) }
    ensures keeps { M.keeps store.old store.new }
    ensures refuses { IfErr result (λ fault. RefusesStep M.formats M.values M.leaf_in (step_of directive) progress.old.at left lists fault) }
{
    match directive {
        Directive::Literal(text) => {
            if progress.take_word(alloc, text.trim())? {
                Ok(())
            } else {
                Err(syntax(progress.at))
            }
        }
        Directive::Attribute => {
            read_value::<M>(alloc, store, ValueSort::Attribute, progress, left)
        }
        Directive::Type => read_value::<M>(alloc, store, ValueSort::Type, progress, left),
        Directive::Name => read_leaf::<M>(alloc, LeafSort::Name, progress),
        Directive::Number => read_leaf::<M>(alloc, LeafSort::Number, progress),
        Directive::Digits => read_leaf::<M>(alloc, LeafSort::Digits, progress),
        Directive::Width => read_leaf::<M>(alloc, LeafSort::Width, progress),
        Directive::Text => read_leaf::<M>(alloc, LeafSort::Text, progress),
        Directive::Mark => read_leaf::<M>(alloc, LeafSort::Mark, progress),
        Directive::List(member, separator) => {
            if lists == 0 {
                return Err(syntax(progress.at));
            }
            read_list::<M>(
                alloc,
                store,
                member,
                separator.trim(),
                progress,
                left,
                lists - 1,
            )
        }
        Directive::Choice(alternatives) => {
            if lists == 0 {
                return Err(syntax(progress.at));
            }
            read_choice::<M>(alloc, store, alternatives, progress, left, lists - 1)
        }
        Directive::Operands
        | Directive::Operand
        | Directive::Successor
        | Directive::Region
        | Directive::SymbolHeader => Err(syntax(progress.at)),
    }
}

/// Reads a list.
#[cycle(steps)]
fn read_list<'a, M: ValueMaker>(
    alloc: Global,
    store: &mut M::Store,
    member: &[Directive],
    separator: &str,
    progress: &mut Progress<'a, M::Part>,
    left: u32,
    lists: u32,
) -> Result<(), ReadFault<'a>>
    ensures took { (printed : List ℕ) → OnOk result (TakesOne M.formats M.values M.leaf_in (M.shows store.new) left (list_of (steps_of member.now) printed separator.now) progress.old progress.new) }
    ensures keeps { M.keeps store.old store.new }
    ensures refuses { (printed : List ℕ) → IfErr result (λ fault. RefusesStep M.formats M.values M.leaf_in (list_of (steps_of member.now) printed separator.now) progress.old.at left (suc lists) fault) }
{
    let mut members = Vec::new(alloc);
    if begins_at(alloc, progress.at, member)? {
        read_member::<M>(alloc, store, member, &mut members, progress, left, lists)?;
        while progress.take_word(alloc, separator)? {
            read_member::<M>(alloc, store, member, &mut members, progress, left, lists)?;
        }
    }
    progress.parts.push(M::list(members))?;
    Ok(())
}

/// Reads a member of a list.
#[cycle(steps)]
fn read_member<'a, M: ValueMaker>(
    alloc: Global,
    store: &mut M::Store,
    member: &[Directive],
    members: &mut Vec<Vec<M::Part>>,
    progress: &mut Progress<'a, M::Part>,
    left: u32,
    lists: u32,
) -> Result<(), ReadFault<'a>>
    ensures took { OnOk result (TakesMember M.formats M.values M.leaf_in (M.shows store.new) left (steps_of member.now) members.old.items members.new.items progress.old progress.new) }
    ensures keeps { M.keeps store.old store.new }
    ensures refuses { IfErr result (λ fault. RefusesSteps M.formats M.values M.leaf_in (steps_of member.now) progress.old.at left lists fault) }
{
    let mut inner = Progress::new(alloc, progress.at, progress.last);
    read_steps::<M>(alloc, store, member, &mut inner, left, lists)?;
    progress.follow(&inner.places, inner.at, inner.last)?;
    let Progress { parts, .. } = inner;
    members.push(parts)?;
    Ok(())
}

/// Reads what one of several formats says.
#[cycle(steps)]
fn read_choice<'a, M: ValueMaker>(
    alloc: Global,
    store: &mut M::Store,
    alternatives: &[&'static [Directive]],
    progress: &mut Progress<'a, M::Part>,
    left: u32,
    lists: u32,
) -> Result<(), ReadFault<'a>>
    ensures took { OnOk result (TakesOne M.formats M.values M.leaf_in (M.shows store.new) left (choice_of (choices_of alternatives.now)) progress.old progress.new) }
    ensures keeps { M.keeps store.old store.new }
    ensures refuses { IfErr result (λ fault. RefusesStep M.formats M.values M.leaf_in (choice_of (choices_of alternatives.now)) progress.old.at left (suc lists) fault) }
{
    let Some(number) = chosen_at(alloc, progress.at, alternatives)? else {
        return Err(syntax(progress.at));
    };
    let Some(format) = alternatives.get(number) else {
        return Err(syntax(progress.at));
    };
    let mut inner = Progress::new(alloc, progress.at, progress.last);
    read_steps::<M>(alloc, store, *format, &mut inner, left, lists)?;
    progress.follow(&inner.places, inner.at, inner.last)?;
    let Progress { parts, .. } = inner;
    progress.parts.push(M::choice(number, parts))?;
    Ok(())
}
