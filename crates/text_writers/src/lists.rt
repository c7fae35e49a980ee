//! Lists.
ghost use Rattle.std.specs.Prelude.{◌≡◌, ◌++◌, OnOk, List};
ghost use Rattle.std.specs.Iterator.{Drains, IsFinite};
ghost use Rattle.std.specs.List.{All};
ghost use Rattle.text_writers.specs.Appending.{Appends};
ghost use Rattle.text_writers.specs.Printers.{AppendsOnly, Prints, item_calls};
ghost use Rattle.text_writers.specs.Separators.{PrintsSeparated, separator_before};

use crate::printable::Printable;
use crate::separators::ListSeparator;
use crate::state::State;
use crate::writer::TextWriter;
use std::alloc::AllocError;

/// Writes a separator, but not before the first member.
fn separate<W: TextWriter>(
    is_first: bool,
    separator: ListSeparator,
    out: &mut W,
) -> Result<(), AllocError>
    ensures { OnOk result (W.written out.new ≡ W.written out.old ++ separator_before is_first separator) }
{
    if is_first {
        Ok(())
    } else {
        separator.write_to(out)
    }
}

/// Writes what an iterator gives, with a separator between the items.
pub fn fmt_iter<C, W: TextWriter, T: Printable<C, W> + Drop, I: Iterator<Item = T> + Drop>(
    items: I,
    separator: ListSeparator,
    context: &C,
    state: &mut State,
    out: &mut W,
) -> Result<(), AllocError>
    requires can_next { I.can_next items }
    requires finite { IsFinite (I.remaining items) }
    requires can_print { (x : T) → T.can_print x }
    ensures text { OnOk result (Appends
        (λ bytes. (xs : List T) × Drains I.next_gives items xs × PrintsSeparated (λ x. T.prints x context.now state.old) separator xs bytes)
        (W.written out.old) (W.written out.new)) }
    ensures state { state.new ≡ state.old }
{
    let mut is_first = true;
    for item in items {
        separate(is_first, separator, out)?;
        is_first = false;
        item.fmt(context, state, out)?;
    }
    Ok(())
}

/// The members of a list, with a separator between them.
#[derive(Drop)]
pub struct ListWithSep<'a, T> {
    members: &'a [T],
    separator: ListSeparator,
}

/// The members of a list, with a separator between them.
pub fn list_with_sep<T>(members: &[T], separator: ListSeparator) -> ListWithSep<'_, T>
    ensures { result ≡ record { members = members.entry; separator = separator } }
{
    ListWithSep { members, separator }
}

impl<C, W: TextWriter, T: Printable<C, W>> Printable<C, W> for ListWithSep<'_, T> {
    ghost can_print = { λ it. All T.can_print it.members.now };

    ghost prints = { λ it context state. PrintsSeparated (λ x. T.prints x context state) it.separator it.members.now };

    fn fmt(&self, context: &C, state: &mut State, out: &mut W) -> Result<(), AllocError> {
        let mut is_first = true;
        for member in self.members {
            separate(is_first, self.separator, out)?;
            is_first = false;
            member.fmt(context, state, out)?;
        }
        Ok(())
    }
}

/// What an iterator gives, with a separator between the items.
#[derive(Drop)]
pub struct IterWithSep<I> {
    items: I,
    separator: ListSeparator,
}

/// What an iterator gives, with a separator between the items. It is copied to be printed.
pub fn iter_with_sep<I: Iterator + Clone>(items: I, separator: ListSeparator) -> IterWithSep<I>
    ensures { result ≡ record { items = items; separator = separator } }
{
    IterWithSep { items, separator }
}

impl<C, W: TextWriter, T: Printable<C, W> + Drop, I: Iterator<Item = T> + Clone> Printable<C, W>
    for IterWithSep<I> {
    ghost can_print = { λ it. ((copy : I) → I.is_clone it.items copy → I.can_next copy × IsFinite (I.remaining copy)) × ((x : T) → T.can_print x) };

    ghost prints = { λ it context state bytes. (copy : I) × (xs : List T) × I.is_clone it.items copy × Drains I.next_gives copy xs
        × PrintsSeparated (λ x. T.prints x context state) it.separator xs bytes };

    fn fmt(&self, context: &C, state: &mut State, out: &mut W) -> Result<(), AllocError> {
        let items = self.items.clone()?;
        fmt_iter(items, self.separator, context, state, out)
    }
}

/// What a function prints for each item that an iterator gives, with a separator between them.
#[derive(Drop)]
pub struct IterWithSepBy<I, F> {
    items: I,
    separator: ListSeparator,
    printer: F,
}

/// What a function prints for each item that an iterator gives, with a separator between them. The iterator is copied to be printed.
pub fn iter_with_sep_by<I: Iterator + Clone, F>(
    items: I,
    separator: ListSeparator,
    printer: F,
) -> IterWithSepBy<I, F>
    ensures { result ≡ record { items = items; separator = separator; printer = printer } }
{
    IterWithSepBy {
        items,
        separator,
        printer,
    }
}

impl<
    C,
    W: TextWriter,
    T: Drop,
    I: Iterator<Item = T> + Clone,
    F: Fn(T, &C, &mut State, &mut W) -> Result<(), AllocError>,
> Printable<C, W> for IterWithSepBy<I, F> {
    ghost can_print = { λ it. ((copy : I) → I.is_clone it.items copy → I.can_next copy × IsFinite (I.remaining copy))
        × F.IsAlwaysCallable it.printer × ((x : T) (context : C) → AppendsOnly W.written (item_calls F.Fn it.printer x context)) };

    ghost prints = { λ it context state bytes. (copy : I) × (xs : List T) × I.is_clone it.items copy × Drains I.next_gives copy xs
        × PrintsSeparated (λ x. Prints W.written (item_calls F.Fn it.printer x context) state) it.separator xs bytes };

    fn fmt(&self, context: &C, state: &mut State, out: &mut W) -> Result<(), AllocError> {
        let mut is_first = true;
        for item in self.items.clone()? {
            separate(is_first, self.separator, out)?;
            is_first = false;
            (self.printer)(item, context, state, out)?;
        }
        Ok(())
    }
}
