//! What is printed.
ghost use Rattle.std.specs.Prelude.{◌≡◌, ◌++◌};
ghost use Rattle.ir_print.specs.Layout.{line};
ghost use Rattle.text_writers.specs.States.{indented};

use std::alloc::AllocError;
use std::test::Fail;
use text_writers::{
    ListSeparator, Printable, RegionPrintDepthLimit, State, TextWriter, disp, enclosed, fmt_iter,
    in_region, indented_nl, iter_with_sep, iter_with_sep_by, list_with_sep, printable_from_fn,
};

/// A text on a line of its own, one step deeper.
#[derive(Clone, Copy)]
struct Line(&'static str);

impl<C, W: TextWriter> Printable<C, W> for Line {
    ghost prints = { λ it _ state bytes. bytes ≡ line (indented state).current_indent ++ it.0.now };

    fn fmt(&self, context: &C, state: &mut State, out: &mut W) -> Result<(), AllocError> {
        let guard = state.indent();
        indented_nl(guard.state).fmt(context, guard.state, out)?;
        self.0.fmt(context, guard.state, out)
    }
}

#[test]
fn lists_are_separated(rt: HostRuntime) -> Result<(), Fail> {
    let members = ["a", "b", "c"];
    let list = list_with_sep(&members, ListSeparator::CharSpace(','));
    let text = disp(rt.alloc(), &enclosed("[", "]", list), &())?;
    assert_eq!(rt; text.as_str(), "[a, b, c]");
    let mut lines = String::new(rt.alloc());
    let mut state = State::new();
    fmt_iter(
        members.iter(),
        ListSeparator::CharNewline(';'),
        &(),
        &mut state,
        &mut lines,
    )?;
    iter_with_sep(members.iter(), ListSeparator::Newline).fmt(&(), &mut state, &mut lines)?;
    list_with_sep(&members, ListSeparator::Char('|')).fmt(&(), &mut state, &mut lines)?;
    list_with_sep(&members, ListSeparator::None).fmt(&(), &mut state, &mut lines)?;
    assert_eq!(rt; lines.as_str(), "a;\nb;\nca\nb\nca|b|cabc");
    Ok(())
}

#[test]
fn lines_are_indented(rt: HostRuntime) -> Result<(), Fail> {
    let mut out = String::new(rt.alloc());
    let mut state = State::new();
    state.set_indent_width(3);
    let guard = state.indent();
    Line("a").fmt(&(), guard.state, &mut out)?;
    drop(guard);
    Line("b").fmt(&(), &mut state, &mut out)?;
    assert_eq!(rt; out.as_str(), "\n      a\n   b");
    assert_eq!(rt; state.current_indent(), 0);
    assert_eq!(rt; state.indent_width(), 3);
    Ok(())
}

#[test]
fn deep_regions_are_elided(rt: HostRuntime) -> Result<(), Fail> {
    let inner = in_region(enclosed("{", "}", "x"));
    let outer = in_region(enclosed("{", "}", inner));
    let mut out = String::new(rt.alloc());
    let mut state = State::new();
    outer.fmt(&(), &mut state, &mut out)?;
    state.set_region_print_depth_limit(RegionPrintDepthLimit::Max(1));
    outer.fmt(&(), &mut state, &mut out)?;
    state.set_region_print_depth_limit(RegionPrintDepthLimit::Max(0));
    outer.fmt(&(), &mut state, &mut out)?;
    assert_eq!(rt; out.as_str(), "{{x}}{{..}}{..}");
    assert_eq!(rt;
        state.current_region_print_depth_limit(),
        RegionPrintDepthLimit::Max(0)
    );
    Ok(())
}

#[test]
fn functions_print(rt: HostRuntime) -> Result<(), Fail> {
    let number = printable_from_fn(|number: &u8, _state: &mut State, out: &mut String| {
        if *number == 1 {
            out.write_text("one")
        } else {
            out.write_text("many")
        }
    });
    let text = disp(rt.alloc(), &enclosed("<", ">", number), &1)?;
    let shown = format!(in rt.alloc(); "{text}")?;
    assert_eq!(rt; shown.as_str(), "<one>");
    let numbers = [1u8, 2];
    let signs = iter_with_sep_by(
        numbers.iter(),
        ListSeparator::Char(' '),
        |number: &u8, least: &u8, _state: &mut State, out: &mut String| {
            out.write_text(if *number > *least { ">" } else { "=" })
        },
    );
    let compared = disp(rt.alloc(), &signs, &1)?;
    assert_eq!(rt; compared.as_str(), "= >");
    Ok(())
}
