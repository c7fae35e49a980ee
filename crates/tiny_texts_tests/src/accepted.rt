//! Texts that are accepted, with what is printed of them.
use crate::reading::{answer, read};
use ir_context::{Context, OperationCalls};
use std::alloc::{AllocError, Global};
use text_printing::print_module;
use tiny_texts::{TinyText, let_go};

/// Branches to blocks before and behind them, with what they hand on.
const BRANCHES: &str = "t.box {
^a(): x = t.def t.num 7; t.br ^b(x, x)
^b(p: t.int, q: t.int): y = t.id p; t.use q; t.br ^c(y)
^c(r: t.int): t.br ^b(r, x)}";

const BRANCHES_PRINTED: &str = "t.box \n{
  ^a_block1v1():
    v0 = t.def t.num 7;
    t.br ^b_block2v1(v0, v0)
  ^b_block2v1(v1: t.int, v2: t.int):
    v3 = t.id v1;
    t.use v2;
    t.br ^c_block3v1(v3)
  ^c_block3v1(v4: t.int):
    t.br ^b_block2v1(v4, v0)
}";

/// What is printed of the text above: each label has a suffix more.
const BRANCHES_AGAIN: &str = "t.box \n{
  ^a_block1v1_block1v1():
    v0 = t.def t.num 7;
    t.br ^b_block2v1_block2v1(v0, v0)
  ^b_block2v1_block2v1(v1: t.int, v2: t.int):
    v3 = t.id v1;
    t.use v2;
    t.br ^c_block3v1_block3v1(v3)
  ^c_block3v1_block3v1(v4: t.int):
    t.br ^b_block2v1_block2v1(v4, v0)
}";

/// Regions in one another. Each has labels of its own; a box has values of its own, and other regions those of the box.
const REGIONS: &str = "t.box {
^b(): t.loop {^b(): t.use a; t.pure {^b(): t.ret}; t.ret};
a = t.def t.num 1; t.box {^b(a: t.int): t.use a; t.loop {}}}";

const REGIONS_PRINTED: &str = "t.box \n{
  ^b_block1v1():
    t.loop \n    {
      ^b_block2v1():
        t.use v0;
        t.pure \n        {
          ^b_block3v1():
            t.ret
        };
        t.ret
    };
    v0 = t.def t.num 1;
    t.box \n    {
      ^b_block4v1(v1: t.int):
        t.use v1;
        t.loop \n        {
        }
    }
}";

/// White space of other sorts, and none where tokens don't run together; zeros that lead a number; a last `;`.
const SPACED: &str = "\n t.box{^b():a\u{a0}=t.def\tt.num\u{2003}018446744073709551615;}\r\n";

const SPACED_PRINTED: &str = "t.box \n{
  ^b_block1v1():
    v0 = t.def t.num 18446744073709551615
}";

/// A value that is used before it is made, in the same region and in one inside it.
const EARLY: &str = "t.box {^b(): t.use a; a = t.def t.num 1}";

const EARLY_PRINTED: &str = "t.box \n{
  ^b_block1v1():
    t.use v0;
    v0 = t.def t.num 1
}";

const EARLY_INSIDE: &str = "t.box {^b(): t.loop {^c(): t.use a}; a = t.def t.num 1}";

const EARLY_INSIDE_PRINTED: &str = "t.box \n{
  ^b_block1v1():
    t.loop \n    {
      ^c_block2v1():
        t.use v0
    };
    v0 = t.def t.num 1
}";

/// A mark beside a number, and the greatest one.
const MARKS: &str = "t.box {^b(): a = t.def t.ref !3; b = t.def t.num 3;
c = t.def t.ref !018446744073709551615}";

const MARKS_PRINTED: &str = "t.box \n{
  ^b_block1v1():
    v0 = t.def t.ref !3;
    v1 = t.def t.num 3;
    v2 = t.def t.ref !18446744073709551615
}";

/// Texts, and what is printed of each.
const TEXTS: &[(&str, &str)] = &[
    ("t.ret", "t.ret"),
    ("x = t.id x", "v0 = t.id v0"),
    ("t.box {}", "t.box \n{\n}"),
    ("t.box {^b():}", "t.box \n{\n  ^b_block1v1():\n}"),
    (EARLY, EARLY_PRINTED),
    (EARLY_INSIDE, EARLY_INSIDE_PRINTED),
    (SPACED, SPACED_PRINTED),
    (MARKS, MARKS_PRINTED),
    (REGIONS, REGIONS_PRINTED),
    (BRANCHES, BRANCHES_PRINTED),
    (BRANCHES_PRINTED, BRANCHES_AGAIN),
];

/// Texts are read, and what was read is printed.
#[test]
fn texts_are_read_and_printed(rt: HostRuntime) -> Result<(), AllocError> {
    for (text, printed) in TEXTS {
        assert_eq!(rt; answer(rt.alloc(), text)?.as_str(), *printed);
    }
    Ok(())
}

/// The text of a module that is in a context, or nothing where the text that stood for it isn't read.
fn module_in(alloc: Global, ctx: &mut Context<TinyText>, text: &str) -> Result<String, AllocError> {
    match read(alloc, ctx, text) {
        Ok(root) if root.is_live(ctx) => print_module(alloc, ctx, root),
        _ => Ok(String::new(alloc)),
    }
}

/// The text of a module as of a program: a line feed stands behind it.
#[test]
fn modules_end_with_a_line_feed(rt: HostRuntime) -> Result<(), AllocError> {
    let mut ctx = Context::new(rt.alloc());
    let text = module_in(rt.alloc(), &mut ctx, "t.box {}");
    let_go(ctx);
    assert_eq!(rt; text?.as_str(), "t.box \n{\n}\n");
    Ok(())
}
