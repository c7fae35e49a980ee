//! Dead code elimination.
use crate::asserting::same;
use crate::playing::{Pass, Played, after, expected, test_after};
use ir_opts::IRStatus;
use opt_tiny::Unread;
use std::alloc::{AllocError, Global};
use std::test::Fail;

const USED_OUTSIDE: &str = "box {
^b
pure {
^c
x = def 1
ret
}
use x
ret
}";

const IN_A_CIRCLE: &str = "box {
^b
x = id y
y = id x
ret
}";

const NESTED: &str = "box {
^b
a = const 1
pure {
^c
pure {
^d
use a
y = id z
ret
}
z = id y
ret
}
ret
}";

/// The constant is used in what goes alone.
const USED_INSIDE: &str = "box {
^b
a = const 1
pure {
^c
use a
ret
}
ret
}";

const EMPTY: &str = "box {
^b
ret
}";

const CARRIED: &str = "box {
^a
i = const 1
n = const 2
br ^b i n
^b x u
y = id x
use u
br ^c x u
^c z w
use w
ret
}";

const CARRIED_AFTER: &str = "box {
^a
n = const 2
br ^b n
^b u
use u
br ^c u
^c w
use w
ret
}";

/// The least set of the dead has no circle.
const CARRIED_ROUND: &str = "box {
^a
i = const 1
br ^b i
^b x
c = def 0
cond c ^b x ^c
^c
ret
}";

/// Programs in which nothing is dead.
const USED: &[&str] = &[
    USED_OUTSIDE,
    IN_A_CIRCLE,
    CARRIED_ROUND,
    CARRIED_AFTER,
    EMPTY,
];

/// Programs, and what elimination makes of them.
const DEAD: &[(&str, &str)] = &[
    (USED_INSIDE, EMPTY),
    (NESTED, EMPTY),
    (CARRIED, CARRIED_AFTER),
];

/// Operations without effects, so many in each other, that use a value of the outermost block.
fn nest(alloc: Global, depth: usize) -> Result<String, AllocError> {
    let mut text = String::new(alloc);
    write_nest(&mut text, depth)?;
    Ok(text)
}

/// Writes such operations.
fn write_nest(text: &mut String, depth: usize) -> Result<(), AllocError> {
    text.push_str("box {\n^b\na = const 1\n")?;
    for _ in 0..depth {
        text.push_str("pure {\n^c\nu = id a\n")?;
    }
    for _ in 0..depth {
        text.push_str("}\n")?;
    }
    text.push_str("ret\n}")
}

/// What elimination makes of so many operations in each other.
fn nest_after(alloc: Global, depth: usize) -> Result<Played, Unread> {
    let text = nest(alloc, depth)?;
    after(alloc, Pass::Dce, &text)
}

#[test]
fn what_is_used_stays(rt: HostRuntime) -> Result<(), Fail> {
    let alloc = rt.alloc();
    for text in USED {
        test_after(&rt, alloc, Pass::Dce, text, Ok(IRStatus::Unchanged), text)?;
    }
    Ok(())
}

#[test]
fn what_the_dead_alone_use_goes(rt: HostRuntime) -> Result<(), Fail> {
    let alloc = rt.alloc();
    for (text, program) in DEAD {
        test_after(&rt, alloc, Pass::Dce, text, Ok(IRStatus::Changed), program)?;
    }
    Ok(())
}

#[test]
fn a_thousand_nested_operations_go(rt: HostRuntime) -> Result<(), Fail> {
    let alloc = rt.alloc();
    same(
        &rt,
        nest_after(alloc, 1_000)?,
        expected(alloc, Ok(IRStatus::Changed), EMPTY)?,
    );
    Ok(())
}
