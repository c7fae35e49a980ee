//! Constant propagation.
use crate::playing::{Pass, test_after};
use ir_opts::{IRStatus, OptError};
use std::test::Fail;

const OWN_OPERAND: &str = "box {
^b
x = id x
ret
}";

const DIAMOND: &str = "box {
^a
c = const 1
cond c ^b ^d
^b
x = const 5
br ^e x
^d
y = const 7
br ^e y
^e z
use z
ret
}";

const DIAMOND_AFTER: &str = "box {
^a
c = const 1
cond c ^b ^d
^b
x = const 5
br ^e x
^d
y = const 7
br ^e y
^e z
k = const 5
use k
ret
}";

const TWO_EDGES: &str = "box {
^a
c = const 1
p = const 3
q = const 4
cond c ^e p ^e q
^e z
use z
ret
}";

const LOOP: &str = "box {
^a
one = const 1
br ^l one
^l i
c = def 0
cond c ^l i ^x
^x
use i
ret
}";

const LOOP_AFTER: &str = "box {
^a
one = const 1
br ^l one
^l i
k = const 1
c = def 0
cond c ^l k ^x
^x
use k
ret
}";

const SUMS: &str = "box {
^a x y
two = const 2
four = add two two
six = add four two
use six
br ^b six x
^b u v
use u
use v
ret
}";

const SUMS_AFTER: &str = "box {
^a x y
two = const 2
k = const 4
four = add two two
m = const 6
six = add k two
use m
br ^b m x
^b u v
n = const 6
use n
use v
ret
}";

const FORWARDED: &str = "box {
^a
one = const 1
br ^b one
^b u
br ^d u
^d v
ret
}";

const FORWARDED_AFTER: &str = "box {
^a
one = const 1
br ^b one
^b u
k = const 1
br ^d k
^d v
ret
}";

const UNUSED: &str = "box {
^a
one = const 1
x = add one one
br ^b x
^b u
ret
}";

const UNUSED_AFTER: &str = "box {
^a
one = const 1
k = const 2
x = add one one
br ^b k
^b u
ret
}";

const UNUSED_SUM: &str = "box {
^a
one = const 1
x = add one one
ret
}";

/// Programs, and what constant propagation makes of them. A value that is only forwarded has a use.
const KNOWN: &[(&str, &str)] = &[
    (DIAMOND, DIAMOND_AFTER),
    (LOOP, LOOP_AFTER),
    (SUMS, SUMS_AFTER),
    (FORWARDED, FORWARDED_AFTER),
    (UNUSED, UNUSED_AFTER),
];

/// Programs in which no known value has a use that isn't a constant's: what a first time left too.
const SETTLED: &[&str] = &[
    TWO_EDGES,
    UNUSED_SUM,
    DIAMOND_AFTER,
    LOOP_AFTER,
    SUMS_AFTER,
    FORWARDED_AFTER,
    UNUSED_AFTER,
];

#[test]
fn nothing_is_found_out_of_an_operand_that_waits_for_itself(rt: HostRuntime) -> Result<(), Fail> {
    let alloc = rt.alloc();
    test_after(
        &rt,
        alloc,
        Pass::Sccp,
        OWN_OPERAND,
        Err(OptError::UndeterminedOperand),
        OWN_OPERAND,
    )
}

#[test]
fn constants_come_in_for_known_values(rt: HostRuntime) -> Result<(), Fail> {
    let alloc = rt.alloc();
    for (text, program) in KNOWN {
        test_after(&rt, alloc, Pass::Sccp, text, Ok(IRStatus::Changed), program)?;
    }
    Ok(())
}

#[test]
fn nothing_comes_in_where_no_known_value_has_a_use(rt: HostRuntime) -> Result<(), Fail> {
    let alloc = rt.alloc();
    for text in SETTLED {
        test_after(&rt, alloc, Pass::Sccp, text, Ok(IRStatus::Unchanged), text)?;
    }
    Ok(())
}
