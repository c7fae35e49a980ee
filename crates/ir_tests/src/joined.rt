//! An operation whose two operands are one value and whose two successors are one block, with each of its places replaced
//! singly, in each order.
use crate::playing::plays;
use std::alloc::{AllocError, Global};
use std::test::Fail;

/// The orders of four places: 0 and 1 are the operands, 2 and 3 the successors.
const ORDERS: [[usize; 4]; 24] = [
    [0, 1, 2, 3],
    [0, 1, 3, 2],
    [0, 2, 1, 3],
    [0, 2, 3, 1],
    [0, 3, 1, 2],
    [0, 3, 2, 1],
    [1, 0, 2, 3],
    [1, 0, 3, 2],
    [1, 2, 0, 3],
    [1, 2, 3, 0],
    [1, 3, 0, 2],
    [1, 3, 2, 0],
    [2, 0, 1, 3],
    [2, 0, 3, 1],
    [2, 1, 0, 3],
    [2, 1, 3, 0],
    [2, 3, 0, 1],
    [2, 3, 1, 0],
    [3, 0, 1, 2],
    [3, 0, 2, 1],
    [3, 1, 0, 2],
    [3, 1, 2, 0],
    [3, 2, 0, 1],
    [3, 2, 1, 0],
];

/// The operation, and what it names before and after.
const SETTING: &str = "
    b = block integer integer
    c = block
    x is b.argument.0
    y is b.argument.1
    a = jump x x b b
";

/// The edit of each place.
const EDITS: [&str; 4] = [
    "replace_use_with x y a 0\n",
    "replace_use_with x y a 1\n",
    "retarget_pred_to b c a 0\n",
    "retarget_pred_to b c a 1\n",
];

/// What the operands are, and the uses of both values, by whether the first and the second were replaced.
fn operands(first: bool, second: bool) -> &'static str {
    match (first, second) {
        (false, false) => "operands a => x x\nuses x => a.0:x a.1:x\nuses y =>\n",
        (false, true) => "operands a => x y\nuses x => a.0:x\nuses y => a.1:y\n",
        (true, false) => "operands a => y x\nuses x => a.1:x\nuses y => a.0:y\n",
        (true, true) => "operands a => y y\nuses x =>\nuses y => a.0:y a.1:y\n",
    }
}

/// The same of the successors.
fn successors(first: bool, second: bool) -> &'static str {
    match (first, second) {
        (false, false) => "successors a => b b\nuses b => a.0:b a.1:b\nuses c =>\n",
        (false, true) => "successors a => b c\nuses b => a.0:b\nuses c => a.1:c\n",
        (true, false) => "successors a => c b\nuses b => a.1:b\nuses c => a.0:c\n",
        (true, true) => "successors a => c c\nuses b =>\nuses c => a.0:c a.1:c\n",
    }
}

/// The script that replaces the places in an order.
fn script(alloc: Global, order: [usize; 4]) -> Result<String, AllocError> {
    let mut script = String::from_str(alloc, SETTING)?;
    let mut done = [false; 4];
    for place in order {
        let (Some(edit), Some(flag)) = (EDITS.get(place), done.get_mut(place)) else {
            return Ok(script);
        };
        *flag = true;
        script.push_str(edit)?;
        script.push_str(operands(done[0], done[1]))?;
        script.push_str(successors(done[2], done[3]))?;
    }
    Ok(script)
}

#[test]
fn places_are_replaced_singly_in_each_order(rt: HostRuntime) -> Result<(), Fail> {
    for order in ORDERS {
        let script = script(rt.alloc(), order)?;
        plays(&rt, rt.alloc(), "places replaced in an order", &script)?;
    }
    Ok(())
}
