//! Uses of a value and edges to a block, replaced at once, at places and by a predicate.
use crate::playing::{Script, play_all};
use std::test::Fail;

const REPLACED: [Script; 4] = [
    Script {
        shows: "operands are replaced at places and all",
        lines: "
            b = block integer integer
            c = block
            x is b.argument.0
            y is b.argument.1
            a = jump x x b b
            uses x => a.0:x a.1:x
            uses b => a.0:b a.1:b
            replace_some_uses_with x y a 1
            operands a => x y
            uses x => a.0:x
            uses y => a.1:y
            replace_all_uses_with x y
            operands a => y y
            uses x =>
            uses y => a.0:y a.1:y
            num_uses y => 2
        ",
    },
    Script {
        shows: "successors are replaced at places and all",
        lines: "
            b = block integer integer
            c = block
            x is b.argument.0
            y is b.argument.1
            a = jump x x b b
            uses x => a.0:x a.1:x
            uses b => a.0:b a.1:b
            retarget_some_preds_to b c a 1
            successors a => b c
            uses b => a.0:b
            uses c => a.1:c
            retarget_all_preds_to b c
            successors a => c c
            uses b =>
            uses c => a.0:c a.1:c
            num_preds c => 2
        ",
    },
    Script {
        shows: "places that are chosen are replaced",
        lines: "
            b = block integer integer
            c = block
            x is b.argument.0
            y is b.argument.1
            a = jump x x b b
            uses x => a.0:x a.1:x
            uses b => a.0:b a.1:b
            replace_chosen_uses x y 1
            operands a => x y
            uses x => a.0:x
            uses y => a.1:y
            retarget_chosen_preds b c 1
            successors a => b c
            uses b => a.0:b
            uses c => a.1:c
        ",
    },
    Script {
        shows: "places are chosen by a predicate",
        lines: "
            b = block integer integer
            c = block
            x is b.argument.0
            y is b.argument.1
            a = jump x x b b
            uses x => a.0:x a.1:x
            uses b => a.0:b a.1:b
            chosen_uses x 0 => a.0:x
            chosen_preds b 0 => a.0:b
            chosen_uses x 2 =>
            chosen_preds b 2 =>
        ",
    },
];

#[test]
fn uses_are_replaced(rt: HostRuntime) -> Result<(), Fail> {
    play_all(&rt, rt.alloc(), &REPLACED)
}
