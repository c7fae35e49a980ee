//! Which places name which values and blocks.
use crate::playing::{Script, play_all};
use std::test::Fail;

const USES: [Script; 4] = [
    Script {
        shows: "a refused edit leaves those before it",
        lines: "
            a = def integer
            b = def a.result.0
            erase_operation a
            run => EditNotAllowed at 2
            is_ir_empty => false
        ",
    },
    Script {
        shows: "the edits before a refused one are found by what they take",
        lines: "
            b = block integer
            v is b.argument.0
            a = def integer v
            c = def a.result.0
            erase_operation a
            run => EditNotAllowed at 2
            uses v => ?.0:v
            num_uses v => 1
        ",
    },
    Script {
        shows: "a branch with two edges to a block counts twice",
        lines: "
            b = block
            a = jump b b
            num_preds b => 2
            uses b => a.0:b a.1:b
        ",
    },
    Script {
        shows: "each edge has its ends",
        lines: "
            o = def 1
            x = block
            y = block
            a = jump y y
            insert_block_at_back x o.region.0
            insert_block_at_back y o.region.0
            insert_operation_at_back a x
            succs x => y y
            succs y =>
            preds y => x x
            preds x =>
        ",
    },
];

#[test]
fn uses_are_told(rt: HostRuntime) -> Result<(), Fail> {
    play_all(&rt, rt.alloc(), &USES)
}
