//! Whole rows, uses and edges, as they are asked of operations and blocks.
use crate::playing::{Script, play_all};
use std::test::Fail;

const ROWS: [Script; 4] = [
    Script {
        shows: "types stand in the order of what has them",
        lines: "
            b = block integer named
            x is b.argument.0
            y is b.argument.1
            a = jump integer named y x b b 2
            result_types a => integer named
            operand_types a => named integer
        ",
    },
    Script {
        shows: "operands are uses",
        lines: "
            b = block integer named
            x is b.argument.0
            y is b.argument.1
            a = jump integer named y x b b 2
            operands_as_uses a => a.0:y a.1:x
        ",
    },
    Script {
        shows: "successors are uses",
        lines: "
            b = block integer named
            x is b.argument.0
            y is b.argument.1
            a = jump integer named y x b b 2
            successors_as_uses a => a.0:b a.1:b
        ",
    },
    Script {
        shows: "uses of each result are uses of the operation",
        lines: "
            a = def integer integer
            b = def a.result.1 a.result.0
            x is a.result.0
            y is a.result.1
            uses a => b.0:y b.1:x
            num_uses a => 2
            uses x => b.1:x
            uses y => b.0:y
            uses b =>
        ",
    },
];

#[test]
fn whole_rows_are_told(rt: HostRuntime) -> Result<(), Fail> {
    play_all(&rt, rt.alloc(), &ROWS)
}
