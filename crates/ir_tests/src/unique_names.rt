//! What values and blocks are called.
use crate::playing::{Script, play_all};
use std::test::Fail;

const UNIQUE_NAMES: [Script; 4] = [
    Script {
        shows: "a block without a label is called by its id",
        lines: "
            b = block
            given_name b => none
            id b => block1v1
            unique_name b => block1v1
        ",
    },
    Script {
        shows: "a block is called by its label and its id",
        lines: "
            a = block
            b = entry
            given_name b => entry
            id b => block2v1
            unique_name b => entry_block2v1
        ",
    },
    Script {
        shows: "the first block has the number one",
        lines: "
            b = entry
            id b => block1v1
            unique_name b => entry_block1v1
        ",
    },
    Script {
        shows: "a value that was given no name is called by its id",
        lines: "
            a = def integer
            v is a.result.0
            given_name v => none
            id v => v0
            unique_name v => v0
        ",
    },
];

#[test]
fn names_are_unique(rt: HostRuntime) -> Result<(), Fail> {
    play_all(&rt, rt.alloc(), &UNIQUE_NAMES)
}
