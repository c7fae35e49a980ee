//! Blocks that end badly, or stand nowhere.
use crate::playing::{Script, play_all};
use std::test::Fail;

const VERIFIED: [Script; 3] = [
    Script {
        shows: "a block without a terminator is refused",
        lines: "
            o = def 1
            b = block
            insert_block_at_back b o.region.0
            verify o => MissingTerminator
            a = def
            insert_operation_at_back a b
            verify o => MissingTerminator
            j = jump
            insert_operation_at_back j b
            verify o => fine
        ",
    },
    Script {
        shows: "a terminator that is not last is refused",
        lines: "
            o = def 1
            b = block
            insert_block_at_back b o.region.0
            j = jump
            insert_operation_at_back j b
            verify o => fine
            k = jump
            insert_operation_at_back k b
            verify o => TerminatorNotLast
        ",
    },
    Script {
        shows: "a block that stands nowhere is refused",
        lines: "
            b = block
            verify b => NoParent
        ",
    },
];

#[test]
fn blocks_are_verified(rt: HostRuntime) -> Result<(), Fail> {
    play_all(&rt, rt.alloc(), &VERIFIED)
}
