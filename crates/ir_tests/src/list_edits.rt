//! Each edit of the lists of blocks and of regions.
use crate::playing::{Script, play_all};
use std::test::Fail;

const LIST_EDITS: [Script; 3] = [
    Script {
        shows: "operations of a block are edited",
        lines: "
            x = block
            y = block
            a = def
            b = def
            c = def
            d = def
            insert_operation_at_back a x
            operations x => a
            insert_operation_at_front b x
            operations x => b a
            insert_operation_after c b
            operations x => b c a
            insert_operation_before d a
            operations x => b c d a
            operations_backwards x => a d c b
            unlink_operation c
            operations x => b d a
            operations_backwards x => a d b
            append_operations x y
            operations x => b d a
            operations_backwards x => a d b
            parent c => nowhere
        ",
    },
    Script {
        shows: "blocks of a region are edited",
        lines: "
            o = def 1
            r is o.region.0
            a = block
            b = block
            c = block
            d = block
            insert_block_at_back a r
            blocks r => a
            insert_block_at_front b r
            blocks r => b a
            insert_block_after c b
            blocks r => b c a
            insert_block_before d a
            blocks r => b c d a
            blocks_backwards r => a d c b
            unlink_block c
            blocks r => b d a
            blocks_backwards r => a d b
        ",
    },
    Script {
        shows: "appended blocks stand behind the others",
        lines: "
            o = def 2
            r is o.region.0
            s is o.region.1
            a = block
            b = block
            c = block
            d = block
            insert_block_at_back a r
            insert_block_at_back b r
            insert_block_at_back c s
            insert_block_at_back d s
            append_blocks r s
            blocks r => a b c d
            blocks_backwards r => d c b a
            blocks s =>
            blocks_backwards s =>
        ",
    },
];

#[test]
fn lists_are_edited(rt: HostRuntime) -> Result<(), Fail> {
    play_all(&rt, rt.alloc(), &LIST_EDITS)
}
