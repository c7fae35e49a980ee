//! Operations in blocks, in order.
use crate::playing::{Script, play_all};
use std::test::Fail;

const LISTS: [Script; 3] = [
    Script {
        shows: "operations stand in the order of their inserting",
        lines: "
            x = block
            y = block
            a = def
            b = def
            c = def
            d = def
            insert_operation_at_front a x
            insert_operation_after b a
            insert_operation_after d b
            operations x => a b d
            operations_backwards x => d b a
            parent c => nowhere
        ",
    },
    Script {
        shows: "appended operations stand behind the others",
        lines: "
            x = block
            y = block
            a = def
            b = def
            c = def
            d = def
            insert_operation_at_back a x
            insert_operation_at_back b x
            insert_operation_at_back c y
            insert_operation_at_back d y
            append_operations x y
            operations x => a b c d
            operations_backwards x => d c b a
            operations y =>
            operations_backwards y =>
        ",
    },
    Script {
        shows: "an unlinked operation put back gives the list back",
        lines: "
            x = block
            y = block
            a = def
            b = def
            c = def
            d = def
            insert_operation_at_back a x
            insert_operation_at_back b x
            insert_operation_at_back c y
            insert_operation_at_back d y
            append_operations x y
            operations x => a b c d
            operations_backwards x => d c b a
            unlink_operation b
            insert_operation_after b a
            operations x => a b c d
            operations_backwards x => d c b a
            unlink_operation c
            insert_operation_after c b
            operations x => a b c d
            operations_backwards x => d c b a
            unlink_operation d
            insert_operation_after d c
            operations x => a b c d
            operations_backwards x => d c b a
        ",
    },
];

#[test]
fn lists_keep_their_order(rt: HostRuntime) -> Result<(), Fail> {
    play_all(&rt, rt.alloc(), &LISTS)
}
