//! The blocks of a region as a graph.
use crate::playing::{Script, play_all};
use std::test::Fail;

const REGIONS: [Script; 3] = [
    Script {
        shows: "blocks are a graph where edges are local",
        lines: "
            o = def 1
            a = block
            b = block
            c = block
            d = block
            insert_block_at_back a o.region.0
            insert_block_at_back b o.region.0
            insert_block_at_back c o.region.0
            insert_block_at_back d o.region.0
            r is o.region.0
            x = jump b c
            y = jump d
            z = jump d
            insert_operation_at_back x a
            insert_operation_at_back y b
            insert_operation_at_back z c
            nodes r => a b c d
            entry_node r => a
            post_order r => d b c a
            topological_order r => a c b d
            pre_sentinels r => d
            shown a => block1v1
        ",
    },
    Script {
        shows: "an empty region is a graph",
        lines: "
            o = def 1
            r is o.region.0
            nodes r =>
            entry_node r => none
            post_order r =>
            pre_sentinels r =>
        ",
    },
    Script {
        shows: "edges that are not local are told",
        lines: "
            o = def 1
            a = block
            b = block
            c = block
            d = block
            insert_block_at_back a o.region.0
            insert_block_at_back b o.region.0
            insert_block_at_back c o.region.0
            insert_block_at_back d o.region.0
            r is o.region.0
            x = jump b
            insert_operation_at_back x a
            nodes r => a b c d
            t = block
            push_successor x t
            nodes r => edges lead out of it or into it
            pop_successor x
            nodes r => a b c d
            u = jump c
            nodes r => edges lead out of it or into it
            erase_operation u
            nodes r => a b c d
            v = def
            insert_operation_at_back v a
            nodes r => edges lead out of it or into it
            unlink_operation v
            w = def d
            insert_operation_at_back w b
            nodes r => edges lead out of it or into it
        ",
    },
];

#[test]
fn regions_are_graphs(rt: HostRuntime) -> Result<(), Fail> {
    play_all(&rt, rt.alloc(), &REGIONS)
}
