//! What stands around operations and blocks, and the order in a block.
use crate::playing::{Script, play_all};
use std::test::Fail;

const AROUND: [Script; 2] = [
    Script {
        shows: "ancestors are the nearest that hold",
        lines: "
            root = graph 1
            b = block
            loop = def 1
            c = block
            x = def integer
            y = def
            insert_block_at_back b root.region.0
            insert_operation_at_back loop b
            insert_block_at_back c loop.region.0
            insert_operation_at_back x c
            insert_operation_at_back y c
            r is root.region.0
            s is loop.region.0
            operation_around x r => loop
            operation_around x s => x
            operation_around x b => loop
            operation_around x c => x
            operation_around loop s => none
            operation_around root r => none
            block_around x r => b
            block_around x s => c
            block_around c r => b
            block_around c s => c
            block_around b s => none
            block_around root r => none
            graph_around x => root
            graph_around root => none
            terminator_around x => none
            precedes x y => yes
            precedes y x => no
            precedes x x => no
            precedes x loop => no
        ",
    },
    Script {
        shows: "what stands nowhere has nothing around it",
        lines: "
            a = def 1
            b = block
            r is a.region.0
            operation_around a r => none
            operation_around a b => none
            block_around a r => none
            block_around b r => none
            graph_around a => none
            precedes a a => no
        ",
    },
];

#[test]
fn what_stands_around_is_told(rt: HostRuntime) -> Result<(), Fail> {
    play_all(&rt, rt.alloc(), &AROUND)
}
