//! Each edit that makes, moves, erases or empties what holds others.
use crate::playing::{Script, play_all};
use std::test::Fail;

const HOLDER_EDITS: [Script; 8] = [
    Script {
        shows: "uses inside an operation are dropped",
        lines: "
            t = block integer
            v is t.argument.0
            o = def 1
            b = block
            i = jump v t
            insert_block_at_back b o.region.0
            insert_operation_at_back i b
            num_uses v => 1
            num_preds t => 1
            operation_drop_all_uses o
            operands i =>
            successors i =>
            num_uses v => 0
            num_preds t => 0
        ",
    },
    Script {
        shows: "uses inside a region are dropped",
        lines: "
            t = block integer
            v is t.argument.0
            o = def 1
            b = block
            i = jump v t
            insert_block_at_back b o.region.0
            insert_operation_at_back i b
            num_uses v => 1
            num_preds t => 1
            region_drop_all_uses o.region.0
            operands i =>
            successors i =>
            num_uses v => 0
            num_preds t => 0
        ",
    },
    Script {
        shows: "uses inside a block are dropped",
        lines: "
            t = block integer
            v is t.argument.0
            o = def 1
            b = block
            i = jump v t
            insert_block_at_back b o.region.0
            insert_operation_at_back i b
            num_uses v => 1
            num_preds t => 1
            block_drop_all_uses b
            operands i =>
            successors i =>
            num_uses v => 0
            num_preds t => 0
        ",
    },
    Script {
        shows: "what stands inside an operation is erased",
        lines: "
            t = block integer
            v is t.argument.0
            o = def 1
            b = block
            i = jump v t
            insert_block_at_back b o.region.0
            insert_operation_at_back i b
            num_uses v => 1
            num_preds t => 1
            erase_operation o
            operands i => gone
            operations b => gone
            num_uses v => 0
            num_preds t => 0
            regions o => gone
        ",
    },
    Script {
        shows: "what stands inside a region is erased",
        lines: "
            t = block integer
            v is t.argument.0
            o = def 1
            b = block
            i = jump v t
            insert_block_at_back b o.region.0
            insert_operation_at_back i b
            num_uses v => 1
            num_preds t => 1
            erase_region o 0
            operands i => gone
            operations b => gone
            num_uses v => 0
            num_preds t => 0
            regions o =>
        ",
    },
    Script {
        shows: "what stands inside a block is erased",
        lines: "
            t = block integer
            v is t.argument.0
            o = def 1
            b = block
            i = jump v t
            insert_block_at_back b o.region.0
            insert_operation_at_back i b
            num_uses v => 1
            num_preds t => 1
            erase_block b
            operands i => gone
            operations b => gone
            num_uses v => 0
            num_preds t => 0
        ",
    },
    Script {
        shows: "regions are added moved and erased",
        lines: "
            a = def
            b = def
            r = add_region a
            regions a => r
            move_region_to_op r b
            regions a =>
            regions b => r
            parent r => b
            erase_region b 0
            blocks r => gone
        ",
    },
    Script {
        shows: "what is made has its parts",
        lines: "
            b = entry integer integer
            a = def integer b.argument.1 b 2
            x is b.argument.0
            y is b.argument.1
            z is a.result.0
            r is a.region.0
            s is a.region.1
            arguments b => x y
            results a => z
            operands a => y
            successors a => b
            regions a => r s
            kind a => def
            loc a => unknown
            num_attributes a => 0
            loc b => unknown
            label b => entry
        ",
    },
];

#[test]
fn holders_are_edited(rt: HostRuntime) -> Result<(), Fail> {
    play_all(&rt, rt.alloc(), &HOLDER_EDITS)
}
