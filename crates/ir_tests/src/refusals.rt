//! Edits that are not allowed, each of which leaves everything as it was.
use crate::playing::{Script, play_all};
use std::test::Fail;

const REFUSALS: [Script; 5] = [
    Script {
        shows: "what names nothing is refused",
        lines: "
            t = block integer
            o = def 1
            b = block
            u = def integer t.argument.0
            j = jump u.result.0 t
            insert_block_at_back b o.region.0
            insert_operation_at_back u b
            insert_operation_at_back j b
            f = def
            g = def
            gv = push_result g integer
            erase_operation g
            r is o.region.0
            v is t.argument.0
            w is u.result.0
            operands u => v
            operands j => w
            successors j => t
            operations b => u j
            refuse pop_operand #0
            refuse erase_block #7
            refuse erase_operation g
            refuse push_operand f #0
            refuse push_operand f gv
            refuse push_operand f u.result.1
            refuse push_operand f g.result.0
            refuse push_operand f t.argument.1
            refuse push_result f unknown
            refuse region_drop_all_uses o.region.1
            refuse move_region_to_op #0 f
        ",
    },
    Script {
        shows: "wrong places are refused",
        lines: "
            t = block integer
            o = def 1
            b = block
            u = def integer t.argument.0
            j = jump u.result.0 t
            insert_block_at_back b o.region.0
            insert_operation_at_back u b
            insert_operation_at_back j b
            f = def
            g = def
            gv = push_result g integer
            erase_operation g
            r is o.region.0
            v is t.argument.0
            w is u.result.0
            operands u => v
            operands j => w
            successors j => t
            operations b => u j
            refuse insert_operand j 2 v
            refuse remove_operand j 1
            refuse replace_operand j 1 v
            refuse insert_successor j 2 t
            refuse remove_successor j 1
            refuse replace_successor j 1 t
            refuse insert_result j 1 integer
            refuse remove_result j 0
            refuse insert_argument t 2 integer
            refuse remove_argument t 1
            refuse erase_region o 1
            refuse replace_use_with v w j 0
            refuse retarget_pred_to b t j 0
        ",
    },
    Script {
        shows: "what is used is not taken away",
        lines: "
            t = block integer
            o = def 1
            b = block
            u = def integer t.argument.0
            j = jump u.result.0 t
            insert_block_at_back b o.region.0
            insert_operation_at_back u b
            insert_operation_at_back j b
            f = def
            g = def
            gv = push_result g integer
            erase_operation g
            r is o.region.0
            v is t.argument.0
            w is u.result.0
            operands u => v
            operands j => w
            successors j => t
            operations b => u j
            refuse erase_operation u
            refuse erase_block t
            refuse pop_result u
            refuse remove_result u 0
            refuse pop_argument t
            refuse remove_argument t 0
        ",
    },
    Script {
        shows: "what stands in wrong lists is refused",
        lines: "
            t = block integer
            o = def 1
            b = block
            u = def integer t.argument.0
            j = jump u.result.0 t
            insert_block_at_back b o.region.0
            insert_operation_at_back u b
            insert_operation_at_back j b
            f = def
            g = def
            gv = push_result g integer
            erase_operation g
            r is o.region.0
            v is t.argument.0
            w is u.result.0
            operands u => v
            operands j => w
            successors j => t
            operations b => u j
            refuse unlink_operation f
            refuse unlink_block t
            refuse insert_operation_after o f
            refuse insert_operation_at_back u t
            refuse insert_operation_at_front o b
            refuse insert_operation_before o u
            refuse insert_block_after b b
            refuse insert_block_before b t
            refuse insert_block_at_front b r
            refuse append_operations b b
            refuse append_blocks r r
            refuse move_region_to_op r j
        ",
    },
    Script {
        shows: "names of the wrong sort are refused",
        lines: "
            b = block
            erase_operation #0
            run => EditNotAllowed at 1
            a = def
            pop_operand #0
            pop_operand #1
            run => EditNotAllowed at 2
        ",
    },
];

#[test]
fn edits_are_refused(rt: HostRuntime) -> Result<(), Fail> {
    play_all(&rt, rt.alloc(), &REFUSALS)
}
