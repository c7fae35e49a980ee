//! Each edit of operands, successors, results and arguments.
use crate::playing::{Script, play_all};
use std::test::Fail;

const ROW_EDITS: [Script; 4] = [
    Script {
        shows: "operands are edited",
        lines: "
            b = block integer integer
            a = def
            x is b.argument.0
            y is b.argument.1
            push_operand a x
            operands a => x
            insert_operand a 0 y
            operands a => y x
            replace_operand a 1 y
            operands a => y y
            remove_operand a 0
            operands a => y
            pop_operand a
            operands a =>
            pop_operand a
            operands a =>
        ",
    },
    Script {
        shows: "successors are edited",
        lines: "
            x = block
            y = block
            a = def
            push_successor a x
            successors a => x
            insert_successor a 0 y
            successors a => y x
            replace_successor a 1 y
            successors a => y y
            remove_successor a 0
            successors a => y
            pop_successor a
            successors a =>
            pop_successor a
            successors a =>
        ",
    },
    Script {
        shows: "results are edited",
        lines: "
            a = def
            x = push_result a integer
            results a => x
            y = insert_result a 0 integer
            results a => y x
            pop_result a
            results a => y
            remove_result a 0
            results a =>
        ",
    },
    Script {
        shows: "arguments are edited",
        lines: "
            b = block
            x = push_argument b integer
            arguments b => x
            y = insert_argument b 0 integer
            arguments b => y x
            pop_argument b
            arguments b => y
            remove_argument b 0
            arguments b =>
        ",
    },
];

#[test]
fn rows_are_edited(rt: HostRuntime) -> Result<(), Fail> {
    play_all(&rt, rt.alloc(), &ROW_EDITS)
}
