//! Values and uses that stand no more, and handles of what was erased.
use crate::playing::{Script, play_all};
use std::test::Fail;

const STANDING: [Script; 6] = [
    Script {
        shows: "a removed result has no index",
        lines: "
            a = def integer integer
            x is a.result.0
            y is a.result.1
            index y => 1
            pop_result a
            index y => refusal 7
            index x => 0
        ",
    },
    Script {
        shows: "a removed argument has no index",
        lines: "
            b = block integer integer
            x is b.argument.0
            y is b.argument.1
            index y => 1
            remove_argument b 0
            index x => refusal 8
            index y => 0
        ",
    },
    Script {
        shows: "a use that was replaced stands no more",
        lines: "
            b = block integer integer
            x is b.argument.0
            y is b.argument.1
            a = def x
            index_of_use x a 0 => 0
            replace_operand a 0 y
            index_of_use x a 0 => refusal 9
        ",
    },
    Script {
        shows: "an edge that was taken away stands no more",
        lines: "
            b = block
            a = def
            push_successor a b
            index_of_edge b a 0 => 0
            pop_successor a
            index_of_edge b a 0 => refusal 9
        ",
    },
    Script {
        shows: "an erased operation is refused once its slot is used again",
        lines: "
            a = def integer
            push_operand a a.result.0
            erase_operation a
            deref a => dangles
            operands a => gone
            b = def
            same_slot b a => yes
            deref b => leads
            operands b =>
            deref a => dangles
            operands a => gone
        ",
    },
    Script {
        shows: "an erased block is refused once its slot is used again",
        lines: "
            a = block
            erase_block a
            b = block
            same_slot b a => yes
            deref b => leads
            arguments b =>
            deref a => dangles
            arguments a => gone
        ",
    },
];

#[test]
fn what_stands_no_more_is_told(rt: HostRuntime) -> Result<(), Fail> {
    play_all(&rt, rt.alloc(), &STANDING)
}
