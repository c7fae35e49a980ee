//! Formats that are accepted: those of `kit` and of the builtin kinds, and some that come close to others that aren't.

use ir_format_checks::{FormatSort, check_format};
use ir_print::Directive;
use std::process::Abort;

const SEVERAL_TYPES: &[Directive] = &[
    Directive::Literal("("),
    Directive::List(&[Directive::Type], ", "),
    Directive::Literal(")"),
];

/// Modules, functions, constants, forward references, arithmetic, branches, calls, emissions and returns.
const OPERATIONS_OF_KIT: &[&[Directive]] = &[
    &[Directive::SymbolHeader, Directive::Region],
    &[
        Directive::SymbolHeader,
        Directive::Literal(": "),
        Directive::Type,
        Directive::Region,
    ],
    &[Directive::Attribute],
    &[],
    &[
        Directive::Operand,
        Directive::Literal(", "),
        Directive::Operand,
        Directive::Literal(": "),
        Directive::Type,
    ],
    &[Directive::Successor],
    &[
        Directive::Operand,
        Directive::Literal(", "),
        Directive::Successor,
        Directive::Literal(", "),
        Directive::Successor,
    ],
    &[
        Directive::SymbolHeader,
        Directive::Literal("("),
        Directive::Operands,
        Directive::Literal(")"),
        Directive::Literal(": "),
        Directive::Type,
    ],
    &[Directive::Operand],
    &[Directive::Operands],
];

/// Integers, functions and the unit.
const TYPES_OF_KIT: &[&[Directive]] = &[
    &[Directive::Width],
    &[
        Directive::Literal("<"),
        Directive::Literal("("),
        Directive::List(&[Directive::Type], ", "),
        Directive::Literal(")"),
        Directive::Literal("->"),
        Directive::Literal("("),
        Directive::List(&[Directive::Type], ", "),
        Directive::Literal(")"),
        Directive::Literal(">"),
    ],
    &[],
];

/// Integers, identifiers, types, segment sizes, given names and notes.
const ATTRIBUTES_OF_KIT: &[&[Directive]] = &[
    &[
        Directive::Literal("<"),
        Directive::Number,
        Directive::Literal(": "),
        Directive::Width,
        Directive::Literal(">"),
    ],
    &[Directive::Name],
    &[Directive::Type],
    &[
        Directive::Literal("["),
        Directive::List(&[Directive::Digits], ", "),
        Directive::Literal("]"),
    ],
    &[
        Directive::Literal("["),
        Directive::List(
            &[Directive::Choice(&[&[Directive::Name], &[Directive::Literal("?")]])],
            ", ",
        ),
        Directive::Literal("]"),
    ],
    &[Directive::Text],
];

/// Operations with a region alone; and operands with `=`, `{` or a type behind them, none of which begins as a name.
const CLOSE_OPERATIONS: &[&[Directive]] = &[
    &[Directive::Region],
    &[Directive::Operands, Directive::Type],
    &[
        Directive::Operands,
        Directive::Literal(" = "),
        Directive::Operands,
    ],
    &[Directive::Operands, Directive::Region, Directive::Operands],
];

/// Booleans, vectors, dictionaries, numbers and marks; a choice with a format that is empty; lists and choices in one
/// another.
const CLOSE_VALUES: &[&[Directive]] = &[
    &[Directive::Choice(&[
        &[Directive::Literal("true")],
        &[Directive::Literal("false")],
    ])],
    &[
        Directive::Literal("["),
        Directive::List(&[Directive::Attribute], ", "),
        Directive::Literal("]"),
    ],
    &[
        Directive::Literal("{"),
        Directive::List(
            &[
                Directive::Name,
                Directive::Literal(" = "),
                Directive::Attribute,
            ],
            ", ",
        ),
        Directive::Literal("}"),
    ],
    &[Directive::Digits],
    &[Directive::Choice(&[&[Directive::Mark], &[Directive::Number], &[Directive::Text]])],
    &[
        Directive::Choice(&[&[Directive::Literal("new")], &[]]),
        Directive::Literal("("),
        Directive::Literal(")"),
    ],
    &[
        Directive::Literal("<"),
        Directive::List(SEVERAL_TYPES, "; "),
        Directive::Literal(">"),
    ],
    &[
        Directive::Choice(&[&[Directive::Number], SEVERAL_TYPES, &[Directive::Name]]),
        Directive::Text,
    ],
    &[
        Directive::List(&[Directive::Width], "x"),
        Directive::Choice(&[
            &[Directive::Digits],
            &[Directive::Literal("->"), Directive::Type],
        ]),
    ],
];

fn assert_accepted(rt: &impl Abort, sort: FormatSort, formats: &[&[Directive]]) {
    for (number, format) in formats.iter().enumerate() {
        assert!(rt; check_format(sort, *format).is_ok(), "format {number}");
    }
}

#[test]
fn formats_of_kit(rt: HostRuntime) {
    assert_accepted(&rt, FormatSort::Operation, OPERATIONS_OF_KIT);
    assert_accepted(&rt, FormatSort::Type, TYPES_OF_KIT);
    assert_accepted(&rt, FormatSort::Attribute, ATTRIBUTES_OF_KIT);
}

#[test]
fn formats_close_to_others(rt: HostRuntime) {
    assert_accepted(&rt, FormatSort::Operation, CLOSE_OPERATIONS);
    assert_accepted(&rt, FormatSort::Type, CLOSE_VALUES);
    assert_accepted(&rt, FormatSort::Attribute, CLOSE_VALUES);
}
