//! Formats that are refused.

use ir_format_checks::{BadFormat, FormatSort, check_format};
use ir_print::Directive;
use std::process::Abort;

/// Lists that touch, and lists that go on as what stands behind them begins.
const UNDECIDED_OPERATIONS: &[&[Directive]] = &[
    &[Directive::Operands, Directive::Operands],
    &[
        Directive::Operands,
        Directive::Literal(","),
        Directive::Operand,
    ],
    &[Directive::Operands, Directive::Operand],
    &[
        Directive::Operands,
        Directive::Literal("to"),
        Directive::Operand,
    ],
];

/// What stands in types and attributes alone, and literals that are no token.
const BAD_OPERATIONS: &[&[Directive]] = &[
    &[Directive::Digits],
    &[Directive::Name],
    &[Directive::Mark],
    &[
        Directive::Literal("["),
        Directive::List(&[Directive::Type], ","),
        Directive::Literal("]"),
    ],
    &[Directive::Choice(&[&[Directive::Literal("a")], &[Directive::Literal("b")]])],
    &[Directive::Literal("a b")],
    &[Directive::Literal("")],
    &[Directive::Literal("7")],
    &[Directive::Literal("a.b")],
    &[Directive::Literal("=>")],
    &[Directive::Literal("<in-memory>")],
];

/// What may be empty or repeats at an end, before what begins or goes on like it, or within a list.
const UNDECIDED_VALUES: &[&[Directive]] = &[
    &[Directive::List(&[Directive::Digits], ",")],
    &[
        Directive::Literal("["),
        Directive::List(&[Directive::Name], ","),
        Directive::Literal(","),
        Directive::Literal("]"),
    ],
    &[
        Directive::List(&[Directive::Name], ","),
        Directive::Literal("end"),
    ],
    &[
        Directive::List(&[Directive::Number], "and"),
        Directive::Digits,
    ],
    &[Directive::Choice(&[&[Directive::Literal("new")], &[]])],
    &[Directive::Choice(&[&[]])],
    &[
        Directive::Literal("("),
        Directive::List(&[Directive::Choice(&[&[Directive::Name], &[]])], ","),
        Directive::Literal(")"),
    ],
    &[
        Directive::Choice(&[
            &[
                Directive::Literal("a"),
                Directive::List(&[Directive::Digits], ","),
            ],
            &[Directive::Literal("b")],
        ]),
        Directive::Literal(","),
    ],
];

/// Choices whose formats begin alike, or are empty twice.
const UNDECIDED_CHOICES: &[&[Directive]] = &[
    &[Directive::Choice(&[&[Directive::Name], &[Directive::Width]])],
    &[Directive::Choice(&[&[Directive::Name], &[Directive::Literal("true")]])],
    &[Directive::Choice(&[&[Directive::Literal("i8")], &[Directive::Width]])],
    &[Directive::Choice(&[&[Directive::Digits], &[Directive::Number]])],
    &[Directive::Choice(&[&[Directive::Type], &[Directive::Attribute]])],
    &[Directive::Choice(&[
        &[Directive::Literal("a")],
        &[Directive::Literal("a "), Directive::Literal("b")],
    ])],
    &[Directive::Choice(&[&[], &[]]), Directive::Literal(";")],
    &[
        Directive::Choice(&[&[Directive::Literal(";")], &[]]),
        Directive::Literal(";"),
    ],
];

/// What stands in operations alone, and a list with a separator that is no token.
const BAD_VALUES: &[&[Directive]] = &[
    &[Directive::Region],
    &[Directive::Operand],
    &[Directive::Operands, Directive::Literal(";")],
    &[Directive::Successor],
    &[Directive::SymbolHeader],
    &[
        Directive::Literal("("),
        Directive::List(&[Directive::Region], ","),
        Directive::Literal(")"),
    ],
    &[
        Directive::Literal("("),
        Directive::List(&[Directive::Name], " "),
        Directive::Literal(")"),
    ],
    &[Directive::Literal("a b")],
];

fn assert_refused(rt: &impl Abort, sort: FormatSort, formats: &[&[Directive]]) {
    for (number, format) in formats.iter().enumerate() {
        assert_eq!(rt;
            check_format(sort, *format),
            Err(BadFormat),
            "format {number}"
        );
    }
}

#[test]
fn operations(rt: HostRuntime) {
    assert_refused(&rt, FormatSort::Operation, UNDECIDED_OPERATIONS);
    assert_refused(&rt, FormatSort::Operation, BAD_OPERATIONS);
}

#[test]
fn types_and_attributes(rt: HostRuntime) {
    for sort in [FormatSort::Type, FormatSort::Attribute] {
        assert_refused(&rt, sort, UNDECIDED_VALUES);
        assert_refused(&rt, sort, UNDECIDED_CHOICES);
        assert_refused(&rt, sort, BAD_VALUES);
    }
}
