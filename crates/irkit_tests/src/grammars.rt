//! Tokens, places, and readings of small grammars, with answers that were worked out by hand.
use ir_characters::{Characters, Text};
use ir_formats::words::classify;
use ir_grammar::{Action, Change, Class, Event, Grammar, Rule, Stop, Symbol};
use ir_print::{LeafSort, ValueSort};
use ir_tokens::{TokenKind, place_after, token_at};
use std::alloc::{AllocError, Global};

/// A text with its tokens.
const TOKENS: &[(&str, &[(TokenKind, usize, usize)])] = &[
    (
        "a_1 kit.add 007 -5 !3 \"q\\\"\" {->\n <in-memory> <in $ x",
        &[
            (TokenKind::Name, 0, 3),
            (TokenKind::Dotted, 4, 11),
            (TokenKind::Digits, 12, 15),
            (TokenKind::Negative, 16, 18),
            (TokenKind::Mark, 19, 21),
            (TokenKind::Text, 22, 27),
            (TokenKind::Sign('{'), 28, 29),
            (TokenKind::Arrow, 29, 31),
            (TokenKind::InMemory, 33, 44),
            (TokenKind::Sign('<'), 45, 46),
            (TokenKind::Name, 46, 48),
            (TokenKind::Bad, 49, 49),
        ],
    ),
    ("a \"b", BAD),
    ("a - 1", BAD),
    ("a !b", BAD),
    ("a .b", BAD),
    ("a #", BAD),
];

/// A name, and a character that begins no token.
const BAD: &[(TokenKind, usize, usize)] = &[(TokenKind::Name, 0, 1), (TokenKind::Bad, 2, 2)];

/// Whether these are the longest tokens of a text where they begin, with these kinds and ends.
fn are_tokens(chars: Text, wanted: &[(TokenKind, usize, usize)]) -> bool {
    for (kind, start, end) in wanted {
        if *start >= chars.len() || chars.at(*start).is_whitespace() {
            return false;
        }
        let token = token_at(chars, *start);
        if token.kind != *kind || token.start != *start || token.end != *end {
            return false;
        }
    }
    true
}

/// Whether these characters are cut into these tokens.
fn are_cut(
    alloc: Global,
    chars: Text,
    wanted: &[(TokenKind, usize, usize)],
) -> Result<bool, AllocError> {
    let classified = classify(alloc, &[], chars)?;
    let mut starts = wanted.iter().map(|(_, start, _)| *start).enumerate();
    let begin_there = starts.all(|(token, start)| classified.starts.get(token) == Some(start));
    Ok(are_tokens(chars, wanted) && begin_there && classified.names.len() == wanted.len())
}

/// Whether a text is cut into these tokens, also where no character is a byte.
fn is_cut(
    alloc: Global,
    text: &str,
    wanted: &[(TokenKind, usize, usize)],
) -> Result<bool, AllocError> {
    let characters = Characters::from_str(alloc, text)?;
    let chars: Vec<char> = text.chars().collect(alloc)?;
    let is_alike = characters.as_text() == Text::Characters(&chars);
    Ok(
        is_alike
            && are_cut(alloc, characters.as_text(), wanted)?
            && are_cut(alloc, Text::Characters(&chars), wanted)?,
    )
}

/// A text with the line and column behind it.
const PLACES: &[(&str, (usize, usize))] = &[
    ("", (1, 1)),
    ("aö", (1, 3)),
    ("a\n", (2, 1)),
    ("a\n\r\nb", (3, 2)),
];

/// Whether this line and column is behind a text.
fn is_place(alloc: Global, text: &str, place: (usize, usize)) -> Result<bool, AllocError> {
    let characters = Characters::from_str(alloc, text)?;
    Ok(place_after(characters.as_text()) == place)
}

/// Texts are cut into tokens, and have lines and columns.
#[test]
fn texts_have_tokens_and_places(rt: HostRuntime) -> Result<(), AllocError> {
    for (text, tokens) in TOKENS {
        assert!(rt; is_cut(rt.alloc(), text, tokens)?, "{text}");
    }
    for (text, place) in PLACES {
        assert!(rt; is_place(rt.alloc(), text, *place)?, "{text}");
    }
    Ok(())
}

const NAME: u32 = 0;

const OPEN: u32 = 1;

const CLOSE: u32 = 2;

const COMMA: u32 = 3;

/// The sign for the one kind of token with this number, of four.
fn sign_of(alloc: Global, kind: u32) -> Result<Class, AllocError> {
    Ok(Class {
        kinds: [kind == NAME, kind == OPEN, kind == CLOSE, kind == COMMA].to_vec(alloc)?,
    })
}

/// A sign for each of the four kinds of token, with the kind's number.
fn signs(alloc: Global) -> Result<Vec<Class>, AllocError> {
    let mut all = Vec::new(alloc);
    for kind in 0..4 {
        all.push(sign_of(alloc, kind)?)?;
    }
    Ok(all)
}

/// A rule for this part, with this body.
fn rule_of(alloc: Global, part: u32, body: &[Symbol]) -> Result<Rule, AllocError> {
    Ok(Rule {
        part,
        body: Vec::from_slice(alloc, body)?,
    })
}

/// These rules.
fn rules(alloc: Global, given: &[(u32, &[Symbol])]) -> Result<Vec<Rule>, AllocError> {
    let mut all = Vec::new(alloc);
    for (part, body) in given {
        all.push(rule_of(alloc, *part, body)?)?;
    }
    Ok(all)
}

/// A grammar of so many parts with these rules, and a sign for each of the four kinds of token, with the kind's number.
fn grammar(alloc: Global, parts: usize, given: &[(u32, &[Symbol])]) -> Result<Grammar, AllocError> {
    let signs = signs(alloc)?;
    let rules = rules(alloc, given)?;
    Grammar::new(alloc, signs, rules, parts, 5)
}

/// Part 0 is a name or a region, and part 1 what stands in a region: as many of part 0 as may be.
const NESTED: &[(u32, &[Symbol])] = &[
    (
        0,
        &[
            Symbol::Sign(NAME),
            Symbol::Act(Action::Leaf(LeafSort::Name)),
        ],
    ),
    (
        0,
        &[
            Symbol::Sign(OPEN),
            Symbol::Act(Action::BeginRegion),
            Symbol::Part(1),
            Symbol::Sign(CLOSE),
            Symbol::Act(Action::EndRegion),
        ],
    ),
    (1, &[]),
    (
        1,
        &[
            Symbol::Part(0),
            Symbol::Act(Action::EndItem),
            Symbol::Part(1),
        ],
    ),
];

/// What one token doesn't decide.
const UNDECIDED: &[(u32, &[Symbol])] = &[
    (0, &[Symbol::Sign(NAME)]),
    (0, &[Symbol::Sign(NAME), Symbol::Sign(COMMA)]),
];

const TOOK: Event = Event::Took;

const BEGIN: Event = Event::Did(Action::BeginRegion);

const END: Event = Event::Did(Action::EndRegion);

const NAMED: Event = Event::Did(Action::Leaf(LeafSort::Name));

const ITEM: Event = Event::Did(Action::EndItem);

/// How deep parts may be nested, kinds of tokens, where reading them stops, and what it has done then.
const READINGS: &[(usize, &[u32], Stop, usize, &[Event])] = &[
    (
        1,
        &[OPEN, NAME, NAME, CLOSE, NAME],
        Stop::Text,
        4,
        &[TOOK, BEGIN, TOOK, NAMED, ITEM, TOOK, NAMED, ITEM, TOOK, END],
    ),
    (
        1,
        &[OPEN, NAME, COMMA],
        Stop::Stuck,
        2,
        &[TOOK, BEGIN, TOOK, NAMED, ITEM],
    ),
    (
        1,
        &[OPEN, OPEN, NAME, CLOSE, CLOSE],
        Stop::Deep,
        3,
        &[TOOK, BEGIN, TOOK, BEGIN, TOOK],
    ),
    (
        2,
        &[OPEN, OPEN, NAME, CLOSE, CLOSE],
        Stop::Text,
        5,
        &[
            TOOK, BEGIN, TOOK, BEGIN, TOOK, NAMED, ITEM, TOOK, END, ITEM, TOOK, END,
        ],
    ),
];

/// Whether one token decides each step of reading by the grammar of so many parts with these rules.
fn can_read(alloc: Global, parts: usize, given: &[(u32, &[Symbol])]) -> Result<bool, AllocError> {
    Ok(grammar(alloc, parts, given)?.can_read(0))
}

/// Whether reading by a grammar stops there, having done this.
fn reads(
    alloc: Global,
    grammar: &Grammar,
    deepest: usize,
    kinds: &[u32],
    stop: Stop,
    taken: usize,
    events: &[Event],
) -> Result<bool, AllocError> {
    if !grammar.can_read(0) {
        return Ok(false);
    }
    let read = grammar.read(alloc, 0, deepest, kinds)?;
    Ok(read.stop == stop && read.taken == taken && read.events.as_slice() == events)
}

/// Whether reading by the grammar of nested lists stops there, having done this.
fn reads_nested(
    alloc: Global,
    deepest: usize,
    kinds: &[u32],
    stop: Stop,
    taken: usize,
    events: &[Event],
) -> Result<bool, AllocError> {
    let grammar = grammar(alloc, 2, NESTED)?;
    reads(alloc, &grammar, deepest, kinds, stop, taken, events)
}

/// Lists in lists are read as far as they go.
#[test]
fn nested_lists_are_read(rt: HostRuntime) -> Result<(), AllocError> {
    assert!(rt; can_read(rt.alloc(), 2, NESTED)?);
    for (deepest, kinds, stop, taken, events) in READINGS {
        assert!(rt;
            reads_nested(rt.alloc(), *deepest, kinds, *stop, *taken, events)?,
            "{taken}"
        );
    }
    Ok(())
}

/// Actions, with what they do to the number of open parts.
const ACTIONS: &[(Action, Change)] = &[
    (Action::BeginRegion, Change::Opens),
    (Action::Begin(ValueSort::Type, 3), Change::Opens),
    (Action::Begin(ValueSort::Attribute, 3), Change::Opens),
    (Action::EndRegion, Change::Closes),
    (Action::End(ValueSort::Type), Change::Closes),
    (Action::End(ValueSort::Attribute), Change::Closes),
    (Action::Operation(0), Change::Keeps),
    (Action::BeginList, Change::Keeps),
    (Action::EndList, Change::Keeps),
    (Action::BeginSuccessor, Change::Keeps),
    (Action::EndSuccessor, Change::Keeps),
];

/// A grammar that one token doesn't decide is refused, and actions are brackets or none.
#[test]
fn rules_and_actions_are_judged(rt: HostRuntime) -> Result<(), AllocError> {
    assert!(rt; !can_read(rt.alloc(), 1, UNDECIDED)?);
    for (action, change) in ACTIONS {
        assert!(rt; action.change() == *change);
    }
    Ok(())
}
