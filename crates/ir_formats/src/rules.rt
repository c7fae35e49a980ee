//! The grammar of texts, made from the formats of their kinds.
ghost use Rattle.std.specs.Prelude.{◌≡◌, ◌∷◌, [], ◌++◌, OnOk, IfOk, IfSome, length, map, min, ◌+◌, ◌≤◌, codes, true, false};
ghost use Rattle.std.specs.Str.{trim};
ghost use Rattle.ir_print.specs.Formats.{is_small, operands, successor, step_of, steps_of};
ghost use Rattle.ir_grammar.specs.declared.grammar.Action.TheVariants as act;
ghost use Rattle.ir_grammar.specs.declared.grammar.Symbol.TheVariants.{Part, Act};
ghost use Rattle.ir_formats.specs.Rules.{up, texts, number_of, with_word, with_words, words_in, words_in_step, words_of, words_of_kinds, frame_words, sign, may_be_name, takes, class_of, classes_of, several, step_made, steps_made, kind_made, kinds_made, formats_made, part_of, begin_of, end_of, operation_rules, region_rules, block_rules, argument_rules, rules_of, parts_of, plain_rule, plain_rules, plain_classes};
ghost use Rattle.ir_grammar.specs.Table.{CanRead};
ghost use Rattle.ir_formats.specs.Given.{dense, grammar_value, plain_part};
ghost use Rattle.ir_formats.specs.Ordered.{PartPositions, OrdersTexts, is_ordered};
ghost use Rattle.ir_formats.specs.Predicting.{fits, plain_facts};
ghost use Rattle.ir_formats.specs.Words.{shape_number};
ghost use Rattle.ir_formats.specs.Making.{kind_of, formats_of, frame_rules, given_rule, has_rules, AddsSymbolsAndRules, AddsRules, AddsMade};

use crate::given::{PartTable, facts_of};
use ir_grammar::grammar::{Action, Class, Facts, Grammar, Rule, Symbol};
use ir_names::Identifier;
use ir_print::{Directive, LeafSort, ValueSort};
use std::alloc::{AllocError, Global};

/// What a token is by its shape alone. A word that the grammar knows has a kind of its own, behind these.
#[derive(Clone, Copy, Debug, PartialEq, Eq)]
pub enum Shape {
    Name,
    /// A name that is a width too.
    Width,
    Digits,
    Negative,
    /// A text in quotes.
    Text,
    Mark,
    /// A token that no text of the grammar has.
    Other,
}

/// The number of shapes, and so the kind of the first word.
pub const SHAPES: usize = 7;

impl Shape {
    /// The kind of tokens of this shape.
    pub fn kind(self) -> u32
        ensures { result ≡ shape_number self }
    {
        match self {
            Shape::Name => 0,
            Shape::Width => 1,
            Shape::Digits => 2,
            Shape::Negative => 3,
            Shape::Text => 4,
            Shape::Mark => 5,
            Shape::Other => 6,
        }
    }
}

/// The signs that stand for tokens of several kinds.
const NAME_SIGN: u32 = 0;

const WIDTH_SIGN: u32 = 1;

const NUMBER_SIGN: u32 = 2;

const DIGITS_SIGN: u32 = 3;

const TEXT_SIGN: u32 = 4;

const MARK_SIGN: u32 = 5;

/// The sign of the first word; each word has one.
const FIRST_WORD_SIGN: u32 = 6;

/// The parts of each dialect's grammar. Lists and choices have further ones.
const ROOT: u32 = 0;

const OPERATION: u32 = 1;

const MORE_RESULTS: u32 = 2;

const BODY: u32 = 3;

const REGION: u32 = 4;

const BLOCKS: u32 = 5;

const BLOCK: u32 = 6;

const ARGUMENTS: u32 = 7;

const MORE_ARGUMENTS: u32 = 8;

const ARGUMENT: u32 = 9;

const OPERATIONS: u32 = 10;

const MORE_OPERATIONS: u32 = 11;

const TYPE: u32 = 12;

const ATTRIBUTE: u32 = 13;

/// The first part of a list or a choice.
const FIRST_LIST: u32 = 14;

/// The words that no format gives.
const FRAME_WORDS: [&str; 9] = [",", "=", "{", "}", ";", "^", "(", ")", ":"];

/// The grammar of a dialect's texts, with its words. Its root is part 0.
#[derive(Drop)]
pub struct DialectGrammar {
    pub grammar: Grammar,
    /// Word number i has the kind `SHAPES` + i.
    pub words: Vec<&'static str>,
}

/// What is read by formats.
#[derive(Clone, Copy, PartialEq, Eq)]
pub enum Sort {
    Operation,
    Type,
    Attribute,
}

impl Sort {
    fn part(self) -> u32
        ensures { result ≡ part_of self }
    {
        match self {
            Sort::Operation => BODY,
            Sort::Type => TYPE,
            Sort::Attribute => ATTRIBUTE,
        }
    }

    /// What is done behind the id of a kind.
    fn begin(self, number: u8) -> Action
        ensures { result ≡ begin_of self number }
    {
        match self {
            Sort::Operation => Action::Operation(number),
            Sort::Type => Action::Begin(ValueSort::Type, number),
            Sort::Attribute => Action::Begin(ValueSort::Attribute, number),
        }
    }

    /// What is done at the end of a text of a kind.
    fn end(self) -> Action
        ensures { result ≡ end_of self }
    {
        match self {
            Sort::Operation => Action::EndOperation,
            Sort::Type => Action::End(ValueSort::Type),
            Sort::Attribute => Action::End(ValueSort::Attribute),
        }
    }
}

/// What the texts of a kind are made of.
#[derive(Clone, Copy)]
pub struct KindText {
    /// The dotted name with which they begin.
    pub id: &'static str,
    /// What follows the name.
    pub format: &'static [Directive],
}

/// What the texts of the kinds of a dialect are made of, each by its number.
#[derive(Drop)]
pub struct KindTexts {
    pub operations: Vec<KindText>,
    pub types: Vec<KindText>,
    pub attributes: Vec<KindText>,
}

/// The place of a word among words, or their number where it is none of them.
fn number_of(words: &[&'static str], text: &str) -> usize
    ensures { result ≡ number_of (texts words.now) text.now }
{
    for index in 0..words.len() {
        if text == words[index] {
            return index;
        }
    }
    words.len()
}

fn add_word(words: &mut Vec<&'static str>, text: &'static str) -> Result<(), AllocError>
    ensures { OnOk result (texts words.new.items ≡ with_word (texts words.old.items) text.now) }
{
    if number_of(words, text) == words.len() {
        words.push(text)?;
    }
    Ok(())
}

fn add_words(words: &mut Vec<&'static str>, more: &[&'static str]) -> Result<(), AllocError>
    ensures { OnOk result (texts words.new.items ≡ with_words (texts words.old.items) (texts more.now)) }
{
    for word in more {
        add_word(words, word)?;
    }
    Ok(())
}

/// Adds the words of a format.
#[cycle(words)]
fn add_format(words: &mut Vec<&'static str>, format: &[Directive]) -> Result<(), AllocError>
    ensures { OnOk result (texts words.new.items ≡ with_words (texts words.old.items)
        (words_in (steps_of format.now))) }
{
    for directive in format {
        add_directive(words, *directive)?;
    }
    Ok(())
}

#[cycle(words)]
fn add_directive(words: &mut Vec<&'static str>, directive: Directive) -> Result<(), AllocError>
    ensures { OnOk result (texts words.new.items ≡ with_words (texts words.old.items)
        (words_in_step (step_of directive))) }
{
    match directive {
        Directive::Literal(text) => add_word(words, text.trim())?,
        Directive::Operands | Directive::Successor => add_word(words, ",")?,
        Directive::SymbolHeader => add_word(words, "@")?,
        Directive::List(member, separator) => {
            add_word(words, separator.trim())?;
            add_format(words, member)?;
        }
        Directive::Choice(alternatives) => {
            for format in alternatives {
                add_format(words, *format)?;
            }
        }
        Directive::Operand => {}
        Directive::Attribute => {}
        Directive::Type => {}
        Directive::Region => {}
        Directive::Name => {}
        Directive::Number => {}
        Directive::Digits => {}
        Directive::Width => {}
        Directive::Text => {}
        Directive::Mark => {}
    }
    Ok(())
}

/// Adds the ids of kinds, and the words of their formats.
fn add_kinds(words: &mut Vec<&'static str>, kinds: &[KindText]) -> Result<(), AllocError>
    ensures { OnOk result (texts words.new.items
        ≡ with_words (texts words.old.items) (words_of_kinds (map kind_of kinds.now))) }
{
    for kind in kinds {
        add_word(words, kind.id)?;
        add_format(words, kind.format)?;
    }
    Ok(())
}

/// The words of a grammar of these kinds, each once.
fn words_of(alloc: Global, kinds: &KindTexts) -> Result<Vec<&'static str>, AllocError>
    ensures { IfOk result (λ words. texts words.items ≡ words_of (formats_of kinds.now)) }
{
    let mut words: Vec<&'static str> = Vec::new(alloc);
    add_words(&mut words, &FRAME_WORDS)?;
    add_kinds(&mut words, &kinds.operations)?;
    add_kinds(&mut words, &kinds.types)?;
    add_kinds(&mut words, &kinds.attributes)?;
    Ok(words)
}

/// The symbols of an item of a list, of which the action that begins it is there.
fn begun_item(alloc: Global) -> Result<Vec<Symbol>, AllocError>
    ensures { IfOk result (λ v. v.items ≡ Act act.BeginItem ∷ []) }
{
    let mut item = Vec::new(alloc);
    item.push(Symbol::Act(Action::BeginItem))?;
    Ok(item)
}

/// The symbols of one of several formats, of which the action that begins it is there.
fn begun_choice(alloc: Global, number: usize) -> Result<Vec<Symbol>, AllocError>
    ensures { IfOk result (λ v. v.items ≡ Act (act.BeginChoice number) ∷ []) }
{
    let mut body = Vec::new(alloc);
    body.push(Symbol::Act(Action::BeginChoice(number)))?;
    Ok(body)
}

/// Rules in the making.
#[derive(Drop)]
struct RuleMaker {
    alloc: Global,
    words: Vec<&'static str>,
    rules: Vec<Rule>,
    /// The part of the next list or choice.
    next_list: u32,
}

impl RuleMaker {
    /// The sign of a word.
    fn sign(&self, word: &str) -> Symbol
        ensures { result ≡ sign (texts self.now.words.items) word.now }
    {
        let number = number_of(&self.words, word);
        let most = (u32::MAX - FIRST_WORD_SIGN) as usize;
        if number < most {
            Symbol::Sign(number as u32 + FIRST_WORD_SIGN)
        } else {
            Symbol::Sign(u32::MAX)
        }
    }

    fn rule(&mut self, part: u32, symbols: &[Symbol]) -> Result<(), AllocError>
        ensures { OnOk result (AddsRules self.old self.new ((part, symbols.now) ∷ []) self.old.next_list) }
    {
        let body = Vec::from_slice(self.alloc, symbols)?;
        self.rules.push(Rule { part, body })?;
        Ok(())
    }

    /// Adds rules, each with its part and its symbols.
    fn add(&mut self, rules: &[(u32, &[Symbol])]) -> Result<(), AllocError>
        ensures { OnOk result (AddsRules self.old self.new (map given_rule rules.now) self.old.next_list) }
    {
        for (part, symbols) in rules {
            self.rule(*part, symbols)?;
        }
        Ok(())
    }

    /// The part of the next list; what follows a member of it has the part behind it.
    fn list_part(&mut self) -> u32
        ensures part { result ≡ self.old.next_list }
        ensures next { AddsRules self.old self.new [] (up self.old.next_list 2) }
    {
        let list = self.next_list;
        self.next_list = list.saturating_add(2);
        list
    }

    /// The part of the next choice.
    fn choice_part(&mut self) -> u32
        ensures part { result ≡ self.old.next_list }
        ensures next { AddsRules self.old self.new [] (up self.old.next_list 1) }
    {
        let choice = self.next_list;
        self.next_list = choice.saturating_add(1);
        choice
    }

    /// Adds the rule of one of several formats. Its symbols lack the action that ends it.
    fn alternative(&mut self, choice: u32, mut body: Vec<Symbol>) -> Result<(), AllocError>
        ensures { OnOk result (AddsRules self.old self.new
            ((choice, body.items ++ Act act.EndChoice ∷ []) ∷ []) self.old.next_list) }
    {
        body.push(Symbol::Act(Action::EndChoice))?;
        self.rule(choice, &body)
    }

    /// Adds the rules of a list of members, none or more, with a separator between two.
    fn several(&mut self, list: u32, separator: Symbol, member: &[Symbol]) -> Result<(), AllocError>
        ensures { OnOk result (AddsRules self.old self.new (several list separator member.now) self.old.next_list) }
    {
        let more = list.saturating_add(1);
        let mut symbols = Vec::new(self.alloc);
        symbols.push(separator)?;
        symbols.extend_from_slice(member)?;
        symbols.push(Symbol::Part(more))?;
        self.add(&[
            (list, &[]),
            (list, &symbols[1..]),
            (more, &[]),
            (more, &symbols),
        ])
    }

    /// Puts what a format stands for behind these symbols.
    #[cycle(formats)]
    fn format(&mut self, symbols: &mut Vec<Symbol>, format: &[Directive]) -> Result<(), AllocError>
        ensures { OnOk result (AddsSymbolsAndRules self.old self.new symbols.old.items symbols.new.items
            (steps_made (texts self.old.words.items) (steps_of format.now) self.old.next_list)) }
    {
        for directive in format {
            self.directive(symbols, *directive)?;
        }
        Ok(())
    }

    /// Puts what a directive stands for behind these symbols.
    #[cycle(formats)]
    fn directive(
        &mut self,
        symbols: &mut Vec<Symbol>,
        directive: Directive,
    ) -> Result<(), AllocError>
        ensures { OnOk result (AddsSymbolsAndRules self.old self.new symbols.old.items symbols.new.items
            (step_made (texts self.old.words.items) (step_of directive) self.old.next_list)) }
    {
        match directive {
            Directive::List(member, separator) => {
                let list = self.list_part();
                let mut item = begun_item(self.alloc)?;
                self.format(&mut item, member)?;
                self.list(symbols, list, separator, item)
            }
            Directive::Choice(alternatives) => {
                let choice = self.choice_part();
                symbols.push(Symbol::Part(choice))?;
                for (number, format) in alternatives.iter().enumerate() {
                    let mut body = begun_choice(self.alloc, number)?;
                    self.format(&mut body, *format)?;
                    self.alternative(choice, body)?;
                }
                Ok(())
            }
            Directive::Operands => self.operands(symbols),
            Directive::Successor => self.successor(symbols),
            _ => self.without_rules(symbols, directive),
        }
    }

    /// Puts a list of such items behind these symbols, and adds its rules. The items lack the action that ends them.
    fn list(
        &mut self,
        symbols: &mut Vec<Symbol>,
        list: u32,
        separator: &str,
        mut item: Vec<Symbol>,
    ) -> Result<(), AllocError>
        ensures symbols { OnOk result (symbols.new.items
            ≡ symbols.old.items ++ Act act.BeginList ∷ Part list ∷ Act act.EndList ∷ []) }
        ensures rules { OnOk result (AddsRules self.old self.new
            (several list (sign (texts self.old.words.items) (trim separator.now)) (item.items ++ Act act.EndItem ∷ []))
            self.old.next_list) }
    {
        symbols.extend_from_slice(&[
            Symbol::Act(Action::BeginList),
            Symbol::Part(list),
            Symbol::Act(Action::EndList),
        ])?;
        item.push(Symbol::Act(Action::EndItem))?;
        self.several(list, self.sign(separator.trim()), &item)
    }

    /// Names of values, none or more, with commas between them.
    fn operands(&mut self, symbols: &mut Vec<Symbol>) -> Result<(), AllocError>
        ensures { OnOk result (AddsSymbolsAndRules self.old self.new symbols.old.items symbols.new.items
            (step_made (texts self.old.words.items) operands self.old.next_list)) }
    {
        let list = self.list_part();
        symbols.extend_from_slice(&[
            Symbol::Act(Action::BeginOperands),
            Symbol::Part(list),
            Symbol::Act(Action::EndOperands),
        ])?;
        let operand = [Symbol::Sign(NAME_SIGN), Symbol::Act(Action::Operand)];
        self.several(list, self.sign(","), &operand)
    }

    /// An edge: `^` and the label of a block, and in parentheses the names of values that are handed on, none or more with
    /// commas between them.
    fn successor(&mut self, symbols: &mut Vec<Symbol>) -> Result<(), AllocError>
        ensures { OnOk result (AddsSymbolsAndRules self.old self.new symbols.old.items symbols.new.items
            (step_made (texts self.old.words.items) successor self.old.next_list)) }
    {
        let list = self.list_part();
        symbols.extend_from_slice(&[
            self.sign("^"),
            Symbol::Sign(NAME_SIGN),
            Symbol::Act(Action::BeginSuccessor),
            self.sign("("),
            Symbol::Part(list),
            self.sign(")"),
            Symbol::Act(Action::EndSuccessor),
        ])?;
        let operand = [Symbol::Sign(NAME_SIGN), Symbol::Act(Action::Operand)];
        self.several(list, self.sign(","), &operand)
    }

    /// Puts what a directive with no rules of its own stands for behind these symbols.
    fn without_rules(
        &self,
        symbols: &mut Vec<Symbol>,
        directive: Directive,
    ) -> Result<(), AllocError>
        requires { has_rules (step_of directive) ≡ false }
        ensures { OnOk result (AddsSymbolsAndRules self.now self.now symbols.old.items symbols.new.items
            (step_made (texts self.now.words.items) (step_of directive) self.now.next_list)) }
    {
        match directive {
            Directive::Literal(text) => symbols.extend_from_slice(&[self.sign(text.trim())]),
            Directive::SymbolHeader => {
                symbols.extend_from_slice(&[
                    self.sign("@"),
                    Symbol::Sign(NAME_SIGN),
                    Symbol::Act(Action::Leaf(LeafSort::Name)),
                ])
            }
            Directive::Operand => {
                symbols.extend_from_slice(&[
                    Symbol::Act(Action::BeginOperands),
                    Symbol::Sign(NAME_SIGN),
                    Symbol::Act(Action::Operand),
                    Symbol::Act(Action::EndOperands),
                ])
            }
            Directive::Attribute => symbols.extend_from_slice(&[Symbol::Part(ATTRIBUTE)]),
            Directive::Type => symbols.extend_from_slice(&[Symbol::Part(TYPE)]),
            Directive::Region => symbols.extend_from_slice(&[Symbol::Part(REGION)]),
            Directive::Name => {
                symbols.extend_from_slice(&[
                    Symbol::Sign(NAME_SIGN),
                    Symbol::Act(Action::Leaf(LeafSort::Name)),
                ])
            }
            Directive::Number => {
                symbols.extend_from_slice(&[
                    Symbol::Sign(NUMBER_SIGN),
                    Symbol::Act(Action::Leaf(LeafSort::Number)),
                ])
            }
            Directive::Digits => {
                symbols.extend_from_slice(&[
                    Symbol::Sign(DIGITS_SIGN),
                    Symbol::Act(Action::Leaf(LeafSort::Digits)),
                ])
            }
            Directive::Width => {
                symbols.extend_from_slice(&[
                    Symbol::Sign(WIDTH_SIGN),
                    Symbol::Act(Action::Leaf(LeafSort::Width)),
                ])
            }
            Directive::Text => {
                symbols.extend_from_slice(&[
                    Symbol::Sign(TEXT_SIGN),
                    Symbol::Act(Action::Leaf(LeafSort::Text)),
                ])
            }
            Directive::Mark => {
                symbols.extend_from_slice(&[
                    Symbol::Sign(MARK_SIGN),
                    Symbol::Act(Action::Leaf(LeafSort::Mark)),
                ])
            }
            Directive::Operands
            | Directive::Successor
            | Directive::List(_, _)
            | Directive::Choice(_) => Ok(()),
        }
    }

    /// Adds the rule of a kind: its id, and between two actions what its format says.
    fn kind(&mut self, sort: Sort, number: u8, kind: KindText) -> Result<(), AllocError>
        ensures { OnOk result (AddsMade self.old self.new
            (kind_made (texts self.old.words.items) sort number (kind_of kind) self.old.next_list)) }
    {
        let mut symbols = Vec::new(self.alloc);
        symbols.push(self.sign(kind.id))?;
        symbols.push(Symbol::Act(sort.begin(number)))?;
        self.format(&mut symbols, kind.format)?;
        symbols.push(Symbol::Act(sort.end()))?;
        self.rule(sort.part(), &symbols)
    }

    /// Adds the rules of the kinds of a sort, each under its number.
    fn kinds(&mut self, sort: Sort, kinds: &[KindText]) -> Result<(), AllocError>
        requires { length kinds.now ≤ 256 }
        ensures { OnOk result (AddsMade self.old self.new
            (kinds_made (texts self.old.words.items) sort 0 (map kind_of kinds.now) self.old.next_list)) }
    {
        for (number, kind) in kinds.iter().enumerate() {
            self.kind(sort, number as u8, *kind)?;
        }
        Ok(())
    }

    /// Adds the rules of the kinds of a dialect.
    fn all_kinds(&mut self, kinds: &KindTexts) -> Result<(), AllocError>
        requires few { is_small (formats_of kinds.now) ≡ true }
        requires first { self.old.next_list ≡ 14 }
        ensures { OnOk result (AddsMade self.old self.new
            (formats_made (texts self.old.words.items) (formats_of kinds.now))) }
    {
        self.kinds(Sort::Operation, &kinds.operations)?;
        self.kinds(Sort::Type, &kinds.types)?;
        self.kinds(Sort::Attribute, &kinds.attributes)
    }

    /// Adds the rules that the grammar of each dialect has.
    fn frame_rules(&mut self) -> Result<(), AllocError>
        ensures { OnOk result (AddsRules self.old self.new
            (frame_rules (texts self.old.words.items)) self.old.next_list) }
    {
        self.operation_rules()?;
        self.region_rules()?;
        self.block_rules()?;
        self.argument_rules()
    }

    /// An operation with its results, whatever its kind.
    fn operation_rules(&mut self) -> Result<(), AllocError>
        ensures { OnOk result (AddsRules self.old self.new
            (operation_rules (texts self.old.words.items)) self.old.next_list) }
    {
        let name = Symbol::Sign(NAME_SIGN);
        let result = Symbol::Act(Action::Result);
        let more = Symbol::Part(MORE_RESULTS);
        let comma = self.sign(",");
        let equals = self.sign("=");
        let body = Symbol::Part(BODY);
        self.add(&[
            (ROOT, &[Symbol::Part(OPERATION)]),
            (OPERATION, &[body]),
            (OPERATION, &[name, result, more, equals, body]),
            (MORE_RESULTS, &[]),
            (MORE_RESULTS, &[comma, name, result, more]),
        ])
    }

    /// Regions, blocks and their operations.
    fn region_rules(&mut self) -> Result<(), AllocError>
        ensures { OnOk result (AddsRules self.old self.new
            (region_rules (texts self.old.words.items)) self.old.next_list) }
    {
        let open = self.sign("{");
        let close = self.sign("}");
        let semicolon = self.sign(";");
        let blocks = Symbol::Part(BLOCKS);
        let operations = Symbol::Part(OPERATIONS);
        let begin = Symbol::Act(Action::BeginRegion);
        let end = Symbol::Act(Action::EndRegion);
        let more = Symbol::Part(MORE_OPERATIONS);
        self.add(&[
            (REGION, &[open, begin, blocks, close, end]),
            (BLOCKS, &[]),
            (BLOCKS, &[Symbol::Part(BLOCK), blocks]),
            (OPERATIONS, &[]),
            (OPERATIONS, &[Symbol::Part(OPERATION), more]),
            (MORE_OPERATIONS, &[]),
            (MORE_OPERATIONS, &[semicolon, operations]),
        ])
    }

    /// A block: its header, and its operations.
    fn block_rules(&mut self) -> Result<(), AllocError>
        ensures { OnOk result (AddsRules self.old self.new
            (block_rules (texts self.old.words.items)) self.old.next_list) }
    {
        let caret = self.sign("^");
        let open = self.sign("(");
        let close = self.sign(")");
        let colon = self.sign(":");
        let name = Symbol::Sign(NAME_SIGN);
        let label = Symbol::Act(Action::Label);
        let header = Symbol::Act(Action::Header);
        let arguments = Symbol::Part(ARGUMENTS);
        let operations = Symbol::Part(OPERATIONS);
        let end = Symbol::Act(Action::EndBlock);
        self.rule(
            BLOCK,
            &[
                caret, name, label, open, arguments, close, colon, header, operations, end,
            ],
        )
    }

    /// The arguments of a block, with their types.
    fn argument_rules(&mut self) -> Result<(), AllocError>
        ensures { OnOk result (AddsRules self.old self.new
            (argument_rules (texts self.old.words.items)) self.old.next_list) }
    {
        let colon = self.sign(":");
        let comma = self.sign(",");
        let name = Symbol::Sign(NAME_SIGN);
        let argument = Symbol::Part(ARGUMENT);
        let more = Symbol::Part(MORE_ARGUMENTS);
        let defines = Symbol::Act(Action::Argument);
        self.add(&[
            (ARGUMENT, &[name, defines, colon, Symbol::Part(TYPE)]),
            (ARGUMENTS, &[]),
            (ARGUMENTS, &[argument, more]),
            (MORE_ARGUMENTS, &[]),
            (MORE_ARGUMENTS, &[comma, argument, more]),
        ])
    }
}

/// Whether a name may be a token of this kind.
fn may_be_name(words: &[&'static str], kind: usize) -> bool
    ensures { result ≡ may_be_name (texts words.now) kind }
{
    if kind < SHAPES {
        return kind == 0 || kind == 1;
    }
    let number = kind - SHAPES;
    if number < words.len() {
        Identifier::is_valid(words[number])
    } else {
        false
    }
}

/// Whether tokens of a kind may stand where a sign does.
fn is_taken(words: &[&'static str], sign: usize, kind: usize) -> bool
    ensures { result ≡ takes (texts words.now) sign kind }
{
    match sign {
        0 => may_be_name(words, kind),
        1 => kind == 1,
        2 => kind == 2 || kind == 3,
        3 => kind == 2,
        4 => kind == 4,
        5 => kind == 5,
        _ => kind >= SHAPES && kind - SHAPES == sign - FIRST_WORD_SIGN as usize,
    }
}

/// The kinds that a sign takes, as a mark for each kind.
fn class(alloc: Global, words: &[&'static str], sign: usize) -> Result<Class, AllocError>
    ensures { IfOk result (λ c. c.kinds.items ≡ class_of (texts words.now) sign) }
{
    let mut kinds = Vec::new(alloc);
    for kind in 0..words.len() + SHAPES {
        kinds.push(is_taken(words, sign, kind))?;
    }
    Ok(Class { kinds })
}

/// The signs of a grammar with these words.
fn signs(alloc: Global, words: &[&'static str]) -> Result<Vec<Class>, AllocError>
    ensures { IfOk result (λ cs. plain_classes cs.items ≡ classes_of (texts words.now)) }
{
    let mut signs = Vec::new(alloc);
    for sign in 0..words.len() + FIRST_WORD_SIGN as usize {
        signs.push(class(alloc, words, sign)?)?;
    }
    Ok(signs)
}

/// The rules of a grammar of these kinds, with so many parts.
fn rules(alloc: Global, kinds: &KindTexts) -> Result<RuleMaker, AllocError>
    requires { is_small (formats_of kinds.now) ≡ true }
    ensures rules { IfOk result (λ m. plain_rules m.rules.items ≡ rules_of (formats_of kinds.now)) }
    ensures parts { IfOk result (λ m. m.next_list ≡ parts_of (formats_of kinds.now)) }
    ensures words { IfOk result (λ m. texts m.words.items ≡ words_of (formats_of kinds.now)) }
{
    let mut maker = RuleMaker {
        alloc,
        words: words_of(alloc, kinds)?,
        rules: Vec::new(alloc),
        next_list: FIRST_LIST,
    };
    maker.frame_rules()?;
    maker.all_kinds(kinds)?;
    Ok(maker)
}

/// The table of the grammar that these kinds make, worked out of its rules. If the next token doesn't decide each step,
/// none fits.
pub fn table_of_kinds(alloc: Global, kinds: &KindTexts) -> Result<Vec<Facts>, AllocError>
    requires { is_small (formats_of kinds.now) ≡ true }
{
    let maker = rules(alloc, kinds)?;
    let signs = signs(alloc, &maker.words)?;
    let columns = maker.words.len() + SHAPES + 1;
    let RuleMaker {
        rules,
        next_list,
        ..
    } = maker;
    let Grammar { parts, .. } = Grammar::new(alloc, signs, rules, next_list as usize, columns)?;
    Ok(parts)
}

/// The grammar of these rules with these words, and with this table.
fn with_table(
    alloc: Global,
    words: &[&'static str],
    rules: Vec<Rule>,
    table: &[PartTable],
) -> Result<Grammar, AllocError>
    ensures rules { IfOk result (λ g. g.rules ≡ rules) }
    ensures signs { IfOk result (λ g. plain_classes g.signs.items ≡ classes_of (texts words.now)) }
    ensures parts { IfOk result (λ g. map plain_facts g.parts.items
        ≡ map (dense (length words.now + 8)) (map plain_part table.now)) }
{
    Ok(Grammar {
        signs: signs(alloc, words)?,
        rules,
        parts: facts_of(alloc, table, words.len() + SHAPES + 1)?,
    })
}

/// The grammar that these kinds make, with a table that fits it.
pub fn grammar_of_kinds(
    alloc: Global,
    kinds: &KindTexts,
    table: &[PartTable],
) -> Result<DialectGrammar, AllocError>
    requires few { is_small (formats_of kinds.now) ≡ true }
    requires table { fits (grammar_value (formats_of kinds.now) (map plain_part table.now)) ≡ true }
    ensures words { IfOk result (λ g. texts g.words.items ≡ words_of (formats_of kinds.now)) }
    ensures rules { IfOk result (λ g. plain_rules g.grammar.rules.items ≡ rules_of (formats_of kinds.now)) }
    ensures signs { IfOk result (λ g. plain_classes g.grammar.signs.items
        ≡ classes_of (words_of (formats_of kinds.now))) }
    ensures can_read { IfOk result (λ g. CanRead g.grammar 0) }
    ensures ordered { IfOk result (λ g. (leads : PartPositions)
        → is_ordered leads (rules_of (formats_of kinds.now)) ≡ true
        → OrdersTexts g.grammar) }
{
    let RuleMaker { rules, words, .. } = rules(alloc, kinds)?;
    let grammar = with_table(alloc, &words, rules, table)?;
    Ok(DialectGrammar { grammar, words })
}
