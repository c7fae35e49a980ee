//! Whether the next token decides each step.
ghost use Rattle.std.specs.Prelude.{◌≡◌, Bool};
ghost use Rattle.ir_print.specs.Formats.{step_of, steps_of, choices_of};
ghost use Rattle.ir_format_checks.specs.Decided.{may_be_empty, all_may_be_empty, begins, all_begin};
ghost use Rattle.ir_format_checks.specs.Test.{meets, is_anything, is_no_next, is_told, are_told, is_decided_step, is_decided};
ghost use Rattle.ir_format_checks.specs.Tokens.{TokenClass};
ghost use Rattle.ir_format_checks.specs.Values.{class_of, classes_of};

use crate::classes::Class;
use ir_print::Directive;

/// A set of tokens.
trait TokenSet {
    ghost meets: { Self → TokenClass → Bool };

    /// Whether a token of the class is in the set.
    fn has_token_of(&self, class: Class) -> bool
        ensures { result ≡ meets self.now (class_of class.entry) };
}

/// The tokens of a class.
impl TokenSet for Class<'_> {
    ghost use Rattle.ir_format_checks.specs.Test.{overlap};

    ghost meets = { λ c. overlap (class_of c) };

    fn has_token_of(&self, class: Class) -> bool {
        self.overlaps(class)
    }
}

/// What may come next.
#[derive(Clone, Copy)]
pub(crate) enum Next<'a> {
    /// Any token, or the end.
    Anything,
    /// `!`, `;`, `^`, `}` or the end.
    BehindOperation,
    /// What begins these directives, and where they may be empty, what comes behind them.
    Directives(&'a [Directive], &'a Next<'a>),
    /// This word, or what may come behind it.
    Word(&'a str, &'a Next<'a>),
}

impl TokenSet for Next<'_> {
    ghost meets = { λ n. meets (classes_of n) };

    fn has_token_of(&self, class: Class) -> bool {
        match *self {
            Next::Anything => true,
            Next::BehindOperation => {
                Class::Mark.overlaps(class)
                    || Class::Given(";").overlaps(class)
                    || Class::Given("^").overlaps(class)
                    || Class::Given("}").overlaps(class)
            }
            Next::Directives(directives, outer) => {
                all_begin(&class, directives)
                    || (all_may_be_empty(directives) && outer.has_token_of(class))
            }
            Next::Word(word, outer) => Class::Given(word).overlaps(class)
                || outer.has_token_of(class),
        }
    }
}

impl Next<'_> {
    fn is_anything(&self) -> bool
        ensures { result ≡ is_anything (classes_of self.now) }
    {
        match *self {
            Next::Anything => true,
            Next::BehindOperation => false,
            Next::Directives(directives, outer) => all_may_be_empty(directives)
                && outer.is_anything(),
            Next::Word(_, outer) => outer.is_anything(),
        }
    }
}

/// Whether the directive may have an empty text.
#[cycle(empty)]
fn may_be_empty(directive: Directive) -> bool
    ensures { result ≡ may_be_empty (step_of directive) }
{
    match directive {
        Directive::Operands | Directive::List(_, _) => true,
        Directive::Choice(alternatives) => {
            for format in alternatives {
                if all_may_be_empty(*format) {
                    return true;
                }
            }
            false
        }
        _ => false,
    }
}

/// Whether the format may have an empty text.
#[cycle(empty)]
fn all_may_be_empty(format: &[Directive]) -> bool
    ensures { result ≡ all_may_be_empty (steps_of format.now) }
{
    for directive in format {
        if !may_be_empty(*directive) {
            return false;
        }
    }
    true
}

/// Whether a token with which the directive begins is in the set.
#[cycle(begins)]
fn begins<S: TokenSet>(set: &S, directive: Directive) -> bool
    ensures { result ≡ begins (S.meets set.now) (step_of directive) }
{
    match directive {
        Directive::Literal(text) => set.has_token_of(Class::Given(text.trim())),
        Directive::Operands | Directive::Operand | Directive::Name => set.has_token_of(Class::Name),
        Directive::Successor => set.has_token_of(Class::Given("^")),
        Directive::Attribute | Directive::Type => set.has_token_of(Class::Dotted),
        Directive::Region => set.has_token_of(Class::Given("{")),
        Directive::SymbolHeader => set.has_token_of(Class::Given("@")),
        Directive::Number => set.has_token_of(Class::Number),
        Directive::Digits => set.has_token_of(Class::Digits),
        Directive::Width => set.has_token_of(Class::Width),
        Directive::Text => set.has_token_of(Class::Text),
        Directive::Mark => set.has_token_of(Class::Mark),
        Directive::List(member, _) => all_begin(set, member),
        Directive::Choice(alternatives) => {
            for format in alternatives {
                if all_begin(set, *format) {
                    return true;
                }
            }
            false
        }
    }
}

/// Whether a token with which the format begins is in the set.
#[cycle(begins)]
fn all_begin<S: TokenSet>(set: &S, format: &[Directive]) -> bool
    ensures { result ≡ all_begin (S.meets set.now) (steps_of format.now) }
{
    for directive in format {
        if begins(set, *directive) {
            return true;
        }
        if !may_be_empty(*directive) {
            return false;
        }
    }
    false
}

/// The tokens with which a directive begins.
impl TokenSet for Directive {
    ghost use Rattle.ir_format_checks.specs.Test.{overlap};

    ghost meets = { λ d c. begins (overlap c) (step_of d) };

    fn has_token_of(&self, class: Class) -> bool {
        begins(&class, *self)
    }
}

/// Whether no token of the class may come next.
fn is_no_next(class: Class, next: &Next) -> bool
    ensures { result ≡ is_no_next (class_of class.entry) (classes_of next.now) }
{
    !next.is_anything() && !next.has_token_of(class)
}

/// Whether the next token tells a directive with no text from one with a text.
fn is_told(directive: Directive, next: &Next) -> bool
    ensures { result ≡ is_told (step_of directive) (classes_of next.now) }
{
    !may_be_empty(directive) || (!next.is_anything() && !begins(next, directive))
}

/// Whether the next token tells a format from other ones.
fn are_told(format: &[Directive], others: &'static [&'static [Directive]]) -> bool
    ensures { result ≡ are_told (steps_of format.now) (choices_of others.now) }
{
    let choice = Directive::Choice(others);
    !all_begin(&choice, format) && !(all_may_be_empty(format) && may_be_empty(choice))
}

/// Whether the next token decides the directive, where such may come behind it.
#[cycle(decided)]
fn is_decided<'a>(directive: Directive, next: &'a Next<'a>) -> bool
    ensures { result ≡ is_decided_step (step_of directive) (classes_of next.now) }
{
    match directive {
        Directive::Operands => is_told(directive, next) && is_no_next(Class::Given(","), next),
        Directive::List(member, separator) => {
            let separator = separator.trim();
            !all_may_be_empty(member)
                && is_told(directive, next)
                && is_no_next(Class::Given(separator), next)
                && all_decided(member, &Next::Word(separator, next))
        }
        Directive::Choice(alternatives) => {
            if !is_told(directive, next) {
                return false;
            }
            for (index, format) in alternatives.iter().enumerate() {
                if !are_told(*format, &alternatives[index + 1..]) {
                    return false;
                }
                if !all_decided(*format, next) {
                    return false;
                }
            }
            true
        }
        _ => true,
    }
}

/// Whether the next token decides each directive of a format, where such may come behind it.
#[cycle(decided)]
pub(crate) fn all_decided<'a>(format: &'a [Directive], outer: &'a Next<'a>) -> bool
    ensures { result ≡ is_decided (steps_of format.now) (classes_of outer.now) }
{
    for (index, directive) in format.iter().enumerate() {
        if !is_decided(*directive, &Next::Directives(&format[index + 1..], outer)) {
            return false;
        }
    }
    true
}
