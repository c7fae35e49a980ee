//! The fault of a text that is named: the first of all that it has.
ghost use Rattle.std.specs.Prelude.{◌≡◌, ◌≢◌, ◌⊎◌, ℕ, Bool, List, length, Option, Some, None, Err, OnOk, IfOk, IfErr, IsOk, MatchResult};
ghost use Rattle.ir_characters.specs.Texts.{codes_of};
ghost use Rattle.ir_tokens.specs.declared.faults.Fault.{Fault};
ghost use Rattle.ir_tokens.specs.declared.faults.TextFault.TheVariants.{Memory, CounterFull};
ghost use Rattle.ir_grammar.specs.declared.grammar.Event.{Event};
ghost use Rattle.text_frames.specs.declared.opened.AssemblyFault.TheVariants as assembly;
ghost use Rattle.ir_tokens.specs.declared.tokens.Token.{Token};
ghost use Rattle.ir_tokens.specs.Faults.{IsNamed};
ghost use Rattle.ir_tokens.specs.Tokens.{starts_of, ReadsAs};
ghost use Rattle.ir_scopes.specs.Depth.{IsTooDeep, IsFirstTooDeep};
ghost use Rattle.ir_scopes.specs.Scopes.{HasScopeFault, IsResolved, IsScopeFault};
ghost use Rattle.ir_rereading.specs.Texts.{IsSyntaxFault, HasFault, IsRefusal, place_of, tell};
ghost use Rattle.text_reading.specs.Judged.{IsJudged};
ghost use Rattle.ir_formats.specs.Words.{token_text};
ghost use Rattle.ir_forest.specs.Language.{Language};
ghost use Rattle.ir_forest.specs.ValueFaults.{HasNumberFault, HasNamesFault};

use ir_grammar::grammar::{Reading, Stop};
use ir_scopes::scopes::{Resolution, ScopeFault};
use ir_tokens::faults::{Fault, FaultKind, ScopeCause, TextFault, first_of};
use ir_tokens::tokens::place_after;
use text_frames::assembly::Assembly;
use text_frames::opened::AssemblyFault;
use text_frames::source::Source;

/// The fault that no text of the grammar goes on with the next token, of so many.
fn syntax_fault(reading: &Reading, tokens: usize) -> Option<Fault>
    ensures { IsNamed (IsSyntaxFault reading.now.stop reading.now.taken tokens) result }
{
    let token = reading.taken;
    let stands = match reading.stop {
        Stop::Text => token < tokens,
        Stop::Stuck => true,
        Stop::Deep => false,
    };
    if stands {
        Some(Fault {
            kind: FaultKind::Syntax,
            met: token,
            place: token,
        })
    } else {
        None
    }
}

/// The fault of the first part that is too deep.
fn deep_fault(reading: &Reading) -> Option<Fault>
    ensures { IsFirstTooDeep reading.now.events.items reading.now.deep
        → IsNamed (IsTooDeep reading.now.events.items) result }
{
    let token = reading.deep?;
    Some(Fault {
        kind: FaultKind::TooDeep,
        met: token,
        place: token,
    })
}

/// The first fault of the values of a text, if it isn't assembled.
fn value_fault(assembled: &Result<Assembly, AssemblyFault>) -> Result<Option<Fault>, TextFault>
    ensures found { (first : Option Fault) → OnOk assembled.now (first ≡ None)
        → ((f : Fault) → assembled.now ≡ Err (assembly.Text f) → first ≡ Some f) → IfOk result (λ r. r ≡ first) }
    ensures none { IfOk result (λ r. r ≡ None → IsOk assembled.now) }
    ensures full { result ≡ Err CounterFull → assembled.now ≡ Err assembly.CounterFull }
    ensures memory { (l : Language) (cs : List ℕ) → IfErr result (IsRefusal l cs) }
{
    match assembled {
        Ok(_) => Ok(None),
        Err(AssemblyFault::Text(fault)) => Ok(Some(*fault)),
        Err(AssemblyFault::Memory) => Err(TextFault::Memory),
        Err(AssemblyFault::CounterFull) => Err(TextFault::CounterFull),
    }
}

/// The first fault of the scopes of a text, if its names aren't looked up.
fn scope_fault(resolved: &Result<Resolution, ScopeFault>) -> Result<Option<Fault>, TextFault>
    ensures found { (isolated : ℕ → Bool) (names : List ℕ) (es : List Event)
        → MatchResult resolved.now (IsResolved isolated names es) (IsScopeFault isolated names es)
        → IfOk result (IsNamed (HasScopeFault isolated names es)) }
    ensures none { IfOk result (λ r. r ≡ None → IsOk resolved.now) }
    ensures out { IfErr result (λ f. f ≡ Memory) }
    ensures memory { (l : Language) (cs : List ℕ) → IfErr result (IsRefusal l cs) }
{
    match resolved {
        Ok(_) => Ok(None),
        Err(ScopeFault::Text(fault)) => Ok(Some(*fault)),
        Err(ScopeFault::Memory) => Err(TextFault::Memory),
    }
}

/// The first fault of a text with so many tokens, of which reading did this. In come the first fault of its values and
/// that of its scopes.
fn fault_of(
    reading: &Reading,
    tokens: usize,
    values: Option<Fault>,
    scopes: Option<Fault>,
) -> Option<Fault>
    ensures first { (l : Language) (cs : List ℕ) (ts : List Token) (names : List ℕ) → length ts ≡ tokens
        → IsFirstTooDeep reading.now.events.items reading.now.deep
        → IsNamed (λ f. HasNumberFault l.values (token_text cs ts) reading.now.events.items f
        ⊎ HasNamesFault l.values (token_text cs ts) reading.now.events.items f) values
        → IsNamed (HasScopeFault l.isolated names reading.now.events.items) scopes
        → IsNamed (HasFault l cs ts names reading.now.stop reading.now.taken reading.now.events.items) result }
    ensures none { result ≡ None → (values ≡ None) × (scopes ≡ None) }
{
    let early = first_of(syntax_fault(reading, tokens), deep_fault(reading));
    let late = first_of(values, scopes);
    first_of(early, late)
}

/// The line and the column of a token, or behind the last character where there is no token with this number.
fn place_of(source: Source, token: usize) -> (usize, usize)
    ensures { (ts : List Token) → source.entry.starts.now ≡ starts_of (codes_of source.entry.chars) ts
        → ReadsAs (codes_of source.entry.chars) 0 ts → result ≡ place_of (codes_of source.entry.chars) ts token }
{
    if token < source.tokens() {
        place_after(source.front(source.starts.at(token)))
    } else {
        place_after(source.chars)
    }
}

/// A fault of this kind as users see it, at its line and column.
fn told(kind: FaultKind, place: (usize, usize)) -> TextFault
    ensures told { result ≡ tell kind place }
    ensures full { result ≢ CounterFull }
{
    let (line, column) = place;
    match kind {
        FaultKind::TooDeep => TextFault::TooDeep(line, column),
        FaultKind::MultipleDefinitions => {
            TextFault::Scope(line, column, ScopeCause::MultipleDefinitions)
        }
        FaultKind::UnresolvedReference => {
            TextFault::Scope(line, column, ScopeCause::UnresolvedReference)
        }
        FaultKind::TopLevelOpRegionNotIsolatedFromAbove => TextFault::Scope(
            line,
            column,
            ScopeCause::TopLevelOpRegionNotIsolatedFromAbove,
        ),
        _ => TextFault::Syntax(line, column),
    }
}

/// That a text has no fault, of which reading did this, or its first one. Its values were made, or not, and its names looked
/// up, or not.
pub fn verdict(
    source: Source,
    reading: &Reading,
    assembled: &Result<Assembly, AssemblyFault>,
    resolved: &Result<Resolution, ScopeFault>,
) -> Result<(), TextFault>
    ensures fault { (l : Language) (ts : List Token) (names : List ℕ)
        → source.entry.starts.now ≡ starts_of (codes_of source.entry.chars) ts
        → IsJudged l (codes_of source.entry.chars) ts names reading.now assembled.now resolved.now
        → IfErr result (IsRefusal l (codes_of source.entry.chars)) }
    ensures none { (l : Language) (ts : List Token) (names : List ℕ)
        → source.entry.starts.now ≡ starts_of (codes_of source.entry.chars) ts
        → IsJudged l (codes_of source.entry.chars) ts names reading.now assembled.now resolved.now
        → OnOk result (IsNamed (HasFault l (codes_of source.entry.chars) ts names reading.now.stop reading.now.taken
        reading.now.events.items) None) }
    ensures made { OnOk result (IsOk assembled.now) }
    ensures looked_up { OnOk result (IsOk resolved.now) }
    ensures full { result ≡ Err CounterFull → assembled.now ≡ Err assembly.CounterFull }
{
    let values = value_fault(assembled)?;
    let scopes = scope_fault(resolved)?;
    match fault_of(reading, source.tokens(), values, scopes) {
        Some(fault) => Err(told(fault.kind, place_of(source, fault.place))),
        None => Ok(()),
    }
}
