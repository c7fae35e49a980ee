//! What is written of a run, and the texts of faults.
use crate::calls::is_written;
use crate::fakes::writer_of;
use ir_names::Place;
use ir_tokens::ScopeCause;
use irkit_driver::{ExecutionFault, Refusal, report};
use kit_checks::Rule;
use kit_flat::Outcome;
use std::alloc::{AllocError, Global};

/// Whether this is reported of an outcome as far as the room allows, by writes of at most so many bytes.
fn reports(
    alloc: Global,
    outcome: &Outcome,
    step: usize,
    room: usize,
    fails: bool,
    text: &str,
) -> bool {
    let mut output = writer_of(alloc, step, room, fails);
    let answer = report(alloc, outcome, &mut output);
    is_written(&answer, &output, text, room)
}

/// The outcome of a run that returned these values, after these emissions.
fn ended(alloc: Global, values: &[u64], emissions: &[u64]) -> Result<Outcome, AllocError> {
    Ok(Outcome::Ended(values.to_vec(alloc)?, emissions.to_vec(alloc)?))
}

/// Whether this is the whole report of a run that returned these values, after these emissions.
fn is_end(
    alloc: Global,
    values: &[u64],
    emissions: &[u64],
    text: &str,
) -> Result<bool, AllocError> {
    let outcome = ended(alloc, values, emissions)?;
    Ok(reports(alloc, &outcome, 999, 999, true, text))
}

/// Whether this is the whole report of a run that trapped after these emissions.
fn is_trap(alloc: Global, emissions: &[u64], text: &str) -> Result<bool, AllocError> {
    let outcome = Outcome::Trapped(emissions.to_vec(alloc)?);
    Ok(reports(alloc, &outcome, 999, 999, true, text))
}

/// Whether this is the whole report of a run whose steps ran out after these emissions.
fn is_limit(alloc: Global, emissions: &[u64], text: &str) -> Result<bool, AllocError> {
    let outcome = Outcome::Limit(emissions.to_vec(alloc)?);
    Ok(reports(alloc, &outcome, 999, 999, true, text))
}

/// Whether the report of a run is cut where the output has this room, and then fails or takes none.
fn is_cut(alloc: Global, room: usize, text: &str) -> Result<bool, AllocError> {
    let outcome = ended(alloc, &[10], &[3])?;
    Ok(reports(alloc, &outcome, 5, room, room % 2 == 0, text))
}

/// What is reported of values after emissions.
const ENDS: &[(&[u64], &[u64], &str)] = &[
    (&[], &[], "end\n"),
    (&[0], &[], "end 0\n"),
    (&[7, 10], &[255], "emit 255\nend 7 10\n"),
];

/// What is reported of a trap after emissions.
const TRAPS: &[(&[u64], &str)] = &[(&[], "trap\n"), (&[9], "emit 9\ntrap\n")];

/// What is reported of the limit after emissions.
const LIMITS: &[(&[u64], &str)] = &[
    (&[], "limit\n"),
    (
        &[0, 18446744073709551615],
        "emit 0\nemit 18446744073709551615\nlimit\n",
    ),
];

/// The report of a run that emits 3 and returns 10.
const WHOLE: &str = "emit 3\nend 10\n";

/// Outcomes have their lines, as far as there is room for them.
#[test]
fn outcomes_have_their_lines(rt: HostRuntime) -> Result<(), AllocError> {
    for (values, emissions, text) in ENDS {
        assert!(rt; is_end(rt.alloc(), values, emissions, text)?, "{text}");
    }
    for (emissions, text) in TRAPS {
        assert!(rt; is_trap(rt.alloc(), emissions, text)?, "{text}");
    }
    for (emissions, text) in LIMITS {
        assert!(rt; is_limit(rt.alloc(), emissions, text)?, "{text}");
    }
    for room in 0..WHOLE.len() {
        assert!(rt; is_cut(rt.alloc(), room, WHOLE)?, "{room}");
    }
    Ok(())
}

/// Whether a refusal has this number and text.
fn is_named(alloc: Global, refusal: Refusal, number: u8, text: &str) -> Result<bool, AllocError> {
    Ok(refusal.number() == number && format!(in alloc; "{refusal}")?.as_str() == text)
}

/// Whether the refusal for a broken rule, of the operation at the place with these numbers, has this text.
fn rule_is_named(
    alloc: Global,
    rule: Rule,
    place: &[usize],
    text: &str,
) -> Result<bool, AllocError> {
    let place = Place {
        children: place.to_vec(alloc)?,
    };
    is_named(alloc, Refusal::Rule(rule, place), 5, text)
}

/// Whether the refusal for names at a line and column has this text.
fn scope_is_named(alloc: Global, cause: ScopeCause, text: &str) -> Result<bool, AllocError> {
    is_named(alloc, Refusal::Scope(2, 9, cause), 4, text)
}

/// Causes of refused names, with the texts of their refusals.
const SCOPES: &[(ScopeCause, &str)] = &[
    (
        ScopeCause::MultipleDefinitions,
        "scope at 2:9: MultipleDefinitions",
    ),
    (
        ScopeCause::TopLevelOpRegionNotIsolatedFromAbove,
        "scope at 2:9: TopLevelOpRegionNotIsolatedFromAbove",
    ),
];

/// Broken rules with the place of an operation, and the texts of their refusals.
const RULES: &[(Rule, &[usize], &str)] = &[
    (Rule::RootIsModule, &[], "rule 1 at root"),
    (Rule::FitsFormat, &[0, 2, 10], "rule 14 at 0.2.10"),
];

/// Refusals have their numbers and texts.
#[test]
fn refusals_have_their_texts(rt: HostRuntime) -> Result<(), AllocError> {
    let alloc = rt.alloc();
    assert!(rt; is_named(alloc, Refusal::NotUtf8(7), 1, "not UTF-8 at byte 7")?);
    assert!(rt; is_named(alloc, Refusal::Syntax(1, 20), 2, "syntax at 1:20")?);
    assert!(rt; is_named(alloc, Refusal::TooDeep(65, 3), 3, "too deep at 65:3")?);
    for (cause, text) in SCOPES {
        assert!(rt; scope_is_named(alloc, *cause, text)?, "{text}");
    }
    for (rule, place, text) in RULES {
        assert!(rt; rule_is_named(alloc, *rule, place, text)?, "{text}");
    }
    assert!(rt; is_named(alloc, Refusal::Memory, 6, "memory")?);
    assert!(rt; is_named(alloc, Refusal::CounterFull, 7, "counter full")?);
    assert!(rt; is_named(alloc, Refusal::Read, 8, "read")?);
    assert!(rt; is_named(alloc, Refusal::Write(0), 9, "write after 0 bytes")?);
    Ok(())
}

/// Whether a fault of a run has this text.
fn is_told(alloc: Global, fault: ExecutionFault, text: &str) -> Result<bool, AllocError> {
    Ok(format!(in alloc; "{fault}")?.as_str() == text)
}

/// Whether the fault of a run for a refusal has this text.
fn is_passed_on(alloc: Global, refusal: Refusal, text: &str) -> Result<bool, AllocError> {
    is_told(alloc, ExecutionFault::Refused(refusal), text)
}

/// Faults of runs have their texts, and pass those of refusals on.
#[test]
fn faults_of_runs_have_their_texts(rt: HostRuntime) -> Result<(), AllocError> {
    let alloc = rt.alloc();
    assert!(rt; is_passed_on(alloc, Refusal::Memory, "memory")?);
    assert!(rt; is_passed_on(alloc, Refusal::Write(7), "write after 7 bytes")?);
    assert!(rt; is_told(alloc, ExecutionFault::WrongPath, "wrong path")?);
    assert!(rt; is_told(alloc, ExecutionFault::WrongArguments, "wrong arguments")?);
    Ok(())
}
