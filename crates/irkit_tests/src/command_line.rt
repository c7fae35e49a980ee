//! Command lines with what the program does on them.
use crate::calls::{EMPTY, PRINTED, SUM, SUM_PRINTED, does, driven, is_served};
use irkit_driver::{KitPass, Request};
use std::alloc::{AllocError, Global};

/// A line, an input and the room of the output, with the status, what is written and what is told.
type Case = (
    &'static str,
    &'static [u8],
    usize,
    u8,
    &'static str,
    &'static str,
);

/// Commands, with faults of texts and of writes.
const COMMANDS: &[Case] = &[
    ("irkit check", EMPTY, 9, 0, "ok\n", ""),
    ("irkit opt", EMPTY, 99, 0, PRINTED, ""),
    ("irkit opt dce", EMPTY, 99, 0, PRINTED, ""),
    ("irkit opt simplify-cfg", EMPTY, 99, 0, PRINTED, ""),
    ("irkit opt sccp dce simplify-cfg", EMPTY, 99, 0, PRINTED, ""),
    ("irkit check", b"", 9, 1, "", "error: syntax at 1:1\n"),
    (
        "irkit opt",
        b"x\xc3",
        9,
        1,
        "",
        "error: not UTF-8 at byte 1\n",
    ),
    (
        "irkit opt sccp dce simplify-cfg",
        b"kit.return",
        99,
        1,
        "",
        "error: rule 1 at root\n",
    ),
    (
        "irkit opt sccp dce",
        SUM,
        10,
        1,
        "builtin.mo",
        "error: write after 10 bytes\n",
    ),
    (
        "irkit check",
        EMPTY,
        2,
        1,
        "ok",
        "error: write after 2 bytes\n",
    ),
    (
        "irkit opt",
        EMPTY,
        4,
        1,
        "buil",
        "error: write after 4 bytes\n",
    ),
];

/// Each command does what is wanted of it.
#[test]
fn commands_are_served(rt: HostRuntime) -> Result<(), AllocError> {
    for (line, input, room, status, written, told) in COMMANDS {
        assert!(rt;
            does(rt.alloc(), line, input, *room, *status, written, told)?,
            "{line}"
        );
    }
    Ok(())
}

/// Whether a request for two passes is served.
fn is_optimised(alloc: Global) -> Result<bool, AllocError> {
    let passes = [KitPass::Sccp, KitPass::Dce].to_vec(alloc)?;
    is_served(alloc, &Request::Optimise(passes), SUM, 0, SUM_PRINTED, "")
}

/// Requests are served that come of no words.
#[test]
fn requests_are_served(rt: HostRuntime) -> Result<(), AllocError> {
    let alloc = rt.alloc();
    assert!(rt; is_served(alloc, &Request::Check, EMPTY, 0, "ok\n", "")?);
    assert!(rt; is_served(alloc, &Request::Check, b"", 1, "", "error: syntax at 1:1\n")?);
    assert!(rt; is_optimised(alloc)?);
    Ok(())
}

/// Mistakes, each with the front of the fault that is told.
const MISTAKES: &[(&str, &str)] = &[
    ("irkit", "'irkit' requires a subcommand"),
    ("irkit chec", "unrecognized subcommand 'chec'"),
    ("irkit ru", "unrecognized subcommand 'ru'"),
    (
        "irkit run",
        "the following required arguments were not provided",
    ),
    (
        "irkit run f",
        "the following required arguments were not provided",
    ),
    (
        "irkit run --limit 3",
        "the following required arguments were not provided",
    ),
    (
        "irkit run --limit 18446744073709551616 f",
        "invalid value '18446744073709551616' for '--limit <N>': number too large",
    ),
    (
        "irkit run --limit 0x3 f",
        "invalid value '0x3' for '--limit <N>': invalid digit",
    ),
    (
        "irkit run --limit 3 f 1 18446744073709551616",
        "invalid value '18446744073709551616' for '[ARG]...': number too large",
    ),
    ("irkit run --limit 3 f -1", "unexpected argument '-1'"),
    ("irkit run --limit -3 f", "unexpected argument '-3'"),
    ("irkit -x", "unexpected argument '-x'"),
    ("irkit check more", "unexpected argument 'more'"),
    ("irkit opt licm", "invalid value 'licm' for '[PASS]...'"),
    (
        "irkit opt sccp licm",
        "invalid value 'licm' for '[PASS]...'",
    ),
    ("irkit opt Dce", "invalid value 'Dce' for '[PASS]...'"),
    (
        "irkit opt simplify_cfg",
        "invalid value 'simplify_cfg' for '[PASS]...'",
    ),
    ("irkit opt --version", "unexpected argument '--version'"),
    ("irkit opt --x", "unexpected argument '--x'"),
];

/// Whether a line is a mistake, of which a fault with this front is told.
fn is_refused(alloc: Global, line: &str, fault: &str) -> Result<bool, AllocError> {
    let front = format!(in alloc; "error: {fault}")?;
    let did = driven(alloc, line, b"x", 999, 9999)?;
    Ok(did.status == 2 && did.written.is_empty() && did.told.starts_with(front.as_str()))
}

/// Mistakes have a status of their own, and nothing is written.
#[test]
fn mistakes_are_refused(rt: HostRuntime) -> Result<(), AllocError> {
    for (line, fault) in MISTAKES {
        assert!(rt; is_refused(rt.alloc(), line, fault)?, "{line}");
    }
    Ok(())
}

/// Passes that are misspelt, with the pass that is meant.
const MISSPELT: &[(&str, &str)] = &[
    ("sscp", "sccp"),
    ("dces", "dce"),
    ("Dce", "dce"),
    ("simplify_cfg", "simplify-cfg"),
    ("simplify", "simplify-cfg"),
];

/// Whether a pass is suggested for a word.
fn is_suggested(alloc: Global, word: &str, pass: &str) -> Result<bool, AllocError> {
    let line = format!(in alloc; "irkit opt {word}")?;
    let tip = format!(in alloc; "  tip: a similar value exists: '{pass}'\n")?;
    let did = driven(alloc, line.as_str(), b"x", 999, 9999)?;
    Ok(did.status == 2 && did.told.contains(tip.as_str()))
}

/// A misspelt pass is told with the one that is meant.
#[test]
fn similar_passes_are_suggested(rt: HostRuntime) -> Result<(), AllocError> {
    for (word, pass) in MISSPELT {
        assert!(rt; is_suggested(rt.alloc(), word, pass)?, "{word}");
    }
    Ok(())
}

/// The version goes to the output.
#[test]
fn the_version_is_written(rt: HostRuntime) -> Result<(), AllocError> {
    for line in ["irkit --version", "irkit -V"] {
        assert!(rt;
            does(rt.alloc(), line, b"x", 99, 0, "irkit 0.1.0\n", "")?,
            "{line}"
        );
    }
    Ok(())
}

/// Lines that ask for help.
const HELP: &[&str] = &[
    "irkit --help",
    "irkit help",
    "irkit opt -h",
    "irkit help check",
    "irkit run --help",
];

/// Whether help is written on this line, and nothing is told.
fn is_helped(alloc: Global, line: &str) -> Result<bool, AllocError> {
    let did = driven(alloc, line, b"x", 9999, 9999)?;
    Ok(did.status == 0 && did.written.len() > 50 && did.told.is_empty())
}

/// Whether on this line a fault is told where the output has room for 20 bytes.
fn is_cut(alloc: Global, line: &str) -> Result<bool, AllocError> {
    let did = driven(alloc, line, b"x", 20, 9999)?;
    Ok(did.status == 1 && did.told.as_str() == "error: write after 20 bytes\n")
}

/// Help is written on the output, as far as it has room.
#[test]
fn help_goes_to_the_output(rt: HostRuntime) -> Result<(), AllocError> {
    for line in HELP {
        assert!(rt; is_helped(rt.alloc(), line)?, "{line}");
        assert!(rt; is_cut(rt.alloc(), line)?, "{line}");
    }
    Ok(())
}

/// Lines and inputs with the status, where no fault can be told.
const UNTOLD: &[(&str, &[u8], u8)] = &[
    ("irkit check", EMPTY, 0),
    ("irkit check", b"\xff", 1),
    ("irkit opt", b"", 1),
    ("irkit opt licm", b"x", 2),
    ("irkit run --limit x f", b"x", 2),
    ("irkit run --limit 3 f", b"x", 1),
    ("irkit chec", b"x", 2),
];

/// Whether the program ends with this status where there is no room for a fault.
fn ends_with(alloc: Global, line: &str, input: &[u8], status: u8) -> Result<bool, AllocError> {
    Ok(driven(alloc, line, input, 999, 0)?.status == status)
}

/// The status is that of the command, whether its fault can be told or not.
#[test]
fn a_line_that_is_not_written_changes_no_status(rt: HostRuntime) -> Result<(), AllocError> {
    for (line, input, status) in UNTOLD {
        assert!(rt; ends_with(rt.alloc(), line, input, *status)?, "{line}");
    }
    Ok(())
}
