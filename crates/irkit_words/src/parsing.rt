//! What the words come to.
ghost use Rattle.std.specs.Prelude.{◌≡◌, IfOk, map, string_bytes};
ghost use Rattle.clap.specs.Words.{kind_of, subcommand_rows_of};
ghost use Rattle.irkit_words.specs.Lines.{IsFaultLine};
ghost use Rattle.irkit_words.specs.Parses.{FoundAs, ParseAs, RefusedAs, TellsMistake, version_line};

use crate::command::{NAME, VERSION, parse};
use crate::lines::{line_of, line_saying};
use crate::request::{Request, RequestFault, request_of};
use clap::error::ErrorKind;
use clap::{ArgMatches, Error};
use std::alloc::{AllocError, Global};

/// What the words of the command line come to.
#[derive(Drop)]
pub enum Parsed {
    /// They ask for this.
    Asked(Request),
    /// They are a mistake, which this line tells.
    Mistaken(String),
    /// They ask for help, and this is it.
    HelpWanted(String),
    /// They ask for the version, and this line says it.
    VersionWanted(String),
    /// Memory was refused while they were read.
    NoMemory,
}

/// What the words come to, of which the first is the program's name.
pub fn understand(alloc: Global, words: &[String]) -> Parsed
    ensures { ParseAs (map string_bytes words.now) result }
{
    match parse(alloc, words) {
        Ok(matches) => found_as(alloc, &matches),
        Err(error) => refused_as(alloc, &error),
    }
}

/// What a parse comes to that is given.
fn found_as(alloc: Global, matches: &ArgMatches<'_>) -> Parsed
    ensures { FoundAs (subcommand_rows_of matches.now) result }
{
    match request_of(alloc, matches) {
        Ok(request) => Parsed::Asked(request),
        Err(RequestFault::Memory) => Parsed::NoMemory,
        Err(fault) => mistaken(line_of(alloc, &fault)),
    }
}

/// What a parse comes to that is refused.
fn refused_as(alloc: Global, error: &Error) -> Parsed
    ensures { RefusedAs (kind_of error.now) result }
{
    match error.kind() {
        ErrorKind::OutOfMemory => Parsed::NoMemory,
        ErrorKind::DisplayHelp => help(alloc, error),
        ErrorKind::DisplayVersion => version(alloc),
        _ => mistaken(fault_line(alloc, error)),
    }
}

/// The help that is asked for.
fn help(alloc: Global, error: &Error) -> Parsed
    ensures { RefusedAs ErrorKind.DisplayHelp result }
{
    match format!(in alloc; "{error}") {
        Ok(text) => Parsed::HelpWanted(text),
        Err(_) => Parsed::NoMemory,
    }
}

/// The version that is asked for.
fn version(alloc: Global) -> Parsed
    ensures { RefusedAs ErrorKind.DisplayVersion result }
{
    match version_text(alloc) {
        Ok(text) => Parsed::VersionWanted(text),
        Err(_) => Parsed::NoMemory,
    }
}

/// The line of the version.
fn version_text(alloc: Global) -> Result<String, AllocError>
    ensures { IfOk result (λ text. string_bytes text ≡ version_line) }
{
    format!(in alloc; "{NAME} {VERSION}\n")
}

/// The line of a parse's error, which begins as other lines of faults do, whatever its text begins with.
fn fault_line(alloc: Global, error: &Error) -> Result<String, AllocError>
    ensures { IfOk result (λ line. IsFaultLine (string_bytes line)) }
{
    let text = format!(in alloc; "{error}")?;
    let text = text.as_str().trim_end();
    line_saying(alloc, text.strip_prefix("error: ").unwrap_or(text))
}

/// A mistake that this line tells.
fn mistaken(line: Result<String, AllocError>) -> Parsed
    requires { IfOk line (λ text. IsFaultLine (string_bytes text)) }
    ensures { TellsMistake result }
{
    match line {
        Ok(line) => Parsed::Mistaken(line),
        Err(_) => Parsed::NoMemory,
    }
}
