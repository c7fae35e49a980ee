//! What the words ask for.
ghost use Rattle.std.specs.Prelude.{◌≡◌, ◌≢◌, ℕ, List, Some, codes, IfOk, MatchOption, MatchResult, map, option_map};

use crate::passes::{UnknownPass, pass_named};
use clap::ArgMatches;
use kit_ops::KitPass;
use std::alloc::{AllocError, AllocFailed, Global};
use thiserror::Error;

/// A run: the word for a function's path, the numbers that it takes, and at most how many steps.
#[derive(Drop)]
pub struct Execution {
    pub limit: u64,
    pub path: String,
    pub arguments: Vec<u64>,
}

/// What the program is asked to do.
#[derive(Drop)]
pub enum Request {
    /// To test a module.
    Check,
    /// To run these passes in this order over a module, and to write it.
    Optimise(Vec<KitPass>),
    /// To run a function of a module.
    Run(Execution),
}

/// Why the words of a parse ask for nothing. Of these a parse that [`parse`](crate::parse) gives has `Memory` and
/// `UnknownPass` alone.
#[derive(Debug, PartialEq, Eq, Drop, Error)]
pub enum RequestFault {
    /// A request for memory was refused.
    #[error("memory")]
    Memory,
    /// There is no subcommand, or a run without its path.
    #[error("no command")]
    NoCommand,
    /// A word names no pass.
    #[error("{0}")]
    UnknownPass(UnknownPass),
    /// A limit or an argument is no number, or one that is too large.
    #[error("not a number below 2^64")]
    NoNumber,
}

impl From<AllocError> for RequestFault {
    ghost use Rattle.irkit_words.specs.declared.request.RequestFault.TheVariants.{Memory};

    ghost from_gives = { λ _ e. e ≡ Memory };

    fn from(_e: AllocError) -> RequestFault {
        RequestFault::Memory
    }
}

impl<T: Drop> From<AllocFailed<T>> for RequestFault {
    ghost use Rattle.irkit_words.specs.declared.request.RequestFault.TheVariants.{Memory};

    ghost from_gives = { λ _ e. e ≡ Memory };

    fn from(_e: AllocFailed<T>) -> RequestFault {
        RequestFault::Memory
    }
}

ghost use Rattle.clap.specs.Words.{found_of, rows_of, subcommand_rows_of, all_of, first_of};
ghost use Rattle.irkit_words.specs.Requests.{pass_name, AsksFor, SaysNumber, SayNumbers, words_at};

/// The passes of these names, or the first that is unknown.
fn passes_of(alloc: Global, names: &[&str]) -> Result<Result<Vec<KitPass>, UnknownPass>, AllocError>
    ensures { let all = map (λ n. n.now) names.now in
        IfOk result (λ r. MatchResult r (λ v. map pass_name v.items ≡ all)
        (λ _. (ps : List KitPass) → map pass_name ps ≢ all)) }
{
    let mut passes = Vec::new(alloc);
    for name in names {
        match pass_named(name) {
            Some(pass) => passes.push(pass)?,
            None => return Ok(Err(UnknownPass::of(alloc, name)?)),
        }
    }
    Ok(Ok(passes))
}

/// The subcommand of a parse, with its matches.
fn entered<'a, 'b>(matches: &'b ArgMatches<'a>) -> Option<(&'a str, &'b ArgMatches<'a>)>
    ensures { option_map (λ p. (p.0.now, rows_of (found_of p.1.now))) result ≡ subcommand_rows_of matches.now }
{
    matches.subcommand()
}

/// The words for an argument that may have several.
fn words_of<'a, 'b>(inner: &'b ArgMatches<'a>, id: &str) -> Option<&'b [&'a str]>
    ensures { option_map (λ words. map (λ n. n.now) words.now) result ≡ all_of id.now (rows_of (found_of inner.now)) }
{
    inner.get_strs(id)
}

/// The word for an argument.
fn word_of<'a>(inner: &ArgMatches<'a>, id: &str) -> Option<&'a str>
    ensures { option_map (λ w. w.now) result ≡ first_of id.now (rows_of (found_of inner.now)) }
{
    inner.get_str(id)
}

/// The request for passes.
fn optimise_of(alloc: Global, inner: &ArgMatches<'_>) -> Result<Request, RequestFault>
    ensures { AsksFor (Some (codes "opt", rows_of (found_of inner.now))) result }
{
    let Some(names) = words_of(inner, "passes") else {
        return Ok(Request::Optimise(Vec::new(alloc)));
    };
    match passes_of(alloc, names)? {
        Ok(passes) => Ok(Request::Optimise(passes)),
        Err(unknown) => Err(RequestFault::UnknownPass(unknown)),
    }
}

/// The number that a word is.
fn number_in(word: &str) -> Option<u64>
    ensures { MatchOption result ((n : ℕ) → SaysNumber word.now n → ⊥) (SaysNumber word.now) }
{
    word.parse().ok()
}

/// The numbers that words are, or nothing where one is none.
fn numbers_in(alloc: Global, words: &[&str]) -> Result<Option<Vec<u64>>, AllocError>
    ensures { let all = map (λ w. w.now) words.now in
        IfOk result (λ r. MatchOption r ((ns : List ℕ) → SayNumbers all ns → ⊥) (λ v. SayNumbers all v.items)) }
{
    let mut numbers = Vec::new(alloc);
    for word in words {
        match number_in(word) {
            Some(number) => numbers.push(number)?,
            None => return Ok(None),
        }
    }
    Ok(Some(numbers))
}

/// The numbers that a function is run on.
fn arguments_of(alloc: Global, inner: &ArgMatches<'_>) -> Result<Option<Vec<u64>>, AllocError>
    ensures { let words = words_at (codes "arguments") (rows_of (found_of inner.now)) in
        IfOk result (λ r. MatchOption r ((ns : List ℕ) → SayNumbers words ns → ⊥) (λ v. SayNumbers words v.items)) }
{
    match words_of(inner, "arguments") {
        Some(words) => numbers_in(alloc, words),
        None => Ok(Some(Vec::new(alloc))),
    }
}

/// The request for a run.
fn run_of(alloc: Global, inner: &ArgMatches<'_>) -> Result<Request, RequestFault>
    ensures { AsksFor (Some (codes "run", rows_of (found_of inner.now))) result }
{
    let Some(limit) = word_of(inner, "limit") else {
        return Err(RequestFault::NoNumber);
    };
    let Some(path) = word_of(inner, "path") else {
        return Err(RequestFault::NoCommand);
    };
    let Some(limit) = number_in(limit) else {
        return Err(RequestFault::NoNumber);
    };
    let Some(arguments) = arguments_of(alloc, inner)? else {
        return Err(RequestFault::NoNumber);
    };
    let path = String::from_str(alloc, path)?;
    Ok(Request::Run(Execution {
        limit,
        path,
        arguments,
    }))
}

/// What a parse asks for, or why there is nothing that it asks for.
pub fn request_of(alloc: Global, matches: &ArgMatches<'_>) -> Result<Request, RequestFault>
    ensures { AsksFor (subcommand_rows_of matches.now) result }
{
    match entered(matches) {
        Some(("check", _)) => Ok(Request::Check),
        Some(("opt", inner)) => optimise_of(alloc, inner),
        Some(("run", inner)) => run_of(alloc, inner),
        _ => Err(RequestFault::NoCommand),
    }
}
