//! The command line's grammar.
ghost use Rattle.std.specs.Prelude.{◌≡◌, IfOk, IfErr, map, true, false, string_bytes};
ghost use Rattle.clap.specs.declared.builder.Command.TheViews.{out-Command as fields_of};
ghost use Rattle.clap.specs.Words.{FailsBy, app_of, fault_of, kind_of, subcommand_of, subcommand_rows_of, rule_of, takes};
ghost use Rattle.irkit_words.specs.CommandLine.{irkit, check_app, optimise_app, run_app, limit_rule, path_rule, arguments_rule, program};

use crate::passes::POSSIBLE_PASSES;
use clap::error::ErrorKind;
use clap::{Arg, ArgAction, ArgMatches, Command, Error, value_parser};
use std::alloc::{AllocError, Global};

/// The program's name.
pub(crate) const NAME: &str = "irkit";

/// The program's version.
pub const VERSION: &str = "0.1.0";

/// What the program's exit status says.
const STATUSES: &str = "Exit status:
  0  done, or help or the version was asked for
  1  the input is refused, or memory is, or a read or a write failed
  2  a fault of the command line
  3  run: the function trapped
  4  run: the steps ran out";

fn check_command<'a>(alloc: Global) -> Command<'a>
    ensures app { app_of result ≡ check_app }
    ensures plain { (fields_of result).has_globals ≡ false }
{
    Command::new(alloc, "check").about("Reads a module and tests its rules")
}

#[tactic(auto, unfolding(crate::specs::CommandLine::optimise_app))]
fn optimise_command<'a>(alloc: Global) -> Result<Command<'a>, AllocError>
    ensures app { IfOk result (λ c. app_of c ≡ optimise_app) }
    ensures plain { IfOk result (λ c. (fields_of c).has_globals ≡ false) }
{
    let passes = Arg::new(alloc, "passes")
        .action(ArgAction::Append)
        .value_name("PASS")
        .help(POSSIBLE_PASSES);
    Command::new(alloc, "opt")
        .about("Runs passes over a module, one after another, and writes it")
        .arg(passes)
}

/// `--limit N`
fn limit_argument<'a>(alloc: Global) -> Arg<'a>
    ensures rule { rule_of result ≡ limit_rule }
    ensures local { result.global ≡ false }
{
    Arg::new(alloc, "limit")
        .long("limit")
        .value_name("N")
        .required(true)
        .value_parser(value_parser!(u64))
        .help("At most so many steps are run")
}

/// `PATH`
fn path_argument<'a>(alloc: Global) -> Arg<'a>
    ensures rule { rule_of result ≡ path_rule }
    ensures local { result.global ≡ false }
{
    Arg::new(alloc, "path")
        .value_name("PATH")
        .required(true)
        .help("The names of the modules around a function and its own, joined by `/`")
}

/// `[ARG]...`
fn arguments_argument<'a>(alloc: Global) -> Arg<'a>
    ensures rule { rule_of result ≡ arguments_rule }
    ensures local { result.global ≡ false }
{
    Arg::new(alloc, "arguments")
        .action(ArgAction::Append)
        .value_name("ARG")
        .value_parser(value_parser!(u64))
        .help("The numbers that the function takes, each below 2^64")
}

#[tactic(auto, unfolding(crate::specs::CommandLine::run_app))]
fn run_command<'a>(alloc: Global) -> Result<Command<'a>, AllocError>
    ensures app { IfOk result (λ c. app_of c ≡ run_app) }
    ensures plain { IfOk result (λ c. (fields_of c).has_globals ≡ false) }
{
    Command::new(alloc, "run")
        .about("Runs a function of a module and writes what it emits and how it ends")
        .after_help(STATUSES)
        .arg(limit_argument(alloc))?
        .arg(path_argument(alloc))?
        .arg(arguments_argument(alloc))
}

/// The program without its subcommands, of which one is required.
fn program_command<'a>(alloc: Global) -> Result<Command<'a>, AllocError>
    ensures { IfOk result (λ c. app_of c ≡ program) }
{
    Command::new(alloc, NAME)
        .version(VERSION)
        .about("Reads, tests, optimises and runs modules from standard input")
        .after_help(STATUSES)
        .subcommand_required(true)
        .bin_name(NAME)
}

#[tactic(auto, unfolding(crate::specs::CommandLine::irkit))]
fn command<'a>(alloc: Global) -> Result<Command<'a>, AllocError>
    ensures { IfOk result (λ c. app_of c ≡ irkit) }
{
    let optimise = optimise_command(alloc)?;
    let run = run_command(alloc)?;
    program_command(alloc)?
        .subcommand(check_command(alloc))?
        .subcommand(optimise)?
        .subcommand(run)
}

/// What was found in the words, of which the first is the program's name.
///
/// Refused where the words aren't of the command line, where help or the version is asked for, and for memory. The
/// error's kind tells these apart, and `Display` of it is the text for the user: help, the version, or the fault. Words
/// for passes are any words here.
pub fn parse<'a>(alloc: Global, words: &'a [String]) -> Result<ArgMatches<'a>, Error>
    ensures found { IfOk result (λ m. subcommand_rows_of m ≡ subcommand_of irkit (map string_bytes words.entry.now)) }
    ensures taken { IfErr result (λ e.
        takes irkit (map string_bytes words.entry.now) ≡ true → kind_of e ≡ ErrorKind.OutOfMemory) }
    ensures kinds { FailsBy (fault_of irkit (map string_bytes words.entry.now)) result }
{
    let command = command(alloc)?;
    command.try_get_matches_from(words)
}
