//! The command line of the program, as clap is told of it.
ghost use Rattle.std.specs.Prelude.{◌≡◌, IfOk, true, false};
ghost use Rattle.clap.specs.Words.{app_of, rule_of, with_subcommand};
ghost use Rattle.clap.specs.declared.Command.TheViews.{out-Command as fields_of};
ghost use Rattle.command_line.specs.CommandLine.{option_rule, newest_rule, workers_rule, budget_rule, files_rule, serve_app, race_app, bare_app, program_app};

use crate::words::{MOST_CONFLICTS, MOST_WORKERS};
use clap::builder::ValueParser;
use clap::{Arg, ArgAction, Command};
use std::alloc::{AllocError, Global};

// What the help of `serve` shows.
const SERVE_EXAMPLE: &str =
    "Example: echo '{\"op\":\"list\"}' | registryd serve --workers 1 --journal packages.journal";

// What the help of `race` shows.
const RACE_EXAMPLE: &str = "Example: registryd race first.lines second.lines";

/// `registryd serve --workers N [--journal FILE] [--load FILE] [--save FILE] [--budget N] [--newest]`,
/// `registryd race [--newest] FILE...` or `registryd help [COMMAND]`, without the program's name.
pub fn program<'a>(alloc: Global) -> Result<Command<'a>, AllocError>
    ensures { IfOk result (λ c. app_of c ≡ program_app) }
{
    let serving = with_serve(alloc, bare_program(alloc)?)?;
    with_race(alloc, serving)
}

fn bare_program<'a>(alloc: Global) -> Result<Command<'a>, AllocError>
    ensures { IfOk result (λ c. app_of c ≡ bare_app) }
{
    let named = Command::new(alloc, "registryd").bin_name("registryd")?;
    Ok(
        named
            .about("A package registry that reads request lines and writes reply lines")
            .no_binary_name(true)
            .subcommand_required(true),
    )
}

fn with_serve<'a>(alloc: Global, program: Command<'a>) -> Result<Command<'a>, AllocError>
    ensures { IfOk result (λ c. app_of c ≡ with_subcommand (app_of program.entry) serve_app.top) }
{
    match serve_command(alloc) {
        Ok(serve) => program.subcommand(serve),
        Err(error) => {
            drop(program);
            Err(error)
        }
    }
}

fn with_race<'a>(alloc: Global, program: Command<'a>) -> Result<Command<'a>, AllocError>
    ensures { IfOk result (λ c. app_of c ≡ with_subcommand (app_of program.entry) race_app.top) }
{
    match race_command(alloc) {
        Ok(race) => program.subcommand(race),
        Err(error) => {
            drop(program);
            Err(error)
        }
    }
}

fn serve_command<'a>(alloc: Global) -> Result<Command<'a>, AllocError>
    ensures app { IfOk result (λ c. app_of c ≡ serve_app) }
    ensures local { IfOk result (λ c. (fields_of c).has_globals ≡ false) }
{
    let bare = Command::new(alloc, "serve")
        .about("Answers the request lines of standard input")
        .after_help(SERVE_EXAMPLE);
    let with_workers = bare.arg(workers_option(alloc))?;
    let with_journal = with_workers.arg(file_option(
        alloc,
        "journal",
        "The journal to go on with; it has each accepted line before its reply is written",
    ))?;
    let with_load = with_journal.arg(file_option(alloc, "load", "A journal to begin from"))?;
    let with_save = with_load.arg(file_option(
        alloc,
        "save",
        "Where to write the journal at the end",
    ))?;
    let with_budget = with_save.arg(budget_option(alloc))?;
    with_budget.arg(newest_flag(alloc))
}

fn race_command<'a>(alloc: Global) -> Result<Command<'a>, AllocError>
    ensures app { IfOk result (λ c. app_of c ≡ race_app) }
    ensures local { IfOk result (λ c. (fields_of c).has_globals ≡ false) }
{
    let bare = Command::new(alloc, "race")
        .about("Answers the request lines of files, a thread to each")
        .after_help(RACE_EXAMPLE);
    let with_files = bare.arg(files_argument(alloc))?;
    with_files.arg(newest_flag(alloc))
}

fn workers_option<'a>(alloc: Global) -> Arg<'a>
    ensures rule { rule_of result ≡ workers_rule }
    ensures local { result.global ≡ false }
{
    Arg::new(alloc, "workers")
        .long("workers")
        .value_name("N")
        .help("How many threads resolve, 1 to 64")
        .required(true)
        .action(ArgAction::Set)
        .value_parser(ValueParser::Unsigned(1, MOST_WORKERS))
}

fn budget_option<'a>(alloc: Global) -> Arg<'a>
    ensures rule { rule_of result ≡ budget_rule }
    ensures local { result.global ≡ false }
{
    Arg::new(alloc, "budget")
        .long("budget")
        .value_name("N")
        .help("The budget of conflicts of each request that names none")
        .action(ArgAction::Set)
        .value_parser(ValueParser::Unsigned(0, MOST_CONFLICTS))
}

fn file_option<'a>(alloc: Global, name: &'a str, help: &'a str) -> Arg<'a>
    ensures rule { rule_of result ≡ option_rule name.entry.now }
    ensures local { result.global ≡ false }
{
    Arg::new(alloc, name)
        .long(name)
        .value_name("FILE")
        .help(help)
        .action(ArgAction::Set)
}

// Still taken from callers that were written when there were other selections.
fn newest_flag<'a>(alloc: Global) -> Arg<'a>
    ensures rule { rule_of result ≡ newest_rule }
    ensures local { result.global ≡ false }
{
    Arg::new(alloc, "newest")
        .long("newest")
        .help("Has no effect: each selection is the newest")
        .action(ArgAction::SetTrue)
}

fn files_argument<'a>(alloc: Global) -> Arg<'a>
    ensures rule { rule_of result ≡ files_rule }
    ensures local { result.global ≡ false }
{
    Arg::new(alloc, "files")
        .value_name("FILE")
        .help("1 to 63 files of request lines")
        .required(true)
        .action(ArgAction::Append)
        .num_args(1..)
}
