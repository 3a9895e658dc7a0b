//! The words of the command line, as clap reads them.
ghost use Rattle.std.specs.Prelude.{◌≡◌, ◌≢◌, ◌⊎◌, [], IfOk, OnOk, IsErrOf, option_map, true, map, string_bytes};
ghost use Rattle.clap.specs.Words.{fault_of, takes, subcommand_of, subcommand_rows_of, rows_of, found_of, kind_of};
ghost use Rattle.command_line.specs.CommandLine.{program_app};
ghost use Rattle.command_line.specs.Words.{texts, AskForHelp, MayAskForHelp, Says, SaysServe, SaysRace, HasManyFiles, HasMixedFiles, IsManyFiles, AreMixed, HasWorkers, HasBudget, HasFiles, IsGiven, AreWords, NamesBoth};
ghost use Rattle.command_line.specs.declared.words.WordFault.TheVariants.{Memory};

use crate::command_line::program;
use clap::error::ErrorKind;
use clap::{ArgMatches, Error};
use std::alloc::{AllocError, Global};
use thiserror::Error as ThisError;

/// The most threads that resolve requests.
pub const MOST_WORKERS: u64 = 64;

/// The largest budget of conflicts.
pub const MOST_CONFLICTS: u64 = 4_294_967_295;

/// The most files that a race takes: with the seat that prints the journal they are 64 seats.
pub const MOST_FILES: usize = 63;

/// What the words ask for.
#[derive(Drop)]
pub enum Words {
    /// Answer the lines of standard input, by so many resolving threads, with this budget of each request
    /// that names none, if one is given, from a journal's commands on and with a journal at the end, where
    /// files are named for them.
    Serve {
        workers: usize,
        budget: Option<u32>,
        load: Option<String>,
        save: Option<String>,
    },
    /// Answer the lines of standard input, by so many resolving threads and by such a budget, from the
    /// commands of a journal's file on, which is kept as they are answered.
    Keep {
        workers: usize,
        budget: Option<u32>,
        journal: String,
    },
    /// Answer the lines of each file, side by side.
    Race {
        files: Vec<String>,
    },
}

/// Why there is no command to run.
#[derive(Clone, Copy, Debug, PartialEq, Eq, ThisError)]
pub enum WordFault {
    /// The words ask for help, which [`advice_on`] tells.
    #[error("help is asked for")]
    Help,
    /// clap refuses the words, or a race has too many files, or a session keeps a journal and is to load or
    /// to save one as well.
    #[error("bad words")]
    Bad,
    #[error("no memory")]
    Memory,
}

impl From<AllocError> for WordFault {
    ghost from_gives = { λ _ fault. fault ≡ Memory };

    fn from(_refused: AllocError) -> WordFault {
        WordFault::Memory
    }
}

/// Reads the words after the program's name.
pub fn read_words(alloc: Global, words: &[String]) -> Result<Words, WordFault>
    // The subcommand, the options and the files are those that clap gives for the words.
    ensures ok { IfOk result (λ w. Says w (subcommand_of program_app (texts words.now))) }
    // Only words in which clap finds no fault are taken.
    ensures taken { OnOk result (fault_of program_app (texts words.now) ≡ []) }
    // Only words in which clap finds a fault are bad, or too many files, or files that are not named together.
    ensures bad { IsErrOf result WordFault.Bad → fault_of program_app (texts words.now) ≡ []
        → HasManyFiles (subcommand_of program_app (texts words.now)) ⊎ HasMixedFiles (subcommand_of program_app (texts words.now)) }
    // Words that clap takes are bad only for too many files, or for files that are not named together.
    ensures refused { IsErrOf result WordFault.Bad → takes program_app (texts words.now) ≡ true
        → HasManyFiles (subcommand_of program_app (texts words.now)) ⊎ HasMixedFiles (subcommand_of program_app (texts words.now)) }
    // Only words that clap may answer with help ask for it, and those that it answers with nothing else are not bad.
    ensures help { IsErrOf result WordFault.Help → MayAskForHelp (texts words.now) }
    ensures helped { IsErrOf result WordFault.Bad → AskForHelp (texts words.now) → ⊥ }
{
    let matches = matches_of(alloc, words)?;
    words_of(alloc, &matches)
}

// What to show a person who names files that are not named together.
const MIXED_FILES: &str =
    "error: the argument '--journal <FILE>' cannot be used with '--load <FILE>' or '--save <FILE>': a session begins from its file and keeps it

Usage: registryd serve --workers <N> --journal <FILE>

For more information, try '--help'.
";

/// What to show a person whose words ask for help, or are bad: what clap says to them, and where clap has nothing
/// against them, that files are not named together, or the help of the program.
pub fn advice_on(alloc: Global, words: &[String]) -> Result<String, AllocError> {
    match program(alloc)?.try_get_matches_from(words) {
        Ok(matches) => match matches.subcommand_matches("serve") {
            Some(_) => String::from_str(alloc, MIXED_FILES),
            None => program(alloc)?.render_help(),
        },
        Err(e) => format!(in alloc; "{e}"),
    }
}

// What clap makes of the words.
fn matches_of<'a>(alloc: Global, words: &'a [String]) -> Result<ArgMatches<'a>, WordFault>
    ensures ok { IfOk result (λ m. subcommand_rows_of m ≡ subcommand_of program_app (texts words.entry.now)) }
    ensures given { IfOk result (λ m. IsGiven (subcommand_rows_of m)) }
    ensures taken { OnOk result (fault_of program_app (texts words.entry.now) ≡ []) }
    ensures bad { IsErrOf result WordFault.Bad → fault_of program_app (texts words.entry.now) ≢ [] }
    ensures refused { IsErrOf result WordFault.Bad → takes program_app (texts words.entry.now) ≢ true }
    ensures help { IsErrOf result WordFault.Help → MayAskForHelp (texts words.entry.now) }
    ensures helped { IsErrOf result WordFault.Bad → AskForHelp (texts words.entry.now) → ⊥ }
{
    let command = program(alloc)?;
    match command.try_get_matches_from(words) {
        Ok(matches) => Ok(matches),
        Err(e) => Err(fault_in(&e)),
    }
}

// Want of memory is no fault of the words, and neither is a wish for help.
fn fault_in(e: &Error) -> WordFault
    ensures bad { result ≡ WordFault.Bad → (kind_of e.now ≢ ErrorKind.OutOfMemory) × (kind_of e.now ≢ ErrorKind.DisplayHelp) }
    ensures memory { result ≡ WordFault.Memory → kind_of e.now ≡ ErrorKind.OutOfMemory }
    ensures help { result ≡ WordFault.Help → kind_of e.now ≡ ErrorKind.DisplayHelp }
{
    match e.kind() {
        ErrorKind::OutOfMemory => WordFault::Memory,
        ErrorKind::DisplayHelp => WordFault::Help,
        _ => WordFault::Bad,
    }
}

fn words_of(alloc: Global, matches: &ArgMatches) -> Result<Words, WordFault>
    requires { IsGiven (subcommand_rows_of matches.now) }
    ensures ok { IfOk result (λ w. Says w (subcommand_rows_of matches.now)) }
    ensures bad { IsErrOf result WordFault.Bad
        → HasManyFiles (subcommand_rows_of matches.now) ⊎ HasMixedFiles (subcommand_rows_of matches.now) }
    ensures no_help { IsErrOf result WordFault.Help → ⊥ }
{
    match matches.subcommand_matches("serve") {
        Some(given) => return serve_words(alloc, given),
        None => {}
    }
    match matches.subcommand_matches("race") {
        Some(given) => race_words(alloc, given),
        None => unreachable!(),
    }
}

fn serve_words(alloc: Global, given: &ArgMatches) -> Result<Words, WordFault>
    requires workers { HasWorkers (rows_of (found_of given.now)) }
    requires budget { HasBudget (rows_of (found_of given.now)) }
    ensures ok { IfOk result (λ w. SaysServe w (rows_of (found_of given.now))) }
    ensures bad { IsErrOf result WordFault.Bad → AreMixed (rows_of (found_of given.now)) }
    ensures no_help { IsErrOf result WordFault.Help → ⊥ }
{
    let Some(workers) = given.get_one::<usize>("workers") else {
        unreachable!()
    };
    let budget = given.get_one::<u32>("budget");
    let load = given.get_str("load");
    let save = given.get_str("save");
    let journal = given.get_str("journal");
    words_with(alloc, workers, budget, load, save, journal)
}

fn words_with(
    alloc: Global,
    workers: usize,
    budget: Option<u32>,
    load: Option<&str>,
    save: Option<&str>,
    journal: Option<&str>,
) -> Result<Words, WordFault>
    ensures ok { IfOk result (λ w. AreWords w workers budget (option_map (λ t. t.now) load.entry)
        (option_map (λ t. t.now) save.entry) (option_map (λ t. t.now) journal.entry)) }
    ensures bad { IsErrOf result WordFault.Bad
        → NamesBoth (option_map (λ t. t.now) load.entry) (option_map (λ t. t.now) save.entry) (option_map (λ t. t.now) journal.entry) }
    ensures no_help { IsErrOf result WordFault.Help → ⊥ }
{
    match journal {
        None => Ok(Words::Serve {
            workers,
            budget,
            load: copied(alloc, load)?,
            save: copied(alloc, save)?,
        }),
        Some(journal) => {
            if load.is_some() || save.is_some() {
                return Err(WordFault::Bad);
            }
            Ok(Words::Keep {
                workers,
                budget,
                journal: String::from_str(alloc, journal)?,
            })
        }
    }
}

fn race_words(alloc: Global, given: &ArgMatches) -> Result<Words, WordFault>
    requires { HasFiles (rows_of (found_of given.now)) }
    ensures ok { IfOk result (λ w. SaysRace w (rows_of (found_of given.now))) }
    ensures bad { IsErrOf result WordFault.Bad → IsManyFiles (rows_of (found_of given.now)) }
    ensures no_help { IsErrOf result WordFault.Help → ⊥ }
{
    let Some(files) = given.get_strs("files") else {
        unreachable!()
    };
    if files.len() > MOST_FILES {
        return Err(WordFault::Bad);
    }
    let files = copies(alloc, files)?;
    Ok(Words::Race { files })
}

fn copies(alloc: Global, texts: &[&str]) -> Result<Vec<String>, AllocError>
    ensures { IfOk result (λ v. map string_bytes v.items ≡ map (λ t. t.now) texts.now) }
{
    let mut all = Vec::with_capacity(alloc, texts.len())?;
    for text in texts {
        all.push(String::from_str(alloc, *text)?)?;
    }
    Ok(all)
}

fn copied(alloc: Global, text: Option<&str>) -> Result<Option<String>, AllocError>
    ensures { IfOk result (λ o. option_map string_bytes o ≡ option_map (λ t. t.now) text.entry) }
{
    match text {
        None => Ok(None),
        Some(text) => Ok(Some(String::from_str(alloc, text)?)),
    }
}
