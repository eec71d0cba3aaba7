// Words, read as a command.
ghost use Rattle.std.specs.Prelude.{◌≡◌, IfOk, IsErrOf, OnOk, Some, false, map, option_and_then, string_bytes, true};
ghost use Rattle.clap.specs.Simple.{subcommand_rows_of};
ghost use Rattle.clap.specs.Walk.{rows_of};
ghost use Rattle.clap.specs.Matches.{found_of};
ghost use Rattle.shake_words.specs.Meaning.{accepts, command_met, command_named, command_of, is_set};

use crate::answer::{Command, WordsError};
use crate::program::program;
use clap::ArgMatches;
use clap::error::ErrorKind;
use std::alloc::Global;

// Whether a command's flag was given.
fn is_set(matches: &ArgMatches<'_>, flag: &str) -> bool
    ensures { result ≡ is_set flag.now (rows_of (found_of matches.now)) }
{
    matches.get_one::<bool>(flag).unwrap_or(false)
}

// The command of this name, with the flags that its matches have.
fn command_named(name: &str, matches: &ArgMatches<'_>) -> Option<Command>
    ensures { result ≡ command_named name.now (rows_of (found_of matches.now)) }
{
    match name {
        "dce" => Some(Command::Dce {
            tree_only: is_set(matches, "tree-only"),
        }),
        "run" => Some(Command::Run),
        _ => None,
    }
}

// The command that was met.
fn command_met(matches: &ArgMatches<'_>) -> Option<Command>
    ensures { result ≡ command_met (subcommand_rows_of matches.now) }
{
    let (name, inner) = matches.subcommand()?;
    command_named(name, inner)
}

/// The command that the words ask for; the first word is the program's name. A repeated flag, a
/// value for a flag and words behind `--` aren't accepted.
pub fn parse(alloc: Global, words: &[String]) -> Result<Command, WordsError>
    ensures accepted { OnOk result (accepts (map string_bytes words.now) ≡ true) }
    ensures meaning { IfOk result (λ command. command_of (map string_bytes words.now) ≡ Some command) }
    ensures usage { IsErrOf result WordsError.Usage → accepts (map string_bytes words.now) ≡ false }
{
    let program = program(alloc)?;
    match program.try_get_matches_from(words) {
        Ok(matches) => Ok(command_met(&matches).unwrap()),
        Err(error) => match error.kind() {
            ErrorKind::OutOfMemory => Err(WordsError::OutOfMemory),
            _ => Err(WordsError::Usage),
        },
    }
}
