//! The words of a command line.
ghost use Rattle.std.specs.Prelude.{
  ◌≡◌,
  None,
  drop,
  false,
  map,
  option_map,
  string_bytes,
  IfOk,
};
ghost use Rattle.command_line.specs.AskedFor.{asked_for};
ghost use Rattle.command_line.specs.Rows.{Parses};
ghost use Rattle.command_line.specs.WordByWord.{asked_from};
ghost use Rattle.history_machine.specs.Words.{asked};

use clap::error::ErrorKind;
use clap::{Arg, ArgAction, ArgMatches, Command, Error};
use plain_model::NoMemory;
use std::alloc::Global;

/// What a command line asks for.
#[derive(Clone, Copy)]
pub struct Asked<'a> {
    /// The run goes on after refusals.
    pub keep_going: bool,
    pub script: &'a str,
}

// What `clap` finds in the words: help and version are switched off, so that they are options like any other that isn't there.
fn parsed<'a>(alloc: Global, words: &'a [String]) -> Result<ArgMatches<'a>, Error>
    ensures { Parses (asked_from (drop 1 (map string_bytes words.entry.now)) false false None) result }
{
    let flag = Arg::new(alloc, "keep-going")
        .long("keep-going")
        .action(ArgAction::SetTrue);
    let script = Arg::new(alloc, "script")
        .required(true)
        .action(ArgAction::Set);
    let command = Command::new(alloc, "surgeon")
        .disable_help_flag(true)
        .disable_version_flag(true)
        .arg(flag)?
        .arg(script)?;
    command.try_get_matches_from(words)
}

/// What a command line asks for, if its words are right. The first word is the program's name.
pub fn asked_in<'a>(alloc: Global, words: &'a [String]) -> Result<Option<Asked<'a>>, NoMemory>
    ensures { IfOk result
        (λ found. option_map asked_for found ≡ asked (map string_bytes words.entry.now)) }
{
    match parsed(alloc, words) {
        Ok(matches) => match matches.get_str("script") {
            Some(script) => Ok(Some(Asked {
                keep_going: matches.get_flag("keep-going"),
                script,
            })),
            None => Ok(None),
        },
        Err(error) => {
            if error.kind() == ErrorKind::OutOfMemory {
                Err(NoMemory)
            } else {
                Ok(None)
            }
        }
    }
}
