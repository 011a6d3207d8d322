ghost use Rattle.std.specs.Prelude.{◌≡◌, IfOk, IfErr, IfSome, is_some, option_map, true};
ghost use Rattle.clap.specs.Words.{kind_of, subcommand_rows_of};
ghost use Rattle.tool_words.specs.Words.{word_bytes, HasBounds, asked, asked_by};
ghost use Rattle.tool_words.specs.Program.{asked_in};

use crate::Command;
use crate::lawful::is_lawful;
use crate::matches::asked;
use crate::program::program;
use base_core::Memory;
use clap::error::ErrorKind;
use clap::{ArgMatches, Error};
use std::alloc::Global;

// The matches of words that ask for something. A parse of them fails only when memory runs out.
fn parsed<'a>(alloc: Global, words: &'a [String]) -> Result<ArgMatches<'a>, Error>
    requires { is_some (asked_by (word_bytes words.now)) ≡ true }
    ensures values { IfOk result (λ m.
        asked_in (subcommand_rows_of m) ≡ asked_by (word_bytes words.entry.now)) }
    ensures memory { IfErr result (λ e. kind_of e ≡ ErrorKind.OutOfMemory) }
{
    let program = program(alloc)?;
    program.try_get_matches_from(words)
}

/// What the words ask for, with the numbers in their ranges. None exactly where they are no command with just its further
/// words, each with a first byte that is no `-`, the file to write another than those that are named beside it, and a file of
/// Lustre another than its trace.
///
/// # Errors
/// Words that ask for something are parsed, for which memory may run out.
pub fn command<'a>(alloc: Global, words: &'a [String]) -> Result<Option<Command<'a>>, Memory>
    ensures values { IfOk result (λ command.
        option_map asked command ≡ asked_by (word_bytes words.entry.now)) }
    ensures bounds { IfOk result (λ command. IfSome command HasBounds) }
    ensures memory { IfErr result (λ _. is_some (asked_by (word_bytes words.entry.now)) ≡ true) }
{
    if !is_lawful(words) {
        return Ok(None);
    }
    match parsed(alloc, words) {
        Ok(matches) => Ok(asked(&matches)),
        Err(_) => Err(Memory),
    }
}
