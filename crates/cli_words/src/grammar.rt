// The words that the program takes, as `clap` reads them.
ghost use Rattle.std.specs.Prelude.{◌≡◌, ◌≢◌, IfErr, IfOk, false};
ghost use Rattle.clap.specs.Words.{app_of, kind_of};
ghost use Rattle.clap.specs.declared.builder.command.Command.TheViews.{out-Command};
ghost use Rattle.cli_words.specs.Grammar.{grammar, with_one, with_two};
ghost use Rattle.cli_words.specs.Words.{AreWordsOf, texts};

use crate::Work;
use clap::error::ErrorKind;
use clap::{Arg, Command, Error};
use std::alloc::{AllocError, Global};

// Asks `clap` whether it takes the words, which name a work: it fails for want of memory alone.
pub(crate) fn take_words(alloc: Global, words: &[String], work: Work) -> Result<(), Error>
    requires named { AreWordsOf (texts words.now) work }
    requires one { work ≢ Work.Wrong }
    ensures { IfErr result (λ e. kind_of e ≡ ErrorKind.OutOfMemory) }
{
    let command = grammar(alloc)?;
    command.try_get_matches_from(words)?;
    Ok(())
}

// The program with its six commands, of which each word line has one.
fn grammar<'a>(alloc: Global) -> Result<Command<'a>, AllocError>
    ensures { IfOk result (λ command. app_of command ≡ grammar) }
{
    Command::new(alloc, "hfsx")
        .no_binary_name(true)
        .subcommand_required(true)
        .subcommand(with_two(alloc, "format", "IMAGE", "SECTORS")?)?
        .subcommand(with_one(alloc, "run", "IMAGE")?)?
        .subcommand(with_one(alloc, "check", "IMAGE")?)?
        .subcommand(with_two(alloc, "gen", "SEED", "COUNT")?)?
        .subcommand(with_one(alloc, "repair", "IMAGE")?)?
        .subcommand(with_one(alloc, "sessions", "IMAGE")?)
}

// A command with one value.
fn with_one<'a>(alloc: Global, name: &'a str, first: &'a str) -> Result<Command<'a>, AllocError>
    ensures app { IfOk result (λ command. app_of command ≡ with_one name.entry.now first.entry.now) }
    ensures local { IfOk result (λ command. (out-Command command).has_globals ≡ false) }
{
    Command::new(alloc, name).arg(Arg::new(alloc, first).required(true))
}

// A command with two values.
fn with_two<'a>(
    alloc: Global,
    name: &'a str,
    first: &'a str,
    second: &'a str,
) -> Result<Command<'a>, AllocError>
    ensures app { IfOk result (λ command. app_of command ≡ with_two name.entry.now first.entry.now second.entry.now) }
    ensures local { IfOk result (λ command. (out-Command command).has_globals ≡ false) }
{
    with_one(alloc, name, first)?.arg(Arg::new(alloc, second).required(true))
}
