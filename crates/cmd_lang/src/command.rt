//! The words of a line are read to a command, by their number.
ghost use Rattle.std.specs.Prelude.{◌≡◌, map};
ghost use Rattle.hfs_language.specs.Language as spec;
ghost use Rattle.cmd_lang.specs.Reads.{Reads};

use crate::LineFault;
use crate::pairs::{
    path_and_attribute, path_and_mode, path_and_size, path_attribute_value, path_offset_length,
    path_offset_value, two_paths,
};
use crate::path::read_path;
use crate::words::{BAD_COMMAND, read_small_number};
use hfs_language::Command;
use std::alloc::Global;

/// The command that words spell.
pub(crate) fn read_command(alloc: Global, words: &[&str]) -> Result<Command, LineFault>
    ensures { Reads (spec.words_command (map (λ word. word.now) words.now)) result }
{
    match words {
        [verb] => one_word(verb),
        [verb, word] => two_words(alloc, verb, word),
        [verb, one, two] => three_words(alloc, verb, one, two),
        [verb, one, two, three] => four_words(alloc, verb, one, two, three),
        _ => Err(BAD_COMMAND),
    }
}

fn one_word(verb: &str) -> Result<Command, LineFault>
    ensures { Reads (spec.one_word verb.now) result }
{
    match verb {
        "df" => Ok(Command::Df),
        "sync" => Ok(Command::Sync),
        _ => Err(BAD_COMMAND),
    }
}

fn two_words(alloc: Global, verb: &str, word: &str) -> Result<Command, LineFault>
    ensures { Reads (spec.two_words verb.now word.now) result }
{
    match verb {
        "mkdir" => Ok(Command::Mkdir(read_path(alloc, word)?)),
        "create" => Ok(Command::Create(read_path(alloc, word)?)),
        "rm" => Ok(Command::Rm(read_path(alloc, word)?)),
        "rmdir" => Ok(Command::Rmdir(read_path(alloc, word)?)),
        "ls" => Ok(Command::Ls(read_path(alloc, word)?)),
        "stat" => Ok(Command::Stat(read_path(alloc, word)?)),
        "lsattr" => Ok(Command::LsAttr(read_path(alloc, word)?)),
        "at" => Ok(Command::At(read_small_number(word)?)),
        _ => Err(BAD_COMMAND),
    }
}

fn three_words(alloc: Global, verb: &str, one: &str, two: &str) -> Result<Command, LineFault>
    ensures { Reads (spec.three_words verb.now one.now two.now) result }
{
    match verb {
        "mv" => {
            let (from, to) = two_paths(alloc, one, two)?;
            Ok(Command::Mv(from, to))
        }
        "ln" => {
            let (from, to) = two_paths(alloc, one, two)?;
            Ok(Command::Ln(from, to))
        }
        "trunc" => {
            let (path, size) = path_and_size(alloc, one, two)?;
            Ok(Command::Trunc { path, size })
        }
        "chmod" => {
            let (path, mode) = path_and_mode(alloc, one, two)?;
            Ok(Command::Chmod { path, mode })
        }
        "getattr" => {
            let (path, name) = path_and_attribute(alloc, one, two)?;
            Ok(Command::GetAttr { path, name })
        }
        "delattr" => {
            let (path, name) = path_and_attribute(alloc, one, two)?;
            Ok(Command::DelAttr { path, name })
        }
        _ => Err(BAD_COMMAND),
    }
}

fn four_words(
    alloc: Global,
    verb: &str,
    one: &str,
    two: &str,
    three: &str,
) -> Result<Command, LineFault>
    ensures { Reads (spec.four_words verb.now one.now two.now three.now) result }
{
    match verb {
        "write" => {
            let (path, (from, value)) = path_offset_value(alloc, one, two, three)?;
            Ok(Command::Write { path, from, value })
        }
        "read" => {
            let (path, (from, length)) = path_offset_length(alloc, one, two, three)?;
            Ok(Command::Read { path, from, length })
        }
        "setattr" => {
            let (path, (name, value)) = path_attribute_value(alloc, one, two, three)?;
            Ok(Command::SetAttr { path, name, value })
        }
        _ => Err(BAD_COMMAND),
    }
}
