// The words of a command line, read.
ghost use Rattle.std.specs.Prelude.{◌≡◌, IfOk, Ok};
ghost use Rattle.cli_words.specs.Words.{AreWordsOf, texts};

use crate::grammar::take_words;
use crate::{Work, named_work};
use hx_bytes::OutOfMemory;
use std::alloc::Global;

/// Reads the words after the program's name: the work that they name, or `Wrong`. `Wrong` comes whatever memory there is; words that name a
/// work are read by `clap`, too, which takes memory, and an `Err` is its want of that.
pub fn read_words(alloc: Global, words: &[String]) -> Result<Work, OutOfMemory>
    ensures work { IfOk result (AreWordsOf (texts words.now)) }
    ensures wrong { AreWordsOf (texts words.now) Work.Wrong → result ≡ Ok Work.Wrong }
{
    match named_work(words) {
        Work::Wrong => Ok(Work::Wrong),
        work => {
            // Words that name a work fail in `clap` for want of memory alone.
            let Ok(()) = take_words(alloc, words, work) else {
                return Err(OutOfMemory);
            };
            Ok(work)
        }
    }
}
