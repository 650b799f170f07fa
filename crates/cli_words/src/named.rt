// The work that the words of a command line name.
ghost use Rattle.std.specs.Prelude.{◌≡◌, ◌≢◌, ◌<◌, ◌^◌, ◌↔◌, ℕ, IsTrue, MatchOption, codes, decimal, string_bytes};
ghost use Rattle.cli_words.specs.Words.{texts, MayName, AreWordsOf, IsFormatOf, IsGenOf};

use itoa::Buffer;

/// What the words ask for.
#[derive(Clone, Copy, Debug, PartialEq, Eq)]
pub enum Work {
    /// `format IMAGE SECTORS`
    Format { sectors: u64 },
    /// `run IMAGE`
    Run,
    /// `check IMAGE`
    Check,
    /// `gen SEED COUNT`
    Gen { seed: u64, count: u64 },
    /// `repair IMAGE`
    Repair,
    /// `sessions IMAGE`
    Sessions,
    /// Any other words.
    Wrong,
}

/// The work that the words after the program's name ask for. It takes no memory.
pub fn named_work(words: &[String]) -> Work
    ensures { AreWordsOf (texts words.now) result }
{
    match words {
        [verb, image] => {
            if !may_name(image.as_str()) {
                return Work::Wrong;
            }
            if verb.as_str() == "run" {
                return Work::Run;
            }
            if verb.as_str() == "check" {
                return Work::Check;
            }
            if verb.as_str() == "repair" {
                return Work::Repair;
            }
            if verb.as_str() == "sessions" {
                return Work::Sessions;
            }
            Work::Wrong
        }
        [verb, first, second] => {
            if verb.as_str() == "format" {
                return read_format(first.as_str(), second.as_str());
            }
            if verb.as_str() == "gen" {
                return read_gen(first.as_str(), second.as_str());
            }
            Work::Wrong
        }
        _ => Work::Wrong,
    }
}

// Reads the words behind `format`.
fn read_format(image: &str, sectors: &str) -> Work
    ensures { IsFormatOf image.now sectors.now result }
{
    if !may_name(image) {
        return Work::Wrong;
    }
    match read_number(sectors) {
        Some(sectors) => Work::Format { sectors },
        None => Work::Wrong,
    }
}

// Reads the words behind `gen`.
fn read_gen(seed: &str, count: &str) -> Work
    ensures { IsGenOf seed.now count.now result }
{
    let Some(seed) = read_number(seed) else {
        return Work::Wrong;
    };
    let Some(count) = read_number(count) else {
        return Work::Wrong;
    };
    Work::Gen { seed, count }
}

// The number that the word is in decimal, without a sign or a leading zero.
fn read_number(word: &str) -> Option<u64>
    ensures { MatchOption result ((n : ℕ) → n < 2 ^ 64 → word.now ≢ decimal n) (λ n. word.now ≡ decimal n) }
{
    match word.parse::<u64>() {
        Ok(number) => {
            let mut buffer = Buffer::new();
            if buffer.format(number) == word {
                Some(number)
            } else {
                None
            }
        }
        Err(_) => None,
    }
}

// Whether the word may name an image.
fn may_name(word: &str) -> bool
    ensures { IsTrue result ↔ MayName word.now }
{
    !word.is_empty() && !word.starts_with('-') && word != "help"
}
