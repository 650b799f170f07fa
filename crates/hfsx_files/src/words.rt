//! Words are read to a call.
use crate::call::{Call, Valued, Verb};
use std::alloc::{AllocError, Global};

/// The words as far as they were read.
#[derive(Drop)]
struct Reading {
    call: Call,
    verb: Option<Verb>,
    /// The option whose value is the next word.
    wanted: Option<Valued>,
    /// Whether no word is an option any more.
    is_plain: bool,
    /// Help or the version, which are told whatever else is asked for.
    shown: Option<Verb>,
}

/// The call that the words spell, or what is wrong with them.
pub(crate) fn read_call(
    alloc: Global,
    words: Vec<String>,
) -> Result<Result<Call, String>, AllocError> {
    let mut reading = Reading {
        call: Call::new(alloc, Verb::Help),
        verb: None,
        wanted: None,
        is_plain: false,
        shown: None,
    };
    for word in words {
        if let Some(why) = reading.take(alloc, word)? {
            return Ok(Err(why));
        }
    }
    reading.end(alloc)
}

impl Reading {
    // Takes the next word, or says what is wrong with it.
    fn take(&mut self, alloc: Global, word: String) -> Result<Option<String>, AllocError> {
        if let Some(option) = self.wanted {
            self.wanted = None;
            self.call.set(option, word);
            return Ok(None);
        }
        if self.is_plain || !is_option(word.as_str()) {
            return self.take_plain(alloc, word);
        }
        self.take_option(alloc, word.as_str())
    }

    // Takes a word that is no option: the verb, or one behind it.
    fn take_plain(&mut self, alloc: Global, word: String) -> Result<Option<String>, AllocError> {
        if self.verb.is_some() {
            self.call.plain.push(word)?;
            return Ok(None);
        }
        self.verb = verb_of(word.as_str());
        if self.verb.is_some() {
            return Ok(None);
        }
        wrong(alloc, "there is no such verb", word.as_str())
    }

    // Takes an option.
    fn take_option(&mut self, alloc: Global, word: &str) -> Result<Option<String>, AllocError> {
        if word == "--" {
            self.is_plain = true;
            return Ok(None);
        }
        if let Some(verb) = shown(word) {
            self.shown = Some(verb);
            return Ok(None);
        }
        if let Some(option) = valued(word) {
            self.wanted = Some(option);
            return Ok(None);
        }
        if self.call.set_flag(word) || self.take_joined(alloc, word)? {
            return Ok(None);
        }
        wrong(alloc, "there is no such option", word)
    }

    // Takes an option whose value stands behind `=`, and says whether it is one.
    fn take_joined(&mut self, alloc: Global, word: &str) -> Result<bool, AllocError> {
        let Some((name, value)) = word.split_once('=') else {
            return Ok(false);
        };
        match valued(name) {
            Some(option) => {
                self.call.set(option, String::from_str(alloc, value)?);
                Ok(true)
            }
            None => Ok(false),
        }
    }

    // The call, if its verb has these words.
    fn end(self, alloc: Global) -> Result<Result<Call, String>, AllocError> {
        let Reading {
            call,
            verb,
            wanted,
            shown,
            ..
        } = self;
        if let Some(verb) = shown {
            return Ok(Ok(Call::new(alloc, verb)));
        }
        let Some(verb) = verb else {
            return refused(
                alloc,
                "a verb is missing",
                "put, get, ls, cat, stat, salvage, explain or adopt",
            );
        };
        if wanted.is_some() {
            return refused(alloc, "a value is missing", "behind the last option");
        }
        let mut call = call;
        call.verb = verb;
        checked(alloc, call)
    }
}

// A call, if its verb has these words and options.
fn checked(alloc: Global, call: Call) -> Result<Result<Call, String>, AllocError> {
    if call.has_too_few() {
        return refused(
            alloc,
            "words are missing",
            "IMAGE, and what the verb wants behind it",
        );
    }
    if call.has_too_many() {
        return refused(alloc, "there is a word too many", call.last());
    }
    if let Some(option) = call.foreign() {
        return refused(alloc, "this verb has no option", option);
    }
    Ok(Ok(call))
}

fn is_option(word: &str) -> bool {
    word.len() > 1 && word.starts_with('-')
}

// What a word tells that is told whatever else is asked for.
fn shown(word: &str) -> Option<Verb> {
    match word {
        "--help" | "-h" => Some(Verb::Help),
        "--version" => Some(Verb::Version),
        _ => None,
    }
}

fn verb_of(word: &str) -> Option<Verb> {
    match word {
        "put" => Some(Verb::Put),
        "get" => Some(Verb::Get),
        "ls" => Some(Verb::List),
        "cat" => Some(Verb::Cat),
        "stat" => Some(Verb::Stat),
        "salvage" => Some(Verb::Salvage),
        "explain" => Some(Verb::Explain),
        "adopt" => Some(Verb::Adopt),
        "help" => Some(Verb::Help),
        _ => None,
    }
}

fn valued(word: &str) -> Option<Valued> {
    match word {
        "--to" => Some(Valued::To),
        "--size" => Some(Valued::Size),
        "--date" => Some(Valued::Date),
        _ => None,
    }
}

// What is wrong with a word.
fn wrong(alloc: Global, why: &str, word: &str) -> Result<Option<String>, AllocError> {
    Ok(Some(format!(in alloc; "{why}: {word}")?))
}

// What is wrong with a call.
fn refused(alloc: Global, why: &str, word: &str) -> Result<Result<Call, String>, AllocError> {
    Ok(Err(format!(in alloc; "{why}: {word}")?))
}
