//! What a call asks for.
use std::alloc::Global;

/// What is to be done.
#[derive(Clone, Copy, Debug, PartialEq, Eq)]
pub(crate) enum Verb {
    Put,
    Get,
    List,
    Cat,
    Stat,
    Salvage,
    Explain,
    Adopt,
    Help,
    Version,
}

/// An option that has a value.
#[derive(Clone, Copy, Debug, PartialEq, Eq)]
pub(crate) enum Valued {
    To,
    Size,
    Date,
}

/// A call, as far as its words say it.
#[derive(Drop)]
pub(crate) struct Call {
    pub(crate) verb: Verb,
    /// The words that are no options, behind the verb.
    pub(crate) plain: Vec<String>,
    pub(crate) to: Option<String>,
    pub(crate) size: Option<String>,
    pub(crate) date: Option<String>,
    pub(crate) over: bool,
    pub(crate) verbose: bool,
    pub(crate) long: bool,
    pub(crate) deep: bool,
    pub(crate) json: bool,
}

impl Call {
    /// A call of a verb alone.
    pub(crate) fn new(alloc: Global, verb: Verb) -> Call {
        Call {
            verb,
            plain: Vec::new(alloc),
            to: None,
            size: None,
            date: None,
            over: false,
            verbose: false,
            long: false,
            deep: false,
            json: false,
        }
    }

    /// Sets an option that has a value.
    pub(crate) fn set(&mut self, option: Valued, value: String) {
        match option {
            Valued::To => self.to = Some(value),
            Valued::Size => self.size = Some(value),
            Valued::Date => self.date = Some(value),
        }
    }

    /// Sets an option that has no value, and says whether the word is one.
    pub(crate) fn set_flag(&mut self, word: &str) -> bool {
        match word {
            "--over" => self.over = true,
            "--json" => self.json = true,
            "--verbose" | "-v" => self.verbose = true,
            "-l" => self.long = true,
            "-R" => self.deep = true,
            "-lR" | "-Rl" => {
                self.long = true;
                self.deep = true;
            }
            _ => return false,
        }
        true
    }

    /// Whether there are fewer words than the verb wants.
    pub(crate) fn has_too_few(&self) -> bool {
        let least = match self.verb {
            Verb::List | Verb::Explain | Verb::Adopt => 1,
            Verb::Put | Verb::Get | Verb::Cat | Verb::Stat | Verb::Salvage => 2,
            Verb::Help | Verb::Version => 0,
        };
        self.plain.len() < least
    }

    /// Whether there are more words than the verb wants.
    pub(crate) fn has_too_many(&self) -> bool {
        match self.verb {
            Verb::Explain | Verb::Adopt => self.plain.len() > 1,
            Verb::Put | Verb::Cat | Verb::Salvage => self.plain.len() > 2,
            Verb::Get => self.plain.len() > 3,
            Verb::List | Verb::Stat | Verb::Help | Verb::Version => false,
        }
    }

    /// An option that is given and that the verb hasn't.
    pub(crate) fn foreign(&self) -> Option<&'static str> {
        match self.verb {
            Verb::Put => self.of_listing(),
            Verb::Get => self.of_putting(),
            Verb::List => self.of_making(),
            _ => self.of_none(),
        }
    }

    // Options that `put` hasn't.
    fn of_listing(&self) -> Option<&'static str> {
        if self.long {
            return Some("-l");
        }
        if self.deep {
            return Some("-R");
        }
        if self.json {
            return Some("--json");
        }
        None
    }

    // Options that `get` hasn't.
    fn of_putting(&self) -> Option<&'static str> {
        if self.to.is_some() {
            return Some("--to");
        }
        if self.size.is_some() {
            return Some("--size");
        }
        if self.date.is_some() {
            return Some("--date");
        }
        self.of_listing()
    }

    // Options that `ls` hasn't.
    fn of_making(&self) -> Option<&'static str> {
        if self.over {
            return Some("--over");
        }
        if self.verbose {
            return Some("--verbose");
        }
        if self.json {
            return Some("--json");
        }
        if self.to.is_some() || self.size.is_some() || self.date.is_some() {
            return self.of_putting();
        }
        None
    }

    // Options that the other verbs haven't.
    fn of_none(&self) -> Option<&'static str> {
        if self.over {
            return Some("--over");
        }
        if self.verbose {
            return Some("--verbose");
        }
        if self.json && self.verb != Verb::Salvage && self.verb != Verb::Explain {
            return Some("--json");
        }
        if self.to.is_some() || self.size.is_some() || self.date.is_some() {
            return self.of_putting();
        }
        if self.long {
            return Some("-l");
        }
        if self.deep {
            return Some("-R");
        }
        None
    }

    /// The image.
    pub(crate) fn image(&self) -> &str {
        self.word(0)
    }

    /// The word at this place; the image's is 0.
    pub(crate) fn word(&self, at: usize) -> &str {
        match self.plain.get(at) {
            Some(word) => word.as_str(),
            None => "",
        }
    }

    /// The last word.
    pub(crate) fn last(&self) -> &str {
        match self.plain.last() {
            Some(word) => word.as_str(),
            None => "",
        }
    }
}
