//! The lines of a check, read.

/// A rule that is broken at a place: the value found there, and the one wanted.
#[derive(Clone, Copy)]
pub(crate) struct Finding {
    pub(crate) rule: u8,
    pub(crate) place: u64,
    pub(crate) found: u64,
    pub(crate) wanted: u64,
}

/// A line of a check.
#[derive(Clone, Copy)]
pub(crate) enum Line<'a> {
    /// The volume is sound, and has so much.
    Clean {
        files: u64,
        folders: u64,
        blocks: u64,
        free: u64,
    },
    Finding(Finding),
    /// How many findings there are.
    Findings(u64),
    /// Why the image isn't judged: a word, and up to two numbers.
    Refused {
        word: &'a str,
        first: u64,
        second: u64,
    },
    Other,
}

fn number(word: Option<&str>) -> Option<u64> {
    word?.parse().ok()
}

/// What a line says.
pub(crate) fn read_line(line: &str) -> Line<'_> {
    let mut words = line.split(' ');
    let Some(first) = words.next() else {
        return Line::Other;
    };
    if first == "refused" {
        return Line::Refused {
            word: words.next().unwrap_or(""),
            first: number(words.next()).unwrap_or(0),
            second: number(words.next()).unwrap_or(0),
        };
    }
    if first == "findings" {
        return match number(words.next()) {
            Some(count) => Line::Findings(count),
            None => Line::Other,
        };
    }
    let found = if first == "clean" {
        read_clean(line)
    } else {
        read_finding(line)
    };
    match found {
        Some(line) => line,
        None => Line::Other,
    }
}

// `clean files A folders B blocks C free D`
fn read_clean(line: &str) -> Option<Line<'_>> {
    let mut words = line.split(' ');
    let _clean = words.next()?;
    let _files = words.next()?;
    let files = number(words.next())?;
    let _folders = words.next()?;
    let folders = number(words.next())?;
    let _blocks = words.next()?;
    let blocks = number(words.next())?;
    let _free = words.next()?;
    let free = number(words.next())?;
    Some(Line::Clean {
        files,
        folders,
        blocks,
        free,
    })
}

// `S13 2000 1 0`
fn read_finding(line: &str) -> Option<Line<'_>> {
    let mut words = line.split(' ');
    let rule = words.next()?.strip_prefix('S')?.parse().ok()?;
    let place = number(words.next())?;
    let found = number(words.next())?;
    let wanted = number(words.next())?;
    Some(Line::Finding(Finding {
        rule,
        place,
        found,
        wanted,
    }))
}
