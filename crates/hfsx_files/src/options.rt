//! What the options of `put` say.
use crate::call::Call;
use files_in::Dates;
use files_out::path_word;
use files_talk::NameLack;
use std::alloc::{AllocError, Global};
use std::env::{self, VarError};

/// The size of an image that is made.
#[derive(Clone, Copy, Debug, PartialEq, Eq)]
pub(crate) enum Size {
    /// What the folder needs.
    Auto,
    /// So many sectors.
    Sectors(u64),
}

/// What the options of `put` say.
#[derive(Drop)]
pub(crate) struct Options {
    /// The path of the folder to which files go, as lines spell it.
    pub(crate) to: String,
    /// The size of the image, where it is to be made.
    pub(crate) size: Option<Size>,
    pub(crate) dates: Dates,
}

/// What the options of a call say, or what is wrong with them.
pub(crate) fn read_options(
    rt: &HostRuntime,
    call: &Call,
) -> Result<Result<Options, String>, AllocError> {
    let alloc = rt.alloc();
    let to = match &call.to {
        Some(path) => match path_word(alloc, path.as_str())? {
            Ok(word) => word,
            Err(lack) => {
                let why = lack_of(alloc, path.as_str(), lack)?;
                return Ok(Err(format!(in alloc; "--to {path}: {}", why.as_str())?));
            }
        },
        None => String::new(alloc),
    };
    let size = match &call.size {
        Some(word) => match size_of(word.as_str()) {
            Some(size) => Some(size),
            None => return Ok(Err(format!(in alloc;
                "--size wants auto or a number of sectors, and not {word}"
            )?)),
        },
        None => None,
    };
    if size == Some(Size::Auto) && call.word(1) == "-" {
        return Ok(Err(String::from_str(
            alloc,
            "--size auto wants a folder: of an archive the size isn't known beforehand",
        )?));
    }
    let dates = match dates_of(rt, call)? {
        Ok(dates) => dates,
        Err(why) => return Ok(Err(why)),
    };
    Ok(Ok(Options { to, size, dates }))
}

/// Why a word is no path in a volume.
pub(crate) fn lack_of(alloc: Global, path: &str, lack: NameLack) -> Result<String, AllocError> {
    if path.starts_with('/') {
        return format!(in alloc; "{lack}");
    }
    String::from_str(alloc, "a path in the volume begins with /")
}

fn size_of(word: &str) -> Option<Size> {
    if word == "auto" {
        return Some(Size::Auto);
    }
    match word.parse() {
        Ok(sectors) => Some(Size::Sectors(sectors)),
        Err(_) => None,
    }
}

// How dates are made.
fn dates_of(rt: &HostRuntime, call: &Call) -> Result<Result<Dates, String>, AllocError> {
    let alloc = rt.alloc();
    if let Some(word) = &call.date {
        if word.as_str() != "keep" {
            return match word.as_str().parse() {
                Ok(moment) => Ok(Ok(Dates::One(moment))),
                Err(_) => Ok(Err(format!(in alloc;
                    "--date wants keep or seconds since 1970, and not {word}"
                )?)),
            };
        }
    }
    match env::var(rt, "SOURCE_DATE_EPOCH") {
        Ok(text) => match text.as_str().parse() {
            Ok(most) => Ok(Ok(Dates::Keep { most })),
            Err(_) => Ok(Err(format!(in alloc;
                "SOURCE_DATE_EPOCH wants seconds since 1970, and not {text}"
            )?)),
        },
        Err(_) => Ok(Ok(Dates::Keep { most: i64::MAX })),
    }
}
