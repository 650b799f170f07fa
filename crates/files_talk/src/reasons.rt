//! What refusals mean, for a reader who doesn't know the language of lines.
use std::alloc::{AllocError, Global};

/// The reason that a reply gives: what its refusal means, and the refusal itself.
pub fn reason_of(alloc: Global, reply: &[u8]) -> Result<String, AllocError> {
    let text = String::from_utf8_lossy(alloc, reply)?;
    let refusal = behind_no(text.as_str());
    match meaning_of(first_word(refusal)) {
        Some(meaning) => format!(in alloc; "{meaning} ({refusal})"),
        None => String::from_str(alloc, text.as_str()),
    }
}

// A refusal without the word that says that it is one.
fn behind_no(text: &str) -> &str {
    match text.strip_prefix("no ") {
        Some(refusal) => refusal,
        None => text,
    }
}

fn first_word(text: &str) -> &str {
    match text.split_once(' ') {
        Some((word, _)) => word,
        None => text,
    }
}

// What a refusal means that a put or a get may meet.
fn meaning_of(refusal: &str) -> Option<&'static str> {
    match refusal {
        "NoSpace" => Some("the volume has no room for it"),
        "NoRun" => Some("the volume's free room lies in too many pieces"),
        "NoIds" => Some("the volume has no number left for it"),
        "TooDeep" | "OverflowFull" => Some("the volume's trees can't grow further"),
        "TooBig" => Some("the volume's journal is too small for it"),
        "TooLarge" => Some("a file can't be so large"),
        "AttributeTooLarge" => Some("an attribute has at most 131,072 bytes"),
        "TooLong" => Some("its path is too long"),
        "NameTooLong" => Some("its name has more than 255 UTF-16 units"),
        "Private" => Some("the volume keeps this name for itself"),
        "Exists" => Some("it is there already"),
        "NotFound" => Some("it isn't there"),
        "NotFolder" => Some("a file is in the way"),
        "IsFolder" => Some("a folder is in the way"),
        "TooManyLinks" => Some("the file has too many names"),
        "OutOfMemory" => Some("there is no memory for it"),
        _ => None,
    }
}
