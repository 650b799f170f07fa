//! Values of one kind are read and spelled again and again.
use cmd_lang::{push_value, read_line};
use hfs_language::Command;
use hx_bytes::OutOfMemory;
use std::alloc::{AllocError, Global};

/// The bytes of a value that are read from a line, over all rounds.
pub(crate) fn read_bytes(
    alloc: Global,
    kind: &str,
    bytes: u64,
    rounds: u64,
) -> Result<u64, AllocError> {
    let value = value_of(alloc, kind, bytes)?;
    let mut line = Vec::from_slice(alloc, b"write /file 0 ")?;
    spell(&mut line, value.as_slice())?;
    let mut taken: u64 = 0;
    for _ in 0..rounds {
        if let Ok(Command::Write { value, .. }) = read_line(alloc, &line) {
            taken = taken.wrapping_add(value.len() as u64);
        }
    }
    Ok(taken)
}

/// The bytes of a value that are spelled, over all rounds.
pub(crate) fn spell_bytes(
    alloc: Global,
    kind: &str,
    bytes: u64,
    rounds: u64,
) -> Result<u64, AllocError> {
    let value = value_of(alloc, kind, bytes)?;
    let mut line = Vec::new(alloc);
    let mut taken: u64 = 0;
    for _ in 0..rounds {
        line.clear();
        spell(&mut line, value.as_slice())?;
        taken = taken.wrapping_add(value.len() as u64);
    }
    Ok(taken)
}

fn spell(line: &mut Vec<u8>, value: &[u8]) -> Result<(), AllocError> {
    match push_value(line, value) {
        Ok(()) => Ok(()),
        Err(OutOfMemory) => Err(AllocError),
    }
}

/// So many bytes: of those that stand for themselves, with a space in eight places, or any.
fn value_of(alloc: Global, kind: &str, bytes: u64) -> Result<Vec<u8>, AllocError> {
    let mut value = Vec::new(alloc);
    let mut state: u64 = 88_172_645_463_325_252;
    for _ in 0..bytes {
        state = next(state);
        let drawn = state / 65_536;
        value.push(match kind {
            "plain" => b'x',
            "text" => if drawn % 8 == 0 { b' ' } else { b'e' },
            _ => (drawn % 256) as u8,
        })?;
    }
    Ok(value)
}

/// The next of a row of numbers, each by shifts and exclusive ors of the one before.
fn next(state: u64) -> u64 {
    let state = state ^ (state << 13);
    let state = state ^ (state >> 7);
    state ^ (state << 17)
}
