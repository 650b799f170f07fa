//! Commands with names of one letter, and the lines that spell them.
use std::alloc::{AllocError, Global};
use std::fmt::Write;

/// The names from the root on, one letter each.
pub type Letters = Vec<u8>;

/// What a line asks for.
#[derive(Drop)]
pub enum Wish {
    Mkdir(Letters),
    Create(Letters),
    Rm(Letters),
    Rmdir(Letters),
    Mv(Letters, Letters),
    Ln(Letters, Letters),
    /// So many letters `x` from a place on.
    Write(Letters, u64, u8),
    Read(Letters, u64, u64),
    Trunc(Letters, u64),
    Ls(Letters),
    Stat(Letters),
    Chmod(Letters, u16),
    /// So many letters `x`.
    SetAttr(Letters, u8, u8),
    GetAttr(Letters, u8),
    DelAttr(Letters, u8),
    LsAttr(Letters),
    At(u32),
}

fn put_path(line: &mut String, word: &str, path: &[u8]) -> Result<(), AllocError> {
    line.push_str(word)?;
    if path.is_empty() {
        line.push_str(" /")?;
        return Ok(());
    }
    line.push(' ')?;
    for letter in path {
        line.push('/')?;
        line.push(char::from(*letter))?;
    }
    Ok(())
}

fn put_letters(line: &mut String, count: u8) -> Result<(), AllocError> {
    line.push_str(" =")?;
    for _ in 0..count {
        line.push('x')?;
    }
    Ok(())
}

/// The line that spells a wish.
pub fn line_of(alloc: Global, wish: &Wish) -> Result<String, AllocError> {
    let mut line = String::new(alloc);
    match wish {
        Wish::Mkdir(path) => put_path(&mut line, "mkdir", path)?,
        Wish::Create(path) => put_path(&mut line, "create", path)?,
        Wish::Rm(path) => put_path(&mut line, "rm", path)?,
        Wish::Rmdir(path) => put_path(&mut line, "rmdir", path)?,
        Wish::Mv(from, to) => {
            put_path(&mut line, "mv", from)?;
            put_path(&mut line, "", to)?;
        }
        Wish::Ln(from, to) => {
            put_path(&mut line, "ln", from)?;
            put_path(&mut line, "", to)?;
        }
        Wish::Write(path, from, count) => {
            put_path(&mut line, "write", path)?;
            write!(line, " {from}")?;
            put_letters(&mut line, *count)?;
        }
        Wish::Read(path, from, count) => {
            put_path(&mut line, "read", path)?;
            write!(line, " {from} {count}")?;
        }
        Wish::Trunc(path, size) => {
            put_path(&mut line, "trunc", path)?;
            write!(line, " {size}")?;
        }
        Wish::Ls(path) => put_path(&mut line, "ls", path)?,
        Wish::Stat(path) => put_path(&mut line, "stat", path)?,
        Wish::Chmod(path, mode) => {
            put_path(&mut line, "chmod", path)?;
            write!(line, " {mode:o}")?;
        }
        Wish::SetAttr(path, name, count) => {
            put_path(&mut line, "setattr", path)?;
            line.push(' ')?;
            line.push(char::from(*name))?;
            put_letters(&mut line, *count)?;
        }
        Wish::GetAttr(path, name) => {
            put_path(&mut line, "getattr", path)?;
            line.push(' ')?;
            line.push(char::from(*name))?;
        }
        Wish::DelAttr(path, name) => {
            put_path(&mut line, "delattr", path)?;
            line.push(' ')?;
            line.push(char::from(*name))?;
        }
        Wish::LsAttr(path) => put_path(&mut line, "lsattr", path)?,
        Wish::At(moment) => write!(line, "at {moment}")?,
    }
    Ok(line)
}
