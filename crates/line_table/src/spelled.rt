//! A command is written as a line, by hand.
use hfs_language::{Command, Path};
use hx_bytes::{Bytes, OutOfMemory, Units};
use name_text::print_component;
use std::alloc::Global;

/// The line of a command.
pub(crate) fn line_of(alloc: Global, command: &Command) -> Result<String, OutOfMemory> {
    let mut line = String::new(alloc);
    line.push_str(verb(command))?;
    match command {
        Command::Mkdir(path)
        | Command::Create(path)
        | Command::Rm(path)
        | Command::Rmdir(path)
        | Command::Ls(path)
        | Command::Stat(path)
        | Command::LsAttr(path) => push_path(alloc, &mut line, path)?,
        Command::Mv(from, to) | Command::Ln(from, to) => {
            push_path(alloc, &mut line, from)?;
            push_path(alloc, &mut line, to)?;
        }
        Command::Write { path, from, value } => {
            push_path(alloc, &mut line, path)?;
            push_number(alloc, &mut line, *from)?;
            push_value(&mut line, value)?;
        }
        Command::Read { path, from, length } => {
            push_path(alloc, &mut line, path)?;
            push_number(alloc, &mut line, *from)?;
            push_number(alloc, &mut line, *length)?;
        }
        Command::Trunc { path, size } => {
            push_path(alloc, &mut line, path)?;
            push_number(alloc, &mut line, *size)?;
        }
        Command::Chmod { path, mode } => {
            push_path(alloc, &mut line, path)?;
            push_mode(&mut line, *mode)?;
        }
        Command::SetAttr { path, name, value } => {
            push_path(alloc, &mut line, path)?;
            push_name(alloc, &mut line, name)?;
            push_value(&mut line, value)?;
        }
        Command::GetAttr { path, name } | Command::DelAttr { path, name } => {
            push_path(alloc, &mut line, path)?;
            push_name(alloc, &mut line, name)?;
        }
        Command::At(moment) => push_number(alloc, &mut line, u64::from(*moment))?,
        Command::Df | Command::Sync => {}
    }
    Ok(line)
}

fn verb(command: &Command) -> &'static str {
    match command {
        Command::Mkdir(_) => "mkdir",
        Command::Create(_) => "create",
        Command::Rm(_) => "rm",
        Command::Rmdir(_) => "rmdir",
        Command::Mv(_, _) => "mv",
        Command::Ln(_, _) => "ln",
        Command::Write { .. } => "write",
        Command::Read { .. } => "read",
        Command::Trunc { .. } => "trunc",
        Command::Ls(_) => "ls",
        Command::Stat(_) => "stat",
        Command::Chmod { .. } => "chmod",
        Command::SetAttr { .. } => "setattr",
        Command::GetAttr { .. } => "getattr",
        Command::DelAttr { .. } => "delattr",
        Command::LsAttr(_) => "lsattr",
        Command::At(_) => "at",
        Command::Df => "df",
        Command::Sync => "sync",
    }
}

fn push_path(alloc: Global, line: &mut String, path: &Path) -> Result<(), OutOfMemory> {
    line.push(' ')?;
    if path.is_empty() {
        line.push('/')?;
    }
    for name in path.as_slice() {
        line.push('/')?;
        line.push_str(print_component(alloc, name)?.as_str())?;
    }
    Ok(())
}

fn push_name(alloc: Global, line: &mut String, name: &Units) -> Result<(), OutOfMemory> {
    line.push(' ')?;
    line.push_str(print_component(alloc, name)?.as_str())?;
    Ok(())
}

fn push_number(alloc: Global, line: &mut String, number: u64) -> Result<(), OutOfMemory> {
    line.push(' ')?;
    line.push_str(number.to_string(alloc)?.as_str())?;
    Ok(())
}

fn push_mode(line: &mut String, mode: u16) -> Result<(), OutOfMemory> {
    line.push(' ')?;
    push_digit(line, mode / 512 % 8)?;
    push_digit(line, mode / 64 % 8)?;
    push_digit(line, mode / 8 % 8)?;
    push_digit(line, mode % 8)
}

fn push_value(line: &mut String, value: &Bytes) -> Result<(), OutOfMemory> {
    line.push_str(" =")?;
    for byte in value.as_slice() {
        if matches!(*byte, 0x21..=0x24 | 0x26..=0x7E) {
            line.push(char::from(*byte))?;
        } else {
            line.push('%')?;
            push_digit(line, u16::from(*byte / 16))?;
            push_digit(line, u16::from(*byte % 16))?;
        }
    }
    Ok(())
}

fn push_digit(line: &mut String, digit: u16) -> Result<(), OutOfMemory> {
    let index = usize::from(digit % 16);
    line.push(char::from(b"0123456789ABCDEF"[index]))?;
    Ok(())
}
