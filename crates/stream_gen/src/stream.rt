//! One line of the stream.
ghost use Rattle.std.specs.Prelude.{◌≡◌, ◌++◌, codes, IfOk, OnOk};
ghost use Rattle.stream_gen.specs.Stream as spec;

use crate::text::{push, push_folder, push_value};
use hx_bytes::{Bytes, OutOfMemory};
use std::alloc::Global;

/// Line `i` of the stream of a seed, counted from 0, without a newline.
///
/// # Errors
///
/// `OutOfMemory` where there is no memory for the line.
pub fn line(alloc: Global, seed: u64, i: u64) -> Result<Bytes, OutOfMemory>
    ensures { IfOk result (λ line. line ≡ spec.line_of seed i) }
{
    let mut text = Vec::new(alloc);
    push_line(&mut text, seed, i)?;
    Ok(Bytes::from_vec(text))
}

fn push_line(text: &mut Vec<u8>, seed: u64, i: u64) -> Result<(), OutOfMemory>
    ensures { OnOk result (text.new.items ≡ text.old.items ++ spec.line_of seed i) }
{
    match i % 8 {
        0 => push_make(text, i),
        1 => push_create(text, i),
        2 => push_write(text, seed, i),
        3 => push_two(text, i, b"ln", b"/a", b"/b"),
        4 => push_mark(text, seed, i),
        5 => push_two(text, i, b"mv", b"/b", b"/c"),
        6 => push_write_again(text, seed, i),
        _ => push_remove(text, i),
    }
}

fn push_make(text: &mut Vec<u8>, i: u64) -> Result<(), OutOfMemory>
    ensures { OnOk result (text.new.items ≡ text.old.items ++ (codes "mkdir" ++ spec.folder_of i)) }
{
    push(text, b"mkdir")?;
    push_folder(text, i)
}

fn push_create(text: &mut Vec<u8>, i: u64) -> Result<(), OutOfMemory>
    ensures { OnOk result (text.new.items ≡ text.old.items ++ (codes "create" ++ spec.folder_of i ++ codes "/a")) }
{
    push(text, b"create")?;
    push_folder(text, i)?;
    push(text, b"/a")
}

fn push_write(text: &mut Vec<u8>, seed: u64, i: u64) -> Result<(), OutOfMemory>
    ensures { OnOk result (text.new.items ≡ text.old.items ++ (codes "write" ++ spec.folder_of i ++ codes "/a 0 =" ++ spec.value_of seed i)) }
{
    push(text, b"write")?;
    push_folder(text, i)?;
    push(text, b"/a 0 =")?;
    push_value(text, seed, i)
}

/// A command on two names of the folder.
fn push_two(
    text: &mut Vec<u8>,
    i: u64,
    command: &[u8],
    one: &[u8],
    two: &[u8],
) -> Result<(), OutOfMemory>
    ensures { OnOk result (text.new.items ≡ text.old.items ++ (command.now ++ spec.folder_of i ++ one.now ++ spec.folder_of i ++ two.now)) }
{
    push(text, command)?;
    push_folder(text, i)?;
    push(text, one)?;
    push_folder(text, i)?;
    push(text, two)
}

fn push_mark(text: &mut Vec<u8>, seed: u64, i: u64) -> Result<(), OutOfMemory>
    ensures { OnOk result (text.new.items ≡ text.old.items ++ (codes "setattr" ++ spec.folder_of i ++ codes " k =" ++ spec.value_of seed i)) }
{
    push(text, b"setattr")?;
    push_folder(text, i)?;
    push(text, b" k =")?;
    push_value(text, seed, i)
}

fn push_write_again(text: &mut Vec<u8>, seed: u64, i: u64) -> Result<(), OutOfMemory>
    ensures { OnOk result (text.new.items ≡ text.old.items ++ (codes "write" ++ spec.folder_of i ++ codes "/c 4 =" ++ spec.value_of seed i)) }
{
    push(text, b"write")?;
    push_folder(text, i)?;
    push(text, b"/c 4 =")?;
    push_value(text, seed, i)
}

fn push_remove(text: &mut Vec<u8>, i: u64) -> Result<(), OutOfMemory>
    ensures { OnOk result (text.new.items ≡ text.old.items ++ (codes "rm" ++ spec.folder_of i ++ codes "/a")) }
{
    push(text, b"rm")?;
    push_folder(text, i)?;
    push(text, b"/a")
}
