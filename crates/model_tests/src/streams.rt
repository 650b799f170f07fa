//! What a generated stream makes of a fresh plain tree: each eight lines a folder with a file that is written, linked, moved and loses its
//! first name.
use crate::script::answer;
use hfs_model::PlainTree;
use hx_bytes::OutOfMemory;
use std::alloc::Global;
use std::test::Fail;
use stream_gen::line;

const SEED: u64 = 7;

const LINES: u64 = 2_000;

const FOLDERS: u64 = 250;

/// A file of these streams has twelve bytes; a reply tells them behind `ok =`.
const REPLY: usize = 17;

/// How many of the stream's lines have the reply `ok`.
fn count_ok(alloc: Global, tree: &mut PlainTree) -> Result<u64, OutOfMemory> {
    let mut count: u64 = 0;
    for i in 0..LINES {
        let text = line(alloc, SEED, i)?;
        if answer(alloc, tree, text.as_slice())?.as_slice() == b"ok\n".as_slice() {
            count = count.wrapping_add(1);
        }
    }
    Ok(count)
}

/// The number that some digits spell.
fn number_of(digits: &[u8]) -> u64 {
    let mut number: u64 = 0;
    for digit in digits {
        number = number
            .wrapping_mul(10)
            .wrapping_add(u64::from(digit.wrapping_sub(b'0')));
    }
    number
}

/// Whether each folder has one name, of a file of twelve bytes; and the sum of the numbers that the last eight bytes of the files spell.
fn sum_of_files(alloc: Global, tree: &mut PlainTree) -> Result<Option<u64>, OutOfMemory> {
    let mut sum: u64 = 0;
    for folder in 0..FOLDERS {
        let names = format!(in alloc; "ls /d{folder}")?;
        if answer(alloc, tree, names.as_bytes())?.as_slice() != b"ok 1 c\n".as_slice() {
            return Ok(None);
        }
        let bytes = format!(in alloc; "read /d{folder}/c 0 13")?;
        let reply = answer(alloc, tree, bytes.as_bytes())?;
        if reply.len() != REPLY {
            return Ok(None);
        }
        sum = sum.wrapping_add(number_of(&reply[8..16]));
    }
    Ok(Some(sum))
}

#[test]
fn a_stream_leaves_a_file_in_each_folder(rt: HostRuntime) -> Result<(), Fail> {
    let mut tree = PlainTree::new(rt.alloc())?;
    assert_eq!(rt; count_ok(rt.alloc(), &mut tree)?, LINES);
    assert_eq!(rt; sum_of_files(rt.alloc(), &mut tree)?, Some(1_755_250));
    let all = answer(rt.alloc(), &mut tree, b"ls /")?;
    assert!(rt; all.starts_with(b"ok 250 "));
    Ok(())
}
