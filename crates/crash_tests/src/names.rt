//! A file gets a second name and loses it: power fails after each write and each barrier of that run.
use crate::crashes::try_from;
use crate::few::fresh_few;
use crate::stops::Tried;
use hx_bytes::OutOfMemory;
use std::alloc::Global;
use std::test::Fail;

/// A folder, a file in it with a byte, and a second name of the file, which goes again.
pub const LINES: &[u8] = b"mkdir /a\ncreate /a/f\nwrite /a/f 0 =x\nln /a/f /g\nrm /g\n";

/// What is read back behind it.
pub const READS: &[u8] =
    b"ls /\nstat /\nls /a\nstat /a\nstat /a/f\nread /a/f 0 9\nstat /g\nread /g 0 9\n";

/// All crashes of that run on a new volume.
fn try_names(alloc: Global, choice: u64) -> Result<Tried, OutOfMemory> {
    try_from(alloc, &fresh_few(alloc)?, LINES, READS, choice)
}

#[test]
fn a_second_name_leaves_a_prefix_0(rt: HostRuntime) -> Result<(), Fail> {
    let tried = try_names(rt.alloc(), 0)?;
    assert_eq!(rt; tried.wrong, None);
    assert!(rt; 50 < tried.crashes);
    Ok(())
}

#[test]
fn a_second_name_leaves_a_prefix_1(rt: HostRuntime) -> Result<(), Fail> {
    let tried = try_names(rt.alloc(), 1)?;
    assert_eq!(rt; tried.wrong, None);
    assert!(rt; 50 < tried.crashes);
    Ok(())
}

#[test]
fn a_second_name_leaves_a_prefix_2(rt: HostRuntime) -> Result<(), Fail> {
    let tried = try_names(rt.alloc(), 2)?;
    assert_eq!(rt; tried.wrong, None);
    assert!(rt; 50 < tried.crashes);
    Ok(())
}

#[test]
fn a_second_name_leaves_a_prefix_3(rt: HostRuntime) -> Result<(), Fail> {
    let tried = try_names(rt.alloc(), 3)?;
    assert_eq!(rt; tried.wrong, None);
    assert!(rt; 50 < tried.crashes);
    Ok(())
}

#[test]
fn a_second_name_leaves_a_prefix_4(rt: HostRuntime) -> Result<(), Fail> {
    let tried = try_names(rt.alloc(), 4)?;
    assert_eq!(rt; tried.wrong, None);
    assert!(rt; 50 < tried.crashes);
    Ok(())
}

#[test]
fn a_second_name_leaves_a_prefix_5(rt: HostRuntime) -> Result<(), Fail> {
    let tried = try_names(rt.alloc(), 5)?;
    assert_eq!(rt; tried.wrong, None);
    assert!(rt; 50 < tried.crashes);
    Ok(())
}

#[test]
fn a_second_name_leaves_a_prefix_6(rt: HostRuntime) -> Result<(), Fail> {
    let tried = try_names(rt.alloc(), 6)?;
    assert_eq!(rt; tried.wrong, None);
    assert!(rt; 50 < tried.crashes);
    Ok(())
}

#[test]
fn a_second_name_leaves_a_prefix_7(rt: HostRuntime) -> Result<(), Fail> {
    let tried = try_names(rt.alloc(), 7)?;
    assert_eq!(rt; tried.wrong, None);
    assert!(rt; 50 < tried.crashes);
    Ok(())
}
