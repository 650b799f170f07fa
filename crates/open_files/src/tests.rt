//! Lines of sessions, and the table of handles.
use crate::{
    Act, Closed, Opened, SessionReply, Table, is_keeping_path, is_own_keeper, kept_path,
    names_keeping, print_session_reply, read_session, release, saves, session_of,
};
use cmd_lang::LineFault;
use hfs_language::{Command, Path, Refusal};
use hx_bytes::{OutOfMemory, Units};
use std::alloc::Global;

// What a line is read to: its session and a word for what it asks for, or the name of its refusal.
fn told(alloc: Global, line: &[u8]) -> (u8, &'static str) {
    match read_session(alloc, line) {
        Ok(line) => (line.session, word(&line.act)),
        Err(LineFault::No(Refusal::TooLong)) => (0, "TooLong"),
        Err(LineFault::No(Refusal::BadCommand)) => (0, "BadCommand"),
        Err(LineFault::No(Refusal::BadName)) => (0, "BadName"),
        Err(LineFault::No(Refusal::NameTooLong)) => (0, "NameTooLong"),
        Err(_) => (0, "else"),
    }
}

fn word(act: &Act) -> &'static str {
    match act {
        Act::Plain(Command::Rm(_)) => "rm",
        Act::Plain(_) => "plain",
        Act::Open(_) => "open",
        Act::HandleRead {
            handle: 4294967295,
            from: 0,
            length: 9,
        } => "the last handle is read",
        Act::HandleRead { .. } => "hread",
        Act::Close(_) => "close",
        Act::End => "end",
    }
}

/// Lines, and what they are read to.
const LINES: [(&[u8], u8, &str); 22] = [
    (b"1 rm /f", 1, "rm"),
    (b"64 open /f", 64, "open"),
    (b"10 close 1", 10, "close"),
    (b"2 end", 2, "end"),
    (b"2 hread 1 0 9", 2, "hread"),
    (b"2 hread 4294967295 0 9", 2, "the last handle is read"),
    // no session's number, or not in its one spelling
    (b"0 end", 0, "BadCommand"),
    (b"65 end", 0, "BadCommand"),
    (b"01 end", 0, "BadCommand"),
    (b"+1 end", 0, "BadCommand"),
    (b" 1 end", 0, "BadCommand"),
    (b"1", 0, "BadCommand"),
    (b"end", 0, "BadCommand"),
    (b"", 0, "BadCommand"),
    // two spaces
    (b"1  end", 0, "BadCommand"),
    (b"1 close 4294967296", 0, "BadCommand"),
    (b"1 close 01", 0, "BadCommand"),
    (b"1 end 1", 0, "BadCommand"),
    (b"1 open", 0, "BadCommand"),
    (b"1 open f", 0, "BadCommand"),
    (b"1 open /%zz", 0, "BadName"),
    (b"1 end\xFF", 0, "BadCommand"),
];

#[test]
fn lines_are_read(rt: HostRuntime) {
    for (line, session, word) in LINES {
        assert_eq!(rt; told(rt.alloc(), line), (session, word));
    }
}

#[test]
fn the_part_stands_behind_one_space(rt: HostRuntime) {
    assert!(rt; session_of(b"12 end") == Some((12, b"end".as_slice())));
    assert!(rt; session_of(b"3 ") == Some((3, b"".as_slice())));
    assert!(rt; session_of(b"3") == None);
    assert!(rt; session_of(b"3\tend") == None);
}

#[test]
fn a_file_is_gone_with_its_last_handle(rt: HostRuntime) -> Result<(), OutOfMemory> {
    let mut table = Table::new(rt.alloc());
    assert_eq!(rt; table.open_file(2, 18)?, Opened::Handle(1));
    assert_eq!(rt; table.open_file(2, 18)?, Opened::Handle(2));
    assert_eq!(rt; table.open_file(1, 19)?, Opened::Handle(1));
    assert_eq!(rt; table.close(2, 1), Closed::Still);
    assert_eq!(rt; table.close(2, 1), Closed::NoHandle);
    assert_eq!(rt; table.open_file(2, 19)?, Opened::Handle(1));
    assert_eq!(rt; table.file(2, 1), Some(19));
    assert_eq!(rt; table.file(1, 2), None);
    assert_eq!(rt; table.close(2, 2), Closed::Gone(18));
    assert!(rt; !table.held(18));
    assert_eq!(rt; table.first(2), Some(1));
    assert_eq!(rt; table.first(3), None);
    Ok(())
}

#[test]
fn the_first_handle_is_the_least(rt: HostRuntime) -> Result<(), OutOfMemory> {
    let mut table = Table::new(rt.alloc());
    table.open_file(5, 18)?;
    table.open_file(5, 19)?;
    table.open_file(4, 20)?;
    table.close(5, 1);
    assert_eq!(rt; table.first(5), Some(2));
    table.open_file(5, 21)?;
    assert_eq!(rt; table.first(5), Some(1));
    assert_eq!(rt; table.file(5, 1), Some(21));
    Ok(())
}

#[test]
fn a_session_has_at_most_256_files_open(rt: HostRuntime) -> Result<(), OutOfMemory> {
    let mut table = Table::new(rt.alloc());
    for _ in 0..256 {
        table.open_file(7, 18)?;
    }
    assert_eq!(rt; table.open_file(7, 18)?, Opened::TooManyOpen);
    assert_eq!(rt; table.open_file(8, 18)?, Opened::Handle(1));
    assert_eq!(rt; table.close(7, 200), Closed::Still);
    assert_eq!(rt; table.open_file(7, 18)?, Opened::Handle(200));
    Ok(())
}

#[test]
fn a_file_is_saved_under_its_id(rt: HostRuntime) -> Result<(), OutOfMemory> {
    let alloc = rt.alloc();
    let name = Units::from_vec(Vec::from_slice(alloc, &[97])?);
    let mut path = Path::new(alloc);
    path.push(name)?;
    assert_eq!(rt; saves(alloc, false, false, &path, 18)?.len(), 2);
    assert_eq!(rt; saves(alloc, true, false, &path, 18)?.len(), 1);
    assert_eq!(rt; saves(alloc, true, true, &path, 18)?.len(), 0);
    let kept = kept_path(alloc, 18)?;
    assert_eq!(rt; kept.len(), 2);
    assert!(rt; is_keeping_path(&kept));
    assert!(rt; !is_keeping_path(&path));
    assert!(rt; names_keeping(&release(alloc, 18)?));
    assert!(rt; !names_keeping(&Command::Rm(path)));
    Ok(())
}

#[test]
fn the_folder_keeps_files_under_their_ids(rt: HostRuntime) -> Result<(), OutOfMemory> {
    let alloc = rt.alloc();
    let name = Units::from_vec(Vec::from_slice(alloc, &[49, 56])?);
    assert!(rt; is_own_keeper(alloc, false, &name, 18)?);
    assert!(rt; !is_own_keeper(alloc, true, &name, 18)?);
    assert!(rt; !is_own_keeper(alloc, false, &name, 19)?);
    Ok(())
}

#[test]
fn replies_are_printed(rt: HostRuntime) -> Result<(), OutOfMemory> {
    let opened = print_session_reply(rt.alloc(), &SessionReply::Opened(1))?;
    assert_eq!(rt; opened.as_slice(), b"ok 1\n".as_slice());
    let many = print_session_reply(rt.alloc(), &SessionReply::TooManyOpen)?;
    assert_eq!(rt; many.as_slice(), b"no TooManyOpen 256\n".as_slice());
    let none = print_session_reply(rt.alloc(), &SessionReply::NoHandle(7))?;
    assert_eq!(rt; none.as_slice(), b"no NoHandle 7\n".as_slice());
    let steps = print_session_reply(rt.alloc(), &SessionReply::TooManySteps(16))?;
    assert_eq!(rt; steps.as_slice(), b"no TooManySteps 16\n".as_slice());
    let file = print_session_reply(rt.alloc(), &SessionReply::NotLink)?;
    assert_eq!(rt; file.as_slice(), b"no NotLink\n".as_slice());
    let packed = print_session_reply(rt.alloc(), &SessionReply::Compressed)?;
    assert_eq!(rt; packed.as_slice(), b"no Compressed\n".as_slice());
    Ok(())
}

#[test]
fn a_path_is_printed_with_its_slashes(rt: HostRuntime) -> Result<(), OutOfMemory> {
    let alloc = rt.alloc();
    let mut path = Path::new(alloc);
    let root = print_session_reply(alloc, &SessionReply::Followed(path))?;
    assert_eq!(rt; root.as_slice(), b"ok /\n".as_slice());
    path = Path::new(alloc);
    path.push(Units::from_vec(Vec::from_slice(alloc, &[100])?))?;
    path.push(Units::from_vec(Vec::from_slice(alloc, &[102, 32])?))?;
    let file = print_session_reply(alloc, &SessionReply::Followed(path))?;
    assert_eq!(rt; file.as_slice(), b"ok /d/f%u0020\n".as_slice());
    Ok(())
}
