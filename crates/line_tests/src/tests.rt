use crate::replies::{CONTENTS, FILE, FILE_LINE, FOLDER, FOLDER_LINE, GAUGE, GAUGE_LINE, REFUSALS};
use cmd_lang::{LineFault, print_reply, read_line};
use hfs_language::{Command, ListedName, Listing, Refusal, Reply};
use hx_bytes::{Bytes, Units};
use std::alloc::{AllocError, Global};
use std::test::Fail;

/// Whether it writes the bytes 0 and `b` at 5 into the file with the units 0061 and 0000 in the root.
fn is_wanted_write(command: &Command) -> bool {
    match command {
        Command::Write { path, from, value } => match path.as_slice() {
            [name] => {
                name.as_slice() == [0x61, 0].as_slice()
                    && *from == 5
                    && value.as_slice() == [0, 0x62].as_slice()
            }
            _ => false,
        },
        _ => false,
    }
}

#[test]
fn a_command_is_read_to_its_parts(rt: HostRuntime) -> Result<(), Fail> {
    let read = read_line(rt.alloc(), b"write /a%u0000 5 =%00b");
    assert!(rt; read.is_ok());
    if let Ok(command) = &read {
        assert!(rt; is_wanted_write(command));
    }
    Ok(())
}

/// A line of this front and so many letters.
fn lettered(
    alloc: Global,
    front: &[u8],
    letters: usize,
    back: &[u8],
) -> Result<Vec<u8>, AllocError> {
    let mut line = Vec::from_slice(alloc, front)?;
    for _ in 0..letters {
        line.extend_from_slice(b"a")?;
    }
    line.extend_from_slice(back)?;
    Ok(line)
}

const BOUNDED: &[(&[u8], usize, &[u8], Option<Refusal>)] = &[
    (b"mkdir /", 255, b"", None),
    (b"mkdir /", 256, b"", Some(Refusal::NameTooLong)),
    (b"getattr /f ", 127, b"", None),
    (b"getattr /f ", 128, b"", Some(Refusal::NameTooLong)),
    (b"getattr /f ", 256, b"", Some(Refusal::NameTooLong)),
    (b"setattr /f ", 128, b" =x", Some(Refusal::NameTooLong)),
    (b"mv /", 256, b" /%", Some(Refusal::BadName)),
    (b"mv /", 256, b" x", Some(Refusal::BadCommand)),
    (b"mkdir /", 256, b"/%", Some(Refusal::BadName)),
    (b"mkdir /%u", 256, b"", Some(Refusal::BadName)),
    (b"write /f 0 =", 65_536, b"", None),
    (b"write /f 0 =", 65_537, b"", None),
    (b"write /f 0 =", 139_988, b"", None),
    (b"write /f 0 =", 139_989, b"", Some(Refusal::TooLong)),
    (b"x", 139_999, b"", Some(Refusal::BadCommand)),
    (b"x", 140_000, b"", Some(Refusal::TooLong)),
    (b"\xFF", 139_999, b"", Some(Refusal::BadCommand)),
    (b"\xFF", 140_000, b"", Some(Refusal::TooLong)),
    (b"mkdir /", 140_000, b"", Some(Refusal::TooLong)),
    (b"mkdir /", 139_000, b"", Some(Refusal::NameTooLong)),
];

#[test]
fn limits_are_exact(rt: HostRuntime) -> Result<(), Fail> {
    for (at, (front, letters, back, wanted)) in BOUNDED.iter().enumerate() {
        let line = lettered(rt.alloc(), front, *letters, back)?;
        match read_line(rt.alloc(), &line) {
            Ok(_) => assert!(rt; wanted.is_none(), "line {at}"),
            Err(LineFault::No(why)) => assert!(rt; *wanted == Some(why), "line {at}"),
            Err(LineFault::Memory) => assert!(rt; false, "line {at}"),
        }
    }
    Ok(())
}

fn is_printed_as(alloc: Global, reply: &Reply, wanted: &str) -> Result<bool, Fail> {
    let line = print_reply(alloc, reply)?;
    Ok(line.as_slice() == wanted.as_bytes())
}

#[test]
fn replies_have_their_texts(rt: HostRuntime) -> Result<(), Fail> {
    assert!(rt; is_printed_as(rt.alloc(), &Reply::Ok, "ok\n")?);
    assert!(rt; is_printed_as(rt.alloc(), &Reply::Facts(FOLDER), FOLDER_LINE)?);
    assert!(rt; is_printed_as(rt.alloc(), &Reply::Facts(FILE), FILE_LINE)?);
    assert!(rt; is_printed_as(rt.alloc(), &Reply::Gauge(GAUGE), GAUGE_LINE)?);
    for (bytes, text) in CONTENTS {
        let value = Bytes::from_vec(Vec::from_slice(rt.alloc(), bytes)?);
        assert!(rt;
            is_printed_as(rt.alloc(), &Reply::Content(value), text)?,
            "{text}"
        );
    }
    for (refusal, text) in REFUSALS {
        assert!(rt;
            is_printed_as(rt.alloc(), &Reply::No(*refusal), text)?,
            "{text}"
        );
    }
    Ok(())
}

fn listed(alloc: Global, units: &[u16], folder: bool) -> Result<ListedName, AllocError> {
    Ok(ListedName {
        name: Units::from_vec(Vec::from_slice(alloc, units)?),
        folder,
    })
}

#[test]
fn a_listing_is_one_line(rt: HostRuntime) -> Result<(), Fail> {
    let mut names = Listing::new(rt.alloc());
    assert!(rt;
        is_printed_as(
            rt.alloc(),
            &Reply::Listing(Listing::new(rt.alloc())),
            "ok 0\n"
        )?
    );
    names.push(listed(rt.alloc(), &[0x41], false)?)?;
    names.push(listed(rt.alloc(), &[0x78], true)?)?;
    names.push(listed(rt.alloc(), &[0, 0x61, 0x20, 0x62], false)?)?;
    names.push(listed(rt.alloc(), &[0x65, 0x301], true)?)?;
    names.push(listed(rt.alloc(), &[0x0A, 0x25], false)?)?;
    let wanted = "ok 5 A x/ %u0000a%u0020b e\u{301}/ %u000A%%\n";
    assert!(rt; is_printed_as(rt.alloc(), &Reply::Listing(names), wanted)?);
    Ok(())
}
