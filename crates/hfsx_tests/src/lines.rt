// Lines and their replies.
use hfs_model::ascii;
use hfsx_server::Status;
use hx_bytes::OutOfMemory;
use mem_disk::MemRig;
use std::alloc::{AllocError, Global};
use std::test::Fail;
use test_kit::{fresh_rig, put, run_on, sector_of};

// Whether a run on a new volume tells this.
fn tells(alloc: Global, input: &[u8], told: &[u8]) -> Result<bool, OutOfMemory> {
    let mut rig = fresh_rig(alloc)?;
    let ended = run_on(alloc, "run v.img", &mut rig, input)?;
    Ok(ended == Status::Done && rig.told() == told)
}

#[test]
fn lines_are_answered(rt: HostRuntime) -> Result<(), Fail> {
    for (input, told) in [
        // A folder is made and listed; the journal's files aren't.
        ("mkdir /x\nls /\n", "ok\nok 1 x/\n"),
        // An empty line is one, and so is a last one without its newline.
        ("mkdir /a\n\nls /", "ok\nno BadCommand\nok 1 a/\n"),
        // Composed and decomposed letters are one name; letters of two cases are two.
        (
            "create /\u{E9}\ncreate /e\u{301}\ncreate /A\ncreate /a\nls /\n",
            "ok\nno Exists\nok\nok\nok 3 A a e\u{301}\n",
        ),
        // Names with a zero, a space and a percent sign.
        (
            "create /%u0000a%u0020b\nls /\ncreate /50%%\nstat /50%%\n",
            "ok\nok 1 %u0000a%u0020b\nok\nok file 19 0 1 0644 0 0 0\n",
        ),
        // What a folder and its entries refuse.
        (
            "mkdir /a\nmv /a /a/b\ncreate /a/f\nrmdir /a\nrm /\nrm /a\nls /a/f\nstat /z\nmkdir /.journal\n",
            "ok\nno Inside\nok\nno NotEmpty\nno Root\nno IsFolder\nno NotFolder\nno NotFound\nno Private\n",
        ),
        // Moments, modes and bytes.
        (
            "at 100\ncreate /a\nat 200\nwrite /a 0 =x\nchmod /a 600\nstat /a\nread /a 1 5\nread /a 0 65537\ntrunc /a 1048578\n",
            "ok\nok\nok\nok\nok\nok file 18 1 1 0600 100 200 200\nok =\nno TooLarge\nok\n",
        ),
        // A file takes the place of another; a folder neither takes one nor gives way.
        (
            "create /a\nwrite /a 0 =A\ncreate /b\nwrite /b 0 =BB\nln /b /c\nmv /a /b\nread /b 0 9\nstat /c\nmv /b /c\nls /\nread /c 0 9\nmv /c /c\ncreate /z\nstat /z\nmkdir /d\nmv /c /d\n",
            "ok\nok\nok\nok\nok\nok\nok =A\nok file 19 2 1 0644 0 0 0\nok\nok 1 c\nok =A\nok\nok\nok file 23 0 1 0644 0 0 0\nok\nno Exists\n",
        ),
        // A file grows by 1,536 blocks in one line, and by no more than there are.
        (
            "create /f\ntrunc /f 6291456\nstat /f\ntrunc /f 7340032\ntrunc /f 1099511627776\n",
            "ok\nok\nok file 18 6291456 1 0644 0 0 0\nno NoSpace 156 256\nno NoSpace 156 268433920\n",
        ),
        // A folder with what is in it gets another place; a mode of one digit.
        (
            "mkdir /a\nmkdir /a/b\ncreate /a/b/f\nmv /a/b /c\nls /c\nstat /c\nls /a\nchmod /c/f 7\nstat /c/f\n",
            "ok\nok\nok\nok\nok 1 f\nok folder 19 1 0755 0 0 0\nok 0\nok\nok file 20 0 1 0007 0 0 0\n",
        ),
        // Bytes over the border of a block, and zeros in front of them.
        (
            "create /f\nwrite /f 5 =hello\nsync\nwrite /f 4094 =wxyz\nread /f 4092 10\nread /f 0 11\nstat /f\n",
            "ok\nok\nok\nok\nok =%00%00wxyz\nok =%00%00%00%00%00hello%00\nok file 18 4098 1 0644 0 0 0\n",
        ),
        // A file that was emptied and grows again has zeros, and the largest file ends at 2^40 bytes.
        (
            "create /f\nwrite /f 0 =\nstat /f\nwrite /f 0 =a\ntrunc /f 0\ntrunc /f 3\nread /f 0 5\nwrite /f 1099511627776 =x\n",
            "ok\nok\nok file 18 0 1 0644 0 0 0\nok\nok\nok\nok =%00%00%00\nno TooLarge\n",
        ),
        // Names of one file: the bytes are those of each, and its id is that which it had. Four ids go to the private folder and to the links.
        (
            "create /a\nwrite /a 0 =hi\nln /a /b\nstat /b\nln /b /c\nrm /a\nstat /c\nrm /b\nread /c 0 9\nrm /c\ncreate /z\nstat /z\nsync\ndf\n",
            "ok\nok\nok\nok file 18 2 2 0644 0 0 0\nok\nok\nok file 18 2 2 0644 0 0 0\nok\nok =hi\nok\nok\nok file 23 0 1 0644 0 0 0\nok\nok 4096 2048 1692 1692 1982 0 16 15 1 64 62 0 16 15\n",
        ),
        // An entry gets another place and another name.
        (
            "mkdir /a\nmkdir /b\ncreate /a/f\nmv /a/f /b/g\nls /a\nls /b\nrmdir /a\nls /\nmv /b /c\nstat /c/g\n",
            "ok\nok\nok\nok\nok 0\nok 1 g\nok\nok 1 b/\nok\nok file 20 0 1 0644 0 0 0\n",
        ),
        // A file loses its name; with the first one the volume's own folder takes a number.
        (
            "create /f\nrm /f\nls /\nstat /f\nrm /f\ncreate /f\nstat /f\nrm /f\ncreate /g\nstat /g\n",
            "ok\nok\nok 0\nno NotFound\nno NotFound\nok\nok file 20 0 1 0644 0 0 0\nok\nok\nok file 21 0 1 0644 0 0 0\n",
        ),
        (
            "mkdir /a\ncreate /a/f\nrm /a\nrm /a/f\nls /a\nrmdir /a\nls /\n",
            "ok\nok\nno IsFolder\nok\nok 0\nok\nok 0\n",
        ),
        // Room: block size, blocks, free blocks, longest run, capacity, and depth, nodes and free nodes of the three trees.
        (
            "sync\ndf\n",
            "ok\nok 4096 2048 1692 1692 1982 0 16 15 1 64 62 0 16 15\n",
        ),
        // Words, spaces and paths that no command has.
        (
            "mkdir x\nls\nls / \nmkdir  /a\nat 4294967296\n",
            "no BadCommand\nno BadCommand\nno BadCommand\nno BadCommand\nno BadCommand\n",
        ),
        (
            "mkdir /a/\nls //\nmv /% x\nmv /% /x\n",
            "no BadName\nno BadName\nno BadCommand\nno BadName\n",
        ),
        // The volume's own names, in either path.
        (
            "mkdir /.journal\nls /.journal_info_block\nstat /%u0000%u0000%u0000%u0000HFS+%u0020Private%u0020Data/x\nmv /a /.journal\nmv /.journal /a\nmkdir /a\nmkdir /a/.journal\nmkdir /.journa\n",
            "no Private\nno Private\nno Private\nno Private\nno Private\nok\nok\nok\n",
        ),
        // A value of no byte changes nothing; the same size dates the file.
        (
            "at 100\ncreate /f\nat 200\nwrite /f 5 =\nstat /f\ntrunc /f 0\nstat /f\ntrunc / 0\nwrite /g 0 =\n",
            "ok\nok\nok\nok\nok file 18 0 1 0644 100 100 100\nok\nok file 18 0 1 0644 100 200 200\nno IsFolder\nno NotFound\n",
        ),
        // What a file's names and bytes refuse.
        (
            "create /f\nrm /\nrm /g\nrm /f/g\nln /f /f\nln / /g\nwrite / 0 =x\nwrite /f 2000000 =x\ntrunc /g 5\ntrunc /f 1099511627777\n",
            "ok\nno Root\nno NotFound\nno NotFolder\nno Exists\nno Root\nno IsFolder\nok\nno NotFound\nno TooLarge\n",
        ),
    ] {
        assert!(rt;
            tells(rt.alloc(), input.as_bytes(), told.as_bytes())?,
            "{input}"
        );
    }
    Ok(())
}

// An empty stream: no reply, and the volume is unmounted again, with bit 8 set.
#[test]
fn an_empty_stream_has_no_line(rt: HostRuntime) -> Result<(), Fail> {
    let alloc = rt.alloc();
    let mut rig = fresh_rig(alloc)?;
    assert_eq!(rt; run_on(alloc, "run v.img", &mut rig, b"")?, Status::Done);
    assert_eq!(rt; rig.told(), b"".as_slice());
    assert_eq!(rt; &sector_of(&mut rig, 2)[4..8], [0, 0, 0x21, 0].as_slice());
    Ok(())
}

#[test]
fn entries_are_there_in_a_second_run(rt: HostRuntime) -> Result<(), Fail> {
    let alloc = rt.alloc();
    let mut rig = fresh_rig(alloc)?;
    run_on(
        alloc,
        "run v.img",
        &mut rig,
        b"mkdir /x\ncreate /x/y\nsetattr /x k =v\n",
    )?;
    // The newest values and the oldest: nothing is pending.
    for choice in [0, 1] {
        let image = rig.image(alloc, choice)?;
        let mut again = MemRig::from_image(alloc, &image)?;
        run_on(
            alloc,
            "run v.img",
            &mut again,
            b"mkdir /a\nls /\nls /x\ngetattr /x k\n",
        )?;
        assert_eq!(rt; again.told(), b"ok\nok 2 a/ x/\nok 1 y\nok =v\n".as_slice());
    }
    Ok(())
}

// The id 4294967295 is never given: a command that draws one is refused, and nothing has changed.
#[test]
fn the_last_id_is_never_given(rt: HostRuntime) -> Result<(), Fail> {
    let alloc = rt.alloc();
    let mut rig = fresh_rig(alloc)?;
    let mut header = sector_of(&mut rig, 2);
    header[64..68].copy_from_slice(&[0xFF; 4]);
    put(&mut rig, 2, &header);
    assert_eq!(rt;
        run_on(alloc, "run v.img", &mut rig, b"create /a\ncreate /b\ndf\n")?,
        Status::Done
    );
    assert_eq!(rt;
        rig.told(),
        b"no NoIds 4294967295\nno NoIds 4294967295\nok 4096 2048 1692 1692 1982 0 16 15 1 64 62 0 16 15\n".as_slice()
    );
    Ok(())
}

// ---- long names

// A text, a letter so many times, and a newline.
fn long_line(alloc: Global, front: &[u8], letter: u8, count: usize) -> Result<Vec<u8>, AllocError> {
    let mut line = Vec::from_slice(alloc, front)?;
    for _letter in 0..count {
        line.push(letter)?;
    }
    line.push(b'\n')?;
    Ok(line)
}

#[test]
fn a_long_line_is_refused_and_the_next_one_served(rt: HostRuntime) -> Result<(), Fail> {
    let alloc = rt.alloc();
    for (letters, told) in [
        // 256 letters, and 140,000 bytes with `mkdir /`: a name that is too long.
        (256, "no NameTooLong\nok 0\n"),
        (139_993, "no NameTooLong\nok 0\n"),
        // 140,001 bytes.
        (139_994, "no TooLong\nok 0\n"),
    ] {
        let mut input = long_line(alloc, b"mkdir /", b'a', letters)?;
        input.extend_from_slice(b"ls /\n")?;
        assert!(rt; tells(alloc, &input, told.as_bytes())?);
    }
    let longest = long_line(alloc, b"mkdir /", b'a', 255)?;
    assert!(rt; tells(alloc, &longest, b"ok\n")?);
    Ok(())
}

// Twenty names, each of 255 times one letter, which fill more than one node, and go again.
#[test]
fn long_names_come_and_go(rt: HostRuntime) -> Result<(), Fail> {
    let alloc = rt.alloc();
    let mut input = Vec::new(alloc);
    let mut told = Vec::new(alloc);
    for verb in [b"mkdir /".as_slice(), b"rmdir /".as_slice()] {
        for letter in b'a'..b'u' {
            input.extend_from_slice(&long_line(alloc, verb, letter, 255)?)?;
            told.extend_from_slice(b"ok\n")?;
        }
    }
    input.extend_from_slice(b"ls /\nstat /\n")?;
    told.extend_from_slice(b"ok 0\nok folder 2 0 0755 0 0 0\n")?;
    assert!(rt; tells(alloc, &input, &told)?);
    Ok(())
}

// On a journal of 512 sectors, whose ring the transactions go round more than once.
#[test]
fn a_small_ring_is_gone_round(rt: HostRuntime) -> Result<(), Fail> {
    let alloc = rt.alloc();
    let mut made = MemRig::new(alloc, 16_384)?;
    let name = ascii(alloc, "untitled")?;
    assert!(rt; volume_make::format(alloc, &mut made, 4_096, 512, &name).is_ok());
    let image = made.image(alloc, 1)?;
    let mut rig = MemRig::from_image(alloc, &image)?;
    let mut input = Vec::new(alloc);
    let mut told = Vec::new(alloc);
    for _pair in 0..100 {
        input.extend_from_slice(b"chmod / 700\nsync\nchmod / 755\nsync\n")?;
        told.extend_from_slice(b"ok\nok\nok\nok\n")?;
    }
    assert_eq!(rt; run_on(alloc, "run v.img", &mut rig, &input)?, Status::Done);
    assert_eq!(rt; rig.told(), told.as_slice());
    Ok(())
}
