//! Paths that are followed over a small tree, and lines on links.
use crate::{KindCommand, KindEdit, KindRefusal, Looker, Sight, follow, is_kind_line, read_kind};
use cmd_lang::LineFault;
use hfs_language::{Path, Refusal};
use hx_bytes::{Bytes, OutOfMemory, Trouble, Units};
use std::alloc::Global;

/// Names of the root that are links, and their targets.
const LINKS: [(&[u8], &[u8]); 11] = [
    (b"l", b"d/../d/f"),
    (b"m", b"/m"),
    (b"up", b"../../d"),
    (b"dots", b"./d//."),
    (b"in", b"/d"),
    (b"bad", b"d\xFF"),
    (b"empty", b""),
    // a letter with an acute accent in one character
    (b"accent", b"\xC3\xA9"),
    (b"long", &[b'a'; 256]),
    (b"longer", &[b'/'; 1024]),
    (b"slashes", &[b'/'; 1023]),
];

// What stands under a name: in the root a folder `d` (18) with a file `f`, a file whose name is a letter with an accent in two units, the links,
// and links `A` to `Q`, each to the next, of which the last leads to `d`.
fn sight(alloc: Global, parent: u32, name: &Units) -> Result<Sight, OutOfMemory> {
    match (parent, name.as_slice()) {
        (2, [100]) => Ok(Sight::Folder(18)),
        (18, [102]) => Ok(Sight::File),
        (2, [101, 0x301]) => Ok(Sight::File),
        (2, [81]) => link(alloc, b"d"),
        (2, [letter]) => match next_letter(*letter) {
            Some(next) => link(alloc, &[next]),
            None => root_link(alloc, name),
        },
        (2, _) => root_link(alloc, name),
        _ => Ok(Sight::Absent),
    }
}

fn next_letter(letter: u16) -> Option<u8> {
    if letter < 65 || letter > 80 {
        return None;
    }
    Some(letter as u8 + 1)
}

fn root_link(alloc: Global, name: &Units) -> Result<Sight, OutOfMemory> {
    for (text, target) in LINKS {
        if is_text(name, text) {
            return link(alloc, target);
        }
    }
    Ok(Sight::Absent)
}

fn link(alloc: Global, target: &[u8]) -> Result<Sight, OutOfMemory> {
    Ok(Sight::Link(Bytes::from_vec(Vec::from_slice(alloc, target)?)))
}

fn is_text(name: &Units, text: &[u8]) -> bool {
    if name.len() != text.len() {
        return false;
    }
    for (unit, byte) in name.as_slice().iter().zip(text) {
        if *unit != u16::from(*byte) {
            return false;
        }
    }
    true
}

fn path(alloc: Global, names: &[&[u8]]) -> Result<Path, OutOfMemory> {
    let mut path = Path::new(alloc);
    for name in names {
        let mut units = Units::new(alloc);
        for byte in *name {
            units.push(u16::from(*byte))?;
        }
        path.push(units)?;
    }
    Ok(path)
}

/// What came of a walk.
#[derive(Debug, PartialEq, Eq, Clone, Copy)]
enum Came {
    /// To so many names, of which the last has so many units.
    To(usize, usize),
    No(KindRefusal),
}

/// The small tree. It tells no contract of itself.
#[derive(Drop)]
struct Small {
    alloc: Global,
}

impl Looker for Small {
    ghost use Rattle.std.specs.Prelude.{false};
    ghost use Rattle.hfs_model.specs.declared.kinds.Sight.TheVariants.{Absent};

    ghost state = { λ _. record { tells = false; sight = λ parent name. Absent; faults = 0 } };

    fn look(&mut self, parent: u32, name: &Units) -> Result<Sight, Trouble> {
        Ok(sight(self.alloc, parent, name)?)
    }
}

fn led_to(alloc: Global, names: &[&[u8]]) -> Result<Came, Trouble> {
    match follow(alloc, &path(alloc, names)?, &mut Small { alloc })? {
        Ok(path) => Ok(Came::To(path.len(), last_length(&path))),
        Err(why) => Ok(Came::No(why)),
    }
}

fn last_length(path: &Path) -> usize {
    match path.as_slice() {
        [.., last] => last.len(),
        [] => 0,
    }
}

#[test]
fn paths_are_followed(rt: HostRuntime) -> Result<(), Trouble> {
    let alloc = rt.alloc();
    assert_eq!(rt; led_to(alloc, &[])?, Came::To(0, 0));
    assert_eq!(rt; led_to(alloc, &[b"d", b"f"])?, Came::To(2, 1));
    assert_eq!(rt; led_to(alloc, &[b"l"])?, Came::To(2, 1));
    assert_eq!(rt; led_to(alloc, &[b"in", b"f"])?, Came::To(2, 1));
    assert_eq!(rt;
        led_to(alloc, &[b"in", b"l"])?,
        Came::No(KindRefusal::NotFound)
    );
    assert_eq!(rt;
        led_to(alloc, &[b"l", b"x"])?,
        Came::No(KindRefusal::NotFolder)
    );
    assert_eq!(rt; led_to(alloc, &[b"q"])?, Came::No(KindRefusal::NotFound));
    Ok(())
}

#[test]
fn targets_go_up_no_further_than_the_root(rt: HostRuntime) -> Result<(), Trouble> {
    let alloc = rt.alloc();
    assert_eq!(rt; led_to(alloc, &[b"up"])?, Came::To(1, 1));
    assert_eq!(rt; led_to(alloc, &[b"dots"])?, Came::To(1, 1));
    assert_eq!(rt; led_to(alloc, &[b"slashes"])?, Came::To(0, 0));
    Ok(())
}

#[test]
fn sixteen_links_are_followed(rt: HostRuntime) -> Result<(), Trouble> {
    let alloc = rt.alloc();
    assert_eq!(rt; led_to(alloc, &[b"B"])?, Came::To(1, 1));
    assert_eq!(rt;
        led_to(alloc, &[b"A"])?,
        Came::No(KindRefusal::TooManySteps(16))
    );
    assert_eq!(rt;
        led_to(alloc, &[b"m"])?,
        Came::No(KindRefusal::TooManySteps(16))
    );
    Ok(())
}

#[test]
fn targets_are_utf_8_in_nfd(rt: HostRuntime) -> Result<(), Trouble> {
    let alloc = rt.alloc();
    assert_eq!(rt; led_to(alloc, &[b"accent"])?, Came::To(1, 2));
    assert_eq!(rt; led_to(alloc, &[b"bad"])?, Came::No(KindRefusal::BadTarget));
    assert_eq!(rt;
        led_to(alloc, &[b"empty"])?,
        Came::No(KindRefusal::BadTarget)
    );
    assert_eq!(rt;
        led_to(alloc, &[b"long"])?,
        Came::No(KindRefusal::BadTarget)
    );
    assert_eq!(rt;
        led_to(alloc, &[b"longer"])?,
        Came::No(KindRefusal::BadTarget)
    );
    Ok(())
}

// What a line is read to: its session and a word for what it asks for, or the name of its refusal.
fn told(alloc: Global, line: &[u8]) -> (u8, &'static str) {
    match read_kind(alloc, line) {
        Ok(line) => (line.session, word(&line.command)),
        Err(LineFault::No(Refusal::BadCommand)) => (0, "BadCommand"),
        Err(LineFault::No(Refusal::BadName)) => (0, "BadName"),
        Err(_) => (0, "else"),
    }
}

fn word(command: &KindCommand) -> &'static str {
    match command {
        KindCommand::Edit(KindEdit::Symlink { .. }) => "symlink",
        KindCommand::Edit(KindEdit::ResourceWrite { .. }) => "rwrite",
        KindCommand::Edit(KindEdit::ResourceRead { .. }) => "rread",
        KindCommand::Readlink(_) => "readlink",
        KindCommand::Follow(_) => "follow",
    }
}

/// Lines, and what they are read to.
const LINES: [(&[u8], u8, &str); 10] = [
    (b"1 symlink /l =d/../d/f", 1, "symlink"),
    (b"2 symlink /e =", 2, "symlink"),
    (b"3 readlink /l", 3, "readlink"),
    (b"4 follow /", 4, "follow"),
    (b"64 rwrite /f 3 =ab", 64, "rwrite"),
    (b"1 rread /f 0 9", 1, "rread"),
    (b"1 symlink /l", 0, "BadCommand"),
    // a value that is none comes before a name that is none
    (b"1 symlink /%zz x", 0, "BadCommand"),
    (b"1 symlink /%zz =x", 0, "BadName"),
    (b"1 open /f", 0, "BadCommand"),
];

#[test]
fn lines_are_read(rt: HostRuntime) {
    for (line, session, word) in LINES {
        assert_eq!(rt; told(rt.alloc(), line), (session, word));
    }
}

#[test]
fn lines_on_links_are_told_by_their_word(rt: HostRuntime) {
    assert!(rt; is_kind_line(b"1 symlink /l =x"));
    assert!(rt; is_kind_line(b"1 rread "));
    assert!(rt; !is_kind_line(b"1 rread"));
    assert!(rt; !is_kind_line(b"1 readlinks /l"));
    assert!(rt; !is_kind_line(b"symlink /l =x"));
}
