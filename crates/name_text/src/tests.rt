use crate::{NameFault, Units, compare, print_component, read_component};
use std::alloc::{AllocError, Global};
use std::cmp::Ordering;
use std::test::Fail;

const MOST: usize = 255;

/// What each text is read to: the units, or the fault.
const READ: &[(&str, Result<&[u16], NameFault>)] = &[
    ("a", Ok(&[0x61])),
    // one letter, precomposed and decomposed
    ("\u{E9}", Ok(&[0x65, 0x301])),
    ("e\u{301}", Ok(&[0x65, 0x301])),
    // with an escape nothing is brought to NFD
    ("\u{E9}%u0041", Ok(&[0xE9, 0x41])),
    ("%u0000a%u0020b", Ok(&[0, 0x61, 0x20, 0x62])),
    ("50%%", Ok(&[0x35, 0x30, 0x25])),
    ("%%u0041", Ok(&[0x25, 0x75, 0x30, 0x30, 0x34, 0x31])),
    ("%uD800", Ok(&[0xD800])),
    ("%uFFFF", Ok(&[0xFFFF])),
    ("%uABCD", Ok(&[0xABCD])),
    // outside the basic plane: a pair
    ("\u{1F600}", Ok(&[0xD83D, 0xDE00])),
    // NFD (NormalizationTest.txt of Unicode): a syllable of Hangul, a singleton, an order of marks
    ("\u{D4DB}", Ok(&[0x1111, 0x1171, 0x11B6])),
    ("\u{212B}", Ok(&[0x41, 0x30A])),
    ("a\u{301}\u{323}", Ok(&[0x61, 0x323, 0x301])),
    ("...", Ok(&[0x2E, 0x2E, 0x2E])),
    ("%u002E", Ok(&[0x2E])),
    ("%u002F", Ok(&[0x2F])),
    ("\u{7F}", Ok(&[0x7F])),
    (" ", Ok(&[0x20])),
    ("", Err(NameFault::BadName)),
    (".", Err(NameFault::BadName)),
    ("..", Err(NameFault::BadName)),
    ("a/b", Err(NameFault::BadName)),
    ("/", Err(NameFault::BadName)),
    ("%", Err(NameFault::BadName)),
    ("a%", Err(NameFault::BadName)),
    ("%a", Err(NameFault::BadName)),
    ("%u", Err(NameFault::BadName)),
    ("%u004", Err(NameFault::BadName)),
    ("%u00e9", Err(NameFault::BadName)),
    ("%U0041", Err(NameFault::BadName)),
    ("%u00G0", Err(NameFault::BadName)),
    ("%%%", Err(NameFault::BadName)),
    ("%25", Err(NameFault::BadName)),
];

/// How each name is printed.
const PRINTED: &[(&[u16], &str)] = &[
    (&[0x61], "a"),
    (&[0x65, 0x301], "e\u{301}"),
    (&[0xE9], "%u00E9"),
    (&[0x61, 0xE9], "a%u00E9"),
    (&[0x35, 0x30, 0x25], "50%%"),
    (&[0x35, 0x30, 0x25, 0], "50%%%u0000"),
    (&[0, 0x61, 0x20, 0x62], "%u0000a%u0020b"),
    (&[0xD83D, 0xDE00], "\u{1F600}"),
    (&[0xD83D, 0x61], "%uD83Da"),
    (&[0xDE00, 0xD83D], "%uDE00%uD83D"),
    (&[0x2E], "%u002E"),
    (&[0x2E, 0x2E], "%u002E."),
    (&[0x2E, 0x2E, 0x2E], "..."),
    (&[0x61, 0x2F], "a%u002F"),
    (&[0x7F], "%u007F"),
    (&[0x7E], "~"),
    (&[0x85], "\u{85}"),
];

fn units_of(alloc: Global, units: &[u16]) -> Result<Units, AllocError> {
    Ok(Units::from_vec(Vec::from_slice(alloc, units)?))
}

#[test]
fn texts_are_read_to_names(rt: HostRuntime) -> Result<(), Fail> {
    for (text, want) in READ {
        match (read_component(rt.alloc(), text), want) {
            (Ok(name), Ok(units)) => assert!(rt; name.as_slice() == *units, "{text}"),
            (Err(fault), Err(wanted)) => assert_eq!(rt; fault, *wanted, "{text}"),
            _ => assert!(rt; false, "{text}"),
        }
    }
    Ok(())
}

#[test]
fn names_are_printed(rt: HostRuntime) -> Result<(), Fail> {
    for (units, want) in PRINTED {
        let name = units_of(rt.alloc(), units)?;
        let text = print_component(rt.alloc(), &name)?;
        assert_eq!(rt; text.as_str(), *want);
    }
    Ok(())
}

#[test]
fn a_name_has_255_units_at_most(rt: HostRuntime) -> Result<(), Fail> {
    for (count, fits) in [(MOST, true), (MOST + 1, false)] {
        let mut text = String::new(rt.alloc());
        for _ in 0..count {
            text.push('a')?;
        }
        let read = read_component(rt.alloc(), text.as_str());
        assert!(rt; matches!(read, Ok(_)) == fits);
        assert!(rt; matches!(read, Err(NameFault::NameTooLong)) != fits);
    }
    Ok(())
}

#[test]
fn names_are_ordered_by_units(rt: HostRuntime) -> Result<(), Fail> {
    for (a, b, want) in [
        (&[0x61][..], &[0x61, 0x62][..], Ordering::Less),
        (&[0x61, 0x62], &[0x61], Ordering::Greater),
        (&[0x41], &[0x61], Ordering::Less),
        (&[0xFFFF], &[0x61, 0x61], Ordering::Greater),
        (&[0x61], &[0x61], Ordering::Equal),
    ] {
        let left = units_of(rt.alloc(), a)?;
        let right = units_of(rt.alloc(), b)?;
        assert!(rt; compare(&left, &right) == want);
    }
    Ok(())
}

#[test]
fn each_ascii_character_stands_for_itself(rt: HostRuntime) -> Result<(), Fail> {
    for byte in 0..128u8 {
        let mut text = String::new(rt.alloc());
        text.push(char::from(byte))?;
        let wanted = [u16::from(byte)];
        match read_component(rt.alloc(), text.as_str()) {
            Ok(name) => assert!(rt; name.as_slice() == wanted.as_slice(), "{byte}"),
            Err(fault) => {
                assert_eq!(rt; fault, NameFault::BadName, "{byte}");
                assert!(rt; matches!(byte, b'%' | b'.' | b'/'), "{byte}");
            }
        }
    }
    Ok(())
}
