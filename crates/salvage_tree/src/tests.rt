//! Names and text by hand.
use super::*;
use std::test::*;

#[test]
fn names_are_safe(rt: HostRuntime) -> Result<(), Fail> {
    let plain = file_name(rt.alloc(), &[0x61, 0x2F, 0x62])?;
    assert!(rt; matches!(&plain, Some(name) if name.as_str() == "a:b"));
    let composed = file_name(rt.alloc(), &[0x65, 0x301])?;
    assert!(rt; matches!(&composed, Some(name) if name.as_str() == "\u{e9}"));
    assert!(rt; file_name(rt.alloc(), &[0x2E, 0x2E])?.is_none());
    assert!(rt; file_name(rt.alloc(), &[])?.is_none());
    Ok(())
}

#[test]
fn text_stays_on_its_line(rt: HostRuntime) -> Result<(), Fail> {
    let mut text = String::new(rt.alloc());
    push_shown(&mut text, "a\nb\\")?;
    assert!(rt; text.as_str() == "a\\x0ab\\x5c");
    let mut text = String::new(rt.alloc());
    push_json(&mut text, "a\"\n")?;
    assert!(rt; text.as_str() == "\"a\\\"\\u000a\"");
    Ok(())
}
