//! Text for lines: paths as they are shown, and strings of JSON.

use std::alloc::AllocError;

// The two digits of a number below 256.
fn push_hex(out: &mut String, number: u32) -> Result<(), AllocError> {
    let digits = b"0123456789abcdef";
    for place in [number / 16 % 16, number % 16] {
        if let Some(digit) = digits.get(place as usize) {
            out.push(char::from(*digit))?;
        }
    }
    Ok(())
}

/// Adds text of one line: a control character or a backslash as `\x` and two digits.
pub fn push_shown(out: &mut String, text: &str) -> Result<(), AllocError> {
    for c in text.chars() {
        if c < ' ' || c == '\u{7f}' || c == '\\' {
            out.push_str("\\x")?;
            push_hex(out, u32::from(c))?;
        } else {
            out.push(c)?;
        }
    }
    Ok(())
}

/// Adds a string of JSON.
pub fn push_json(out: &mut String, text: &str) -> Result<(), AllocError> {
    out.push('"')?;
    for c in text.chars() {
        if c == '"' || c == '\\' {
            out.push('\\')?;
            out.push(c)?;
        } else if c < ' ' || c == '\u{7f}' {
            out.push_str("\\u00")?;
            push_hex(out, u32::from(c))?;
        } else {
            out.push(c)?;
        }
    }
    out.push('"')?;
    Ok(())
}
