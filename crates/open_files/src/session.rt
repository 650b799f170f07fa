//! The session's number, which stands in front of what its line asks for.
ghost use Rattle.std.specs.Prelude.{◌≡◌, ◌≤◌, ◌+◌, None, Some, IfNone, IfSome};
ghost use Rattle.std.specs.Str.{bytes_eq};
ghost use Rattle.open_files.specs.Sessions.{behind_digits, behind_number, session_from, session_of};

use itoa::Buffer;

/// The highest number of a session.
const MOST_SESSIONS: u8 = 64;

/// The session of a line, and the part behind its number and one space; none where the line doesn't begin with a session's number and one space.
pub fn session_of(line: &[u8]) -> Option<(u8, &[u8])>
    ensures part { IfSome result (λ part. session_of line.now ≡ Some (record { session = part.0; rest = part.1.now })) }
    ensures none { IfNone result (session_of line.now ≡ None) }
{
    session_from(line, 1, MOST_SESSIONS)
}

/// The same, of so many numbers from this one on.
#[tactic(auto, using(crate::proofs::Firsts::session_missed))]
fn session_from(line: &[u8], first: u8, count: u8) -> Option<(u8, &[u8])>
    requires { first + count ≤ 255 }
    ensures part { IfSome result (λ part. session_from line.now count first ≡ Some (record { session = part.0; rest = part.1.now })) }
    ensures none { IfNone result (session_from line.now count first ≡ None) }
{
    let mut number = first;
    let mut left = count;
    while left > 0 {
        if let Some(rest) = behind_number(line, number) {
            return Some((number, rest));
        }
        number += 1;
        left -= 1;
    }
    None
}

/// What stands behind a number and one space, where the line begins with them.
fn behind_number(line: &[u8], number: u8) -> Option<&[u8]>
    ensures rest { IfSome result (λ rest. behind_number number line.now ≡ Some rest.now) }
    ensures none { IfNone result (behind_number number line.now ≡ None) }
{
    let mut buffer = Buffer::new();
    behind_digits(line, buffer.format(number).as_bytes())
}

fn behind_digits<'l>(line: &'l [u8], digits: &[u8]) -> Option<&'l [u8]>
    ensures rest { IfSome result (λ rest. behind_digits digits.now line.now ≡ Some rest.now) }
    ensures none { IfNone result (behind_digits digits.now line.now ≡ None) }
{
    let long = digits.len();
    if line.len() <= long {
        return None;
    }
    if line[long] == b' ' && is_same(&line[..long], digits) {
        Some(&line[long + 1..])
    } else {
        None
    }
}

fn is_same(text: &[u8], other: &[u8]) -> bool
    ensures { result ≡ bytes_eq text.now other.now }
{
    text == other
}
