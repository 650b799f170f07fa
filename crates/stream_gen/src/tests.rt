//! Lines of the stream, written out.
use crate::line;
use hx_bytes::OutOfMemory;

/// Seed, number and text: the first nine lines of seed 7, and one whose product needs more than 64 bits.
const LINES: [(u64, u64, &[u8]); 10] = [
    (7, 0, b"mkdir /d0"),
    (7, 1, b"create /d0/a"),
    (7, 2, b"write /d0/a 0 =00000021"),
    (7, 3, b"ln /d0/a /d0/b"),
    (7, 4, b"setattr /d0 k =00000035"),
    (7, 5, b"mv /d0/b /d0/c"),
    (7, 6, b"write /d0/c 4 =00000049"),
    (7, 7, b"rm /d0/a"),
    (7, 8, b"mkdir /d1"),
    (
        u64::MAX,
        18446744073709551610,
        b"write /d2305843009213693951/a 0 =10901765",
    ),
];

#[test]
fn lines_are_those_of_their_seed(rt: HostRuntime) -> Result<(), OutOfMemory> {
    for (seed, i, text) in LINES.iter() {
        let made = line(rt.alloc(), *seed, *i)?;
        assert!(rt; made.as_slice() == *text);
    }
    Ok(())
}
