//! Power fails while a file takes the place of another.
use crate::few::{Few, fresh_few};
use crate::runs::{PIECE, run_lines, told_by};
use crate::stops::{Judge, Tried, try_stops};
use hx_bytes::OutOfMemory;
use mem_disk::MemImage;
use std::alloc::Global;

/// A replacement: what is done before it, its line, and what is told before and behind it.
#[derive(Clone, Copy)]
pub struct Replacement {
    made: &'static [u8],
    line: &'static [u8],
    before: &'static [u8],
    behind: &'static [u8],
}

/// A file takes the place of one that has another name too.
pub const ONE_OF_TWO: Replacement = Replacement {
    made: b"create /a\nwrite /a 0 =A\ncreate /b\nwrite /b 0 =BB\nln /b /c\n",
    line: b"mv /a /b\n",
    before: b"ok 3 a b c\nok =BB\nok =BB\n",
    behind: b"ok 2 b c\nok =A\nok =BB\n",
};

/// It takes the last of several names of that file.
pub const LAST_OF_TWO: Replacement = Replacement {
    made: b"create /a\nwrite /a 0 =A\ncreate /c\nwrite /c 0 =BB\nln /c /b\nrm /c\nmkdir /c\n",
    line: b"mv /a /b\n",
    before: b"ok 3 a b c/\nok =BB\nno IsFolder\n",
    behind: b"ok 2 b c/\nok =A\nno IsFolder\n",
};

/// It takes the only name that the file ever had.
pub const ONLY_ONE: Replacement = Replacement {
    made: b"create /a\nwrite /a 0 =A\ncreate /b\nwrite /b 0 =BB\n",
    line: b"mv /a /b\n",
    before: b"ok 2 a b\nok =BB\nno NotFound\n",
    behind: b"ok 1 b\nok =A\nno NotFound\n",
};

/// Stops the replacement after each call that wrote, and mounts the image of this choice: the name is that of the old file or of the new one.
pub fn try_replacement(alloc: Global, it: &Replacement, choice: u64) -> Result<Tried, OutOfMemory> {
    let mut made = Few::over(alloc, &fresh_few(alloc)?)?;
    run_lines(alloc, &mut made, it.made)?;
    let start = made.rig.image(alloc, 1)?;
    try_stops(alloc, &start, it.line, PIECE, choice, it)
}

impl Judge for Replacement {
    fn is_right(
        &self,
        alloc: Global,
        image: &MemImage,
        _answered: u64,
    ) -> Result<bool, OutOfMemory> {
        let told = told_by(alloc, image, b"ls /\nread /b 0 9\nread /c 0 9\n")?;
        Ok(match told {
            Some(told) => told.as_slice() == self.before || told.as_slice() == self.behind,
            None => false,
        })
    }
}
