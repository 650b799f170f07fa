//! `rm`: a file loses its only name.

/// A name that a file loses: the CNID of the folder that it stands in, and whether it is a link.
#[derive(Clone, Copy)]
pub struct Losing {
    pub parent: u32,
    pub link: bool,
}
