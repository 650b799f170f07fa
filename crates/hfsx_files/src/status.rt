//! The exit statuses, besides those of the server.

/// The words are wrong.
pub(crate) const WRONG_WORDS: u8 = 2;

/// Standard input, or the archive that came by it, could not be read to its end.
pub(crate) const NO_INPUT: u8 = 4;

/// Standard output failed.
pub(crate) const NO_OUTPUT: u8 = 5;

/// There was no memory.
pub(crate) const NO_MEMORY: u8 = 6;

/// The image or the folder could not be opened.
pub(crate) const NO_IMAGE: u8 = 8;

/// All was served, and something was left out.
pub(crate) const LEFT_OUT: u8 = 9;

/// What was wanted could not be begun, or was refused.
pub(crate) const REFUSED: u8 = 1;
