//! Where a journal has the bytes of a sector.
ghost use Rattle.jnl_replay.specs.Placed.{ArePlaced};
ghost use Rattle.jnl_replay.specs.Text.{IsText};

use crate::run_index::RunIndex;
use crate::text::Text;

/// The sectors that a journal's lists name, with the places of their last blocks in the text, run by run.
#[derive(Drop)]
pub struct Peek {
    pub text: Text,
    pub sectors: u64,
    pub index: RunIndex,
    ghost fits: { IsText sectors text },
    ghost placed: { ArePlaced text.length index },
}
