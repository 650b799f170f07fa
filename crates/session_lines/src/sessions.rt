//! Many sessions in one stream of lines.
ghost use Rattle.std.specs.Prelude.{◌≡◌, [], IsTrue};

use crate::releasing::release_all;
use crate::serving::serve;
use hfs_serving::{Ground, Speaker, Stop, ToTell, Volume};
use line_source::Line;
use open_files::Table;
use std::alloc::Global;

/// Serves lines of sessions.
#[derive(Drop)]
pub struct Sessions {
    alloc: Global,
    /// The files that sessions have open.
    table: Table,
    /// Files of an earlier run that the keeping folder has, the last one first.
    left: Vec<u32>,
}

impl Sessions {
    /// No session has a file open. These files, which the keeping folder has of an earlier run, are released ahead of the first line.
    pub fn new(alloc: Global, left: Vec<u32>) -> Sessions
        ensures table { result.table ≡ [] }
        ensures left { result.left ≡ left }
    {
        Sessions {
            alloc,
            table: Table::new(alloc),
            left,
        }
    }

    /// Whether none of the files of an earlier run is left to be released, as behind the begin of a batch.
    pub fn has_released(&self) -> bool
        ensures { IsTrue result → self.now.left.items ≡ [] }
    {
        is_none(self.left.as_slice())
    }
}

fn is_none(files: &[u32]) -> bool
    ensures { IsTrue result → files.now ≡ [] }
{
    match files {
        [] => true,
        _ => false,
    }
}

impl Speaker for Sessions {
    ghost use Rattle.std.specs.Prelude.{◌*◌, ◌^◌};
    ghost use Rattle.session_lines.specs.Turns.{AsksFor, BrokenSessions, spoke_with};

    ghost spoke = { λ sessions. spoke_with sessions.table sessions.left.items };

    ghost broken = { BrokenSessions };

    ghost whole = { λ sessions start speech spoke. spoke.spoken };

    // (what a batch changed is durable before any of its replies is told)
    ghost ends = { λ line. ⊥ };

    ghost asks = { AsksFor };

    // (nine times for each command that is done behind housekeeping, of which a stage has one, and there are sixteen stages; ahead of the first line there
    // are those of each file of an earlier run)
    ghost often = { 144 * 2 ^ 32 };

    fn begin<V: Volume, G: Ground>(&mut self, volume: &mut V, base: &mut G) -> Result<(), Stop> {
        release_all(self.alloc, volume, base, &self.table, &mut self.left)
    }

    fn serve_line<V: Volume, G: Ground>(
        &mut self,
        volume: &mut V,
        base: &mut G,
        number: u64,
        line: &Line,
        first: bool,
        told: &mut ToTell,
    ) -> Result<bool, Stop> {
        // (a batch's begin leaves none)
        if !self.left.as_slice().is_empty() {
            return Err(Stop::Steps);
        }
        serve(
            self.alloc,
            volume,
            base,
            number,
            &mut self.table,
            line,
            first,
            told,
        )
    }

    fn ends_batch(&self, _line: &Line) -> bool {
        false
    }
}
