//! The ring of a journal: its offsets, and reads and writes that step over the wrap.
#![tactic(auto)]

mod list;
mod reading;
mod span;
mod writing;

pub use list::SectorList;
pub use reading::read_at;
pub use span::{Span, advance, used_bytes};
pub use writing::write_at;

#[cfg(test)]
mod tests {
    use super::*;

    // A journal of four sectors, the first of them its header.
    #[test]
    fn offsets_wrap_behind_the_header(rt: HostRuntime) {
        let span = Span {
            base: 10,
            size: 2_048,
        };
        for (at, by, want) in [
            (512, 0, 512),
            (1_536, 511, 2_047),
            (1_536, 512, 512),
            (1_536, 1_024, 1_024),
            (2_047, 1_536, 2_047),
        ] {
            assert_eq!(rt; advance(&span, at, by), want, "{at} and {by}");
        }
        for (start, end, want) in [
            (512, 512, 0),
            (512, 2_047, 1_535),
            (1_536, 1_024, 1_024),
            (1_025, 1_024, 1_535),
        ] {
            assert_eq!(rt; used_bytes(&span, start, end), want, "{start} to {end}");
        }
    }
}
