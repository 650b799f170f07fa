//! Where the pairs with each parent begin, as far as that is told without a search.
use crate::kinds::parent_of;
use fsck_scan::Pairs;
use hx_bytes::OutOfMemory;
use std::alloc::Global;

/// CNIDs are told up to so many times the number of pairs.
const MOST_A_PAIR: usize = 8;

/// How many CNIDs are told: all up to the last parent, or none where they are many more than the pairs.
fn how_many(pairs: &Pairs) -> usize {
    let many = pairs.len();
    if many == 0 {
        return 0;
    }
    let last = parent_of(pairs.key(many - 1)) as usize;
    if last / MOST_A_PAIR > many {
        return 0;
    }
    last + 1
}

/// Notes a place for a CNID that has none yet.
fn note(places: &mut Vec<u32>, id: u32, at: usize) {
    let id = id as usize;
    if id >= places.len() {
        return;
    }
    if at > u32::MAX as usize {
        return;
    }
    if places[id] == 0 {
        places[id] = at as u32;
    }
}

/// For each CNID the place of the first pair whose parent it is, or 0. Nothing rests on these places: who looks there sees whether it is so.
pub(crate) fn first_places(alloc: Global, pairs: &Pairs) -> Result<Vec<u32>, OutOfMemory> {
    let mut places = vec![in alloc; 0; how_many(pairs)]?;
    for at in 0..pairs.len() {
        note(&mut places, parent_of(pairs.key(at)), at);
    }
    Ok(places)
}

/// The place that is told for a CNID, or 0.
pub(crate) fn place_near(places: &[u32], id: u32) -> usize {
    let id = id as usize;
    if id >= places.len() {
        return 0;
    }
    places[id] as usize
}
