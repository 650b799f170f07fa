//! Laws of the records of a fork.
ghost use Rattle.overflow.specs.Laws.{StoredIsLoaded, UnusedHaveNoBlocks, SeventeenHaveTwo};

/// What is stored of a fork is what is loaded, and a list of seventeen extents shows how it is cut.
pub fn stored_forks_are_loaded()
    ensures round_trip { StoredIsLoaded }
    ensures unused { UnusedHaveNoBlocks }
    ensures worked { SeventeenHaveTwo }
{}
