//! Laws of the layout, each as a function without a body.
ghost use Rattle.std.specs.Prelude.{[], ◌∷◌};
ghost use Rattle.volume_make.specs.Laws.{run, IsWorked, HeaderAccepted, HeaderReadBack, JournalsFound, NodesAreReadBack};

/// The parts of some volumes, in blocks: each with its first one and their number, from the bitmap to the catalog, then the last
/// blocks; then the number of blocks, the first free one, and the number of free ones. The sizes are the least and the greatest
/// ones, and some whose last sectors are in no block.
pub fn places_are_worked()
    ensures usual { IsWorked 16384 4096 2048 (run 1 1 ∷ run 2 1 ∷ run 3 256 ∷ run 259 16 ∷ run 275 16 ∷ run 291 64 ∷ run 2047 1 ∷ []) (2048 ∷ 355 ∷ 1692 ∷ []) }
    ensures small_blocks { IsWorked 16384 512 2048 (run 3 4 ∷ run 7 1 ∷ run 8 2048 ∷ run 2056 128 ∷ run 2184 128 ∷ run 2312 512 ∷ run 16382 2 ∷ []) (16384 ∷ 2824 ∷ 13558 ∷ []) }
    ensures large_blocks { IsWorked 16384 65536 512 (run 1 1 ∷ run 2 1 ∷ run 3 4 ∷ run 7 1 ∷ run 8 1 ∷ run 9 4 ∷ run 127 1 ∷ []) (128 ∷ 13 ∷ 114 ∷ []) }
    ensures odd { IsWorked 16385 4096 512 (run 1 1 ∷ run 2 1 ∷ run 3 64 ∷ run 67 16 ∷ run 83 16 ∷ run 99 64 ∷ run 2047 1 ∷ []) (2048 ∷ 163 ∷ 1884 ∷ []) }
    ensures left_over { IsWorked 131071 2048 512 (run 1 2 ∷ run 3 1 ∷ run 4 128 ∷ run 132 32 ∷ run 164 32 ∷ run 196 128 ∷ run 32767 0 ∷ []) (32767 ∷ 324 ∷ 32443 ∷ []) }
    ensures most_blocks { IsWorked 2147483648 4096 65536 (run 1 8192 ∷ run 8193 1 ∷ run 8194 8192 ∷ run 16386 16 ∷ run 16402 16 ∷ run 16418 64 ∷ run 268435455 1 ∷ []) (268435456 ∷ 16482 ∷ 268418973 ∷ []) }
    ensures most_bytes { IsWorked 2147483648 65536 65536 (run 1 32 ∷ run 33 1 ∷ run 34 512 ∷ run 546 1 ∷ run 547 1 ∷ run 548 4 ∷ run 16777215 1 ∷ []) (16777216 ∷ 552 ∷ 16776663 ∷ []) }
{}

/// The header of a volume that is made is read from its sector as it was made, and is accepted by a reader of headers.
pub fn fresh_header_is_accepted()
    ensures accepted { HeaderAccepted }
    ensures read_back { HeaderReadBack }
{}

/// The journal of a volume that is made is found by a reader, and is empty.
pub fn fresh_journal_is_found()
    ensures { JournalsFound }
{}

/// The nodes of a volume that is made are read as they were made, whatever the layout and the name.
pub fn fresh_nodes_are_read_back()
    ensures { NodesAreReadBack }
{}
