//! Laws of a volume that was just made, each as a function without a body.
ghost use Rattle.fresh_volume.specs.Fresh.{FreshTreesFound, FreshPairsFound, FreshBitsFound, FreshTreesStand, FreshJournalEmpty, FreshRecordsFound, FreshEntriesSound, FreshAttributesSound, FreshBlocksSound, FreshTreeFound, FormattedIsSound};

/// The three trees of a volume that was just made are found in its content with the nodes that they were made with.
pub fn fresh_trees_are_found()
    ensures { FreshTreesFound }
{}

/// The header of a volume that was just made is open to a mount, and its journal is found and is empty: the content stands for itself.
pub fn fresh_journal_is_empty()
    ensures { FreshJournalEmpty }
{}

/// The catalog of a volume that was just made has six pairs, and the two other trees have none.
pub fn fresh_pairs_are_found()
    ensures { FreshPairsFound }
{}

/// The allocation file of a volume that was just made has the bits of the used blocks, and no others.
pub fn fresh_bits_are_found()
    ensures { FreshBitsFound }
{}

/// The extents overflow file, the catalog and the attributes file of a volume that was just made are trees.
pub fn fresh_trees_stand()
    ensures { FreshTreesStand }
{}

/// The records of a volume that was just made are the six that it was made with, and there are no others.
pub fn fresh_records_are_found()
    ensures { FreshRecordsFound }
{}

/// The entries and links of a volume that was just made are those of a sound volume.
pub fn fresh_entries_are_sound()
    ensures { FreshEntriesSound }
{}

/// The two files of the journal of a volume that was just made are where the header and the info block say, and it has no attributes.
pub fn fresh_attributes_are_sound()
    ensures { FreshAttributesSound }
{}

/// The headers, the special files, the forks and the bitmap of a volume that was just made are those of a sound volume.
pub fn fresh_blocks_are_sound()
    ensures { FreshBlocksSound }
{}

/// The tree of a volume that was just made is the root alone.
pub fn fresh_tree_is_found()
    ensures { FreshTreeFound }
{}

/// A volume that was just made is sound, its tree is the root alone, and it can be mounted.
pub fn formatted_is_sound()
    ensures { FormattedIsSound }
{}
