//! That what the weight of a command counts suffices for its edits, in each of the three trees, and what a cut step counts for its own: laws,
//! each as a function without a body.
#![tactic(auto)]

ghost use Rattle.tree_weights.specs.Cutting.{CutSaysEnough, CutsHaveRoom, CutsTakeTheirLoad, TreesHoldThree};
ghost use Rattle.tree_weights.specs.Weights.{CommandsHaveRoom, EditsHaveRoom, EditsTakeTheirLoad, GoAsDeepAsCounted, GrowsByEnough, LoadIsOfParts, LoadSaysEnough, WeightSaysEnough};

/// So many edits make a tree no deeper than the load counts.
pub fn edits_go_as_deep_as_counted()
    ensures { GoAsDeepAsCounted }
{}

/// The nodes by which a tree grows suffice for what its edits may take.
pub fn trees_grow_by_enough()
    ensures { GrowsByEnough }
{}

/// A tree that has grown as the load says has room for its edits.
pub fn edits_have_room()
    ensures { EditsHaveRoom }
{}

/// The edits of a tree and its growth put no more sectors than the load counts.
pub fn edits_take_their_load()
    ensures { EditsTakeTheirLoad }
{}

/// A load says that nothing is missing.
pub fn a_load_says_enough()
    ensures { LoadSaysEnough }
{}

/// The weight of a command says that nothing is missing for its edits, its data and what it does to values.
pub fn a_weight_says_enough()
    ensures { WeightSaysEnough }
{}

/// Each of the three trees has room for a command's edits.
pub fn commands_have_room()
    ensures { CommandsHaveRoom }
{}

/// What the load counts for each tree is a part of it.
pub fn a_load_is_of_parts()
    ensures { LoadIsOfParts }
{}

/// A node of each tree of a sound volume holds three index records with the longest keys.
pub fn trees_hold_three()
    ensures { TreesHoldThree }
{}

/// The load of a cut step says that nothing is missing.
pub fn a_cut_load_says_enough()
    ensures { CutSaysEnough }
{}

/// The extents tree has room for the one edit of a cut step, which needs no free node.
pub fn cuts_have_room()
    ensures { CutsHaveRoom }
{}

/// That edit puts no more sectors than the load of a cut step counts.
pub fn cuts_take_their_load()
    ensures { CutsTakeTheirLoad }
{}
