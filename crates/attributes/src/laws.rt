//! Laws of attributes, as functions without a body: the calls do nothing, and are there for their contracts.
ghost use Rattle.std.specs.Prelude.{ℕ, List};
ghost use Rattle.hx_bytes.specs.declared.extents.Extent.{Extent};
ghost use Rattle.btree_node.specs.Levels.{Pair};
ghost use Rattle.hfs_volume.specs.Changes.{DropsAttribute, SetsFork};
ghost use Rattle.attributes.specs.Maps.{DeletesValue, InsertsValue};
ghost use Rattle.attributes.specs.Values.{AreValued, SetsValue};
ghost use Rattle.attributes.specs.declared.value.ValueAt.TheVariants as held;

/// Setting a short value is an insertion into the map from names to values.
pub fn values_are_inserted()
    ensures { (id : ℕ) (name value : List ℕ) (old new : List Pair) → SetsValue id name value old new → InsertsValue id name (held.Inline value) old new }
{}

/// So is setting one in a fork.
pub fn forks_are_inserted()
    ensures { (id : ℕ) (name : List ℕ) (size : ℕ) (extents : List Extent) (old new : List Pair) → SetsFork id name size extents old new → InsertsValue id name (held.Blocks size extents) old new }
{}

/// Dropping an attribute is a deletion from the map from names to values.
pub fn values_are_deleted()
    ensures { (id : ℕ) (name : List ℕ) (old new : List Pair) → DropsAttribute id name old new → DeletesValue id name old new }
{}
