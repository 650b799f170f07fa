//! How reading and writing records undo each other. The calls do nothing: they are there for their
//! contracts.
ghost use Rattle.std.specs.Prelude.{◌≡◌, ℕ, List, None};
ghost use Rattle.hx_bytes.specs.Field.{AreBytes};
ghost use Rattle.cat_records.specs.Records.{catalog_bytes, catalog_fault, catalog_of};
ghost use Rattle.cat_records.specs.Attributes.{attr_bytes, attr_fault, attr_of, without_reserved};
ghost use Rattle.cat_records.specs.Fits.{FitsAttr, FitsRecord};
ghost use Rattle.cat_records.specs.declared.record.CatRecord.{CatRecord};
ghost use Rattle.cat_records.specs.declared.attribute.AttrRecord.{AttrRecord};

/// A catalog record that was written is a record and is read as it was, and one that was read is
/// written as it stood.
pub fn catalog_round_trip()
    ensures spelled { (rec : CatRecord) → FitsRecord rec → catalog_fault (catalog_bytes rec) ≡ None }
    ensures read_back { (rec : CatRecord) → FitsRecord rec → catalog_of (catalog_bytes rec) ≡ rec }
    ensures written_back { (value : List ℕ) → AreBytes value → catalog_fault value ≡ None → catalog_bytes (catalog_of value) ≡ value }
{}

/// An attribute record that was written is a record and is read as it was, and one that was read is
/// written as it stood, but for reserved words and the pad, which become zero.
pub fn attr_round_trip()
    ensures spelled { (rec : AttrRecord) → FitsAttr rec → attr_fault (attr_bytes rec) ≡ None }
    ensures read_back { (rec : AttrRecord) → FitsAttr rec → attr_of (attr_bytes rec) ≡ rec }
    ensures written_back { (value : List ℕ) → AreBytes value → attr_fault value ≡ None → attr_bytes (attr_of value) ≡ without_reserved value }
{}
