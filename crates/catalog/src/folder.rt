//! What a folder has.

use cat_records::CatRecord;
use hx_bytes::{Listed, Units};

/// A name in a folder, and the record under it.
#[derive(Drop)]
pub struct Child {
    pub name: Units,
    pub rec: CatRecord,
}

/// Names in a folder with their records.
pub type Children = Listed<Child>;
