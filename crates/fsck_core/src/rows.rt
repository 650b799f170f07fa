//! The entries of a catalog as rows, in the order of their keys.
ghost use Rattle.std.specs.Prelude.{◌≡◌, ◌≤◌, ◌==◌, nat_lt, length, count_by};
ghost use Rattle.std.specs.List.Sorted.{IsNonDecreasingBy, IsPartitionPoint};
ghost use Rattle.std.specs.Prelude.{true, false};
ghost use Rattle.fsck_core.specs.Rows.{rows_under};

/// What the rules on counts and ids look at in an entry: a folder or a file of the catalog.
#[derive(Clone, Copy, Debug, PartialEq, Eq)]
pub struct Row {
    /// The CNID of the folder that it stands in.
    pub parent: u32,
    pub id: u32,
    /// Of a folder, the number of entries that it says.
    pub valence: u32,
    /// Of a link, the number of the file that it names; of that file, the number of its links.
    pub special: u32,
    pub folder: bool,
    pub file: bool,
    pub link: bool,
    /// Of a file, whether no extent of its record has a block.
    pub bare: bool,
}

/// How many rows stand before the first whose parent isn't below this one.
pub(crate) fn rows_below(rows: &[Row], parent: u64) -> usize
    ensures inside { result ≤ length rows.now }
    ensures point { IsNonDecreasingBy (λ row. row.parent) rows.now → IsPartitionPoint (λ row. nat_lt row.parent parent ≡ true) (λ row. nat_lt row.parent parent ≡ false) rows.now result }
{
    rows.partition_point(
        |row: &Row| -> bool
            ensures { result ≡ nat_lt row.now.parent parent }
        { (row.parent as u64) < parent },
    )
}

/// How many rows have this parent, found by halves.
pub fn count_under(rows: &[Row], parent: u32) -> u64
    ensures { IsNonDecreasingBy (λ row. row.parent) rows.now → result ≡ rows_under rows.now parent }
{
    let from = rows_below(rows, parent as u64);
    let to = rows_below(rows, parent as u64 + 1);
    (to as u64).saturating_sub(from as u64)
}

/// How many rows are files.
pub fn count_files(rows: &[Row]) -> u64
    ensures { result ≡ count_by (λ row. row.file) rows.now }
{
    let mut count = 0;
    for row in rows {
        if row.file {
            count += 1;
        }
    }
    count
}

/// How many rows are folders.
pub fn count_folders(rows: &[Row]) -> u64
    ensures { result ≡ count_by (λ row. row.folder) rows.now }
{
    let mut count = 0;
    for row in rows {
        if row.folder {
            count += 1;
        }
    }
    count
}
