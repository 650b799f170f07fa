//! A file in a volume.
use crate::sectors::Sectors;
use alloc_bitmap::Bitmap;
use fork_map::ExtentList;

/// A file in a volume, and the bytes that it ought to have.
#[derive(Drop)]
pub struct File {
    pub space: Sectors,
    pub map: Bitmap,
    pub fork: ExtentList,
    pub block: u32,
    pub size: u64,
    pub plain: Vec<u8>,
}
