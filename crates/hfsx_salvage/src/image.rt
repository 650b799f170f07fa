//! The image as sectors that are only read.

use file_rig::{Act, Failure, Image, Place};
use hx_bytes::Sector;
use salvage_tree::Sectors;

/// An image that is open for reading, and how many whole sectors it has.
#[derive(Drop)]
pub struct ImageSectors<'a> {
    image: Image<'a>,
    sectors: u64,
}

impl<'a> ImageSectors<'a> {
    /// Opens an image for reading alone.
    pub fn open(rt: &'a HostRuntime, name: &'a str) -> Result<ImageSectors<'a>, Failure> {
        let (image, sectors) = Image::to_check(rt, name)?;
        Ok(ImageSectors { image, sectors })
    }
}

impl<'a> Sectors for ImageSectors<'a> {
    fn count(&self) -> u64 {
        self.sectors
    }

    fn read(&mut self, first: u64, into: &mut [Sector]) -> bool {
        self.image.read_run(first, into).is_ok()
    }
}

/// Tells on standard error why an image can't be opened.
pub fn tell_unopened(rt: &HostRuntime, failure: &Failure, image: &str) {
    let error = failure.error;
    let _ = match failure.act {
        Act::Locking => eprintln!(rt; "hfsx-files: locking {image}: {error}"),
        Act::Measuring => eprintln!(rt; "hfsx-files: asking for the size of {image}: {error}"),
        _ => eprintln!(rt; "hfsx-files: opening {image}: {error}"),
    };
}
