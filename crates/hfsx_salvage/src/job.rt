//! The whole job: the image is read, and each file that was found is written and told.

use crate::content::{Copied, PIECE, copy_fork, read_small};
use crate::folder::{Target, settle_file};
use crate::image::{ImageSectors, tell_unopened};
use crate::lines::{Report, Told};
use crate::plan::{FolderItem, Item, Plan, fork_of};
use crate::verdict::{Signs, Verdict, judge};
use hx_bytes::{Extent, Sector};
use salvage_tree::{Bits, Copy, Fork, ForkKind, Links, Sectors, Survey, read_survey};
use std::alloc::{AllocError, Global};
use std::collections::BTreeMap;
use std::io;

/// The status where there is no volume, or the folder can't be had.
const NO_VOLUME: u8 = 1;

/// The status where standard output failed.
const NO_OUTPUT: u8 = 5;

/// The status where the image can't be opened.
const NO_IMAGE: u8 = 8;

/// The status where a file isn't whole, or something is left out.
const NOT_WHOLE: u8 = 9;

/// Saves the files of a volume in an image into a folder, and tells of each. What the volume's structures say needn't be true.
pub fn salvage(rt: &HostRuntime, image: &str, folder: &str, json: bool) -> Result<u8, AllocError> {
    let mut source = match ImageSectors::open(rt, image) {
        Ok(source) => source,
        Err(failure) => {
            tell_unopened(rt, &failure, image);
            return Ok(NO_IMAGE);
        }
    };
    let Some(survey) = read_survey(rt.alloc(), &mut source)? else {
        let _ = eprintln!(rt;
            "hfsx-files: {image}: no volume: neither of its headers can be read as one"
        );
        return Ok(NO_VOLUME);
    };
    if survey.volume.copy == Copy::Alternate {
        let _ = eprintln!(rt;
            "hfsx-files: {image}: the first header can't be used: the alternate at the end is read"
        );
    }
    if survey.volume.was_left_open() {
        let _ = eprintln!(rt;
            "hfsx-files: {image}: the volume wasn't unmounted: what its journal alone has isn't read"
        );
    }
    let target = match Target::open(rt, folder) {
        Ok(target) => target,
        Err(error) => {
            let _ = eprintln!(rt; "hfsx-files: {folder}: {error}");
            return Ok(NO_VOLUME);
        }
    };
    let mut job = Job {
        rt,
        survey,
        target,
        report: Report::new(rt, json),
        room: vec![in rt.alloc(); [0; 512]; PIECE]?,
        first: BTreeMap::new(rt.alloc()),
    };
    job.work(&mut source)?;
    job.report.tell_counts()?;
    if job.report.failed {
        Ok(NO_OUTPUT)
    } else if job.report.counts.are_all_whole() {
        Ok(0)
    } else {
        Ok(NOT_WHOLE)
    }
}

/// A job, and how far it is.
#[derive(Drop)]
struct Job<'a> {
    rt: &'a HostRuntime,
    survey: Survey,
    target: Target<'a>,
    report: Report<'a>,
    room: Vec<Sector>,
    // Where the data of a file was written, and what was said of it.
    first: BTreeMap<usize, First>,
}

/// The first name of a file that has several.
#[derive(Drop)]
struct First {
    path: String,
    verdict: Verdict,
    bytes: u64,
}

/// What is known of the blocks of all files.
#[derive(Drop)]
struct Blocks {
    // For each file of the catalog and each of its forks whether it shares a block.
    shared: Vec<bool>,
    // Whether the bitmap has blocks in use that nothing uses.
    has_unclaimed: bool,
}

// The number of a fork among those of all files.
fn owner_of(source: usize, kind: ForkKind) -> usize {
    let twice = source.saturating_mul(2);
    match kind {
        ForkKind::Data => twice,
        ForkKind::Resource => twice.saturating_add(1),
    }
}

impl<'a> Job<'a> {
    fn work(&mut self, source: &mut ImageSectors<'_>) -> Result<(), AllocError> {
        let blocks = read_blocks(self.rt.alloc(), source.count(), &self.survey)?;
        let links = Links::find(self.rt.alloc(), &self.survey.catalog)?;
        let mut plan = Plan::new(self.rt.alloc(), &self.survey, &links)?;
        plan.sort();
        for left in plan.left_out.as_slice() {
            self.report
                .leave_out(left.path.as_str(), left.reason.text());
        }
        for folder in plan.folders.as_slice() {
            self.make_folder(folder)?;
        }
        for item in plan.items.as_slice() {
            if !item.is_symlink {
                self.save(source, &blocks, item)?;
            }
        }
        for folder in plan.folders.iter().rev() {
            self.settle_folder(folder)?;
        }
        for item in plan.items.as_slice() {
            if item.is_symlink {
                self.save_symlink(source, &blocks, item)?;
            }
        }
        Ok(())
    }

    fn lose(&mut self, path: &str, error: io::Error) -> Result<(), AllocError> {
        let why = error.to_string(self.rt.alloc())?;
        self.report.leave_out(path, why.as_str());
        Ok(())
    }

    fn make_folder(&mut self, folder: &FolderItem) -> Result<(), AllocError> {
        match self.target.make_folder(folder.path.as_str()) {
            Ok(()) => {
                self.report.counts.folders = self.report.counts.folders.saturating_add(1);
                Ok(())
            }
            Err(error) => self.lose(folder.path.as_str(), error),
        }
    }

    fn settle_folder(&mut self, folder: &FolderItem) -> Result<(), AllocError> {
        match self
            .target
            .settle_folder(folder.path.as_str(), folder.facts)
        {
            Ok(()) => Ok(()),
            Err(error) => self.lose(folder.path.as_str(), error),
        }
    }

    // Where a file is to be written: at its path, or where another one of this run has that, by its id.
    fn path_of(&self, item: &Item) -> Result<String, AllocError> {
        let alloc = self.rt.alloc();
        if self.target.has_made(item.path.as_str()) {
            let id = item.id;
            return match item.kind {
                ForkKind::Data => format!(in alloc; "lost/{id}"),
                ForkKind::Resource => format!(in alloc; "lost/{id}.rsrc"),
            };
        }
        String::from_str(alloc, item.path.as_str())
    }

    // Writes a file and tells of it.
    fn save(
        &mut self,
        source: &mut ImageSectors<'_>,
        blocks: &Blocks,
        item: &Item,
    ) -> Result<(), AllocError> {
        let path = self.path_of(item)?;
        let fork = fork_of(self.rt.alloc(), &self.survey, item)?;
        if self.save_link(item, path.as_str(), fork.size)? {
            return Ok(());
        }
        match self.write(source, item, &fork, path.as_str()) {
            Ok(copied) => {
                let signs = self.signs(blocks, item, &fork, copied.whole);
                let verdict = judge(&self.survey.volume, &fork, signs);
                self.tell(item, path.as_str(), verdict, copied.bytes, fork.size)?;
                if item.is_linked {
                    self.first.insert(
                        item.source,
                        First {
                            path,
                            verdict,
                            bytes: copied.bytes,
                        },
                    )?;
                }
                Ok(())
            }
            Err(error) => self.lose(path.as_str(), error),
        }
    }

    // Makes one more name of a file that was written, if it was and there can be one.
    fn save_link(&mut self, item: &Item, path: &str, size: u64) -> Result<bool, AllocError> {
        if !item.is_linked {
            return Ok(false);
        }
        let Some(first) = self.first.get(&item.source) else {
            return Ok(false);
        };
        if self.target.link(first.path.as_str(), path).is_err() {
            return Ok(false);
        }
        let verdict = first.verdict;
        let bytes = first.bytes;
        self.tell(item, path, verdict, bytes, size)?;
        Ok(true)
    }

    // Writes the bytes of a file, and gives it its mode and date.
    fn write(
        &mut self,
        source: &mut ImageSectors<'_>,
        item: &Item,
        fork: &Fork,
        path: &str,
    ) -> io::Result<Copied> {
        let file = self.target.make_file(path)?;
        let copied = copy_fork(
            source,
            &self.survey.volume,
            fork,
            self.room.as_mut_slice(),
            &file,
        )?;
        settle_file(&file, item.facts)?;
        Ok(copied)
    }

    // Makes a symbolic link and tells of it. What can't be one becomes a file.
    fn save_symlink(
        &mut self,
        source: &mut ImageSectors<'_>,
        blocks: &Blocks,
        item: &Item,
    ) -> Result<(), AllocError> {
        let path = self.path_of(item)?;
        let fork = fork_of(self.rt.alloc(), &self.survey, item)?;
        let Some(to) = self.link_text(source, &fork)? else {
            return self.save(source, blocks, item);
        };
        match self.target.make_symlink(path.as_str(), to.as_str()) {
            Ok(()) => {
                let signs = self.signs(blocks, item, &fork, true);
                let verdict = judge(&self.survey.volume, &fork, signs);
                self.tell(item, path.as_str(), verdict, fork.size, fork.size)
            }
            Err(error) => self.lose(path.as_str(), error),
        }
    }

    // The path that a symbolic link leads to, if it can be one here.
    fn link_text(
        &mut self,
        source: &mut ImageSectors<'_>,
        fork: &Fork,
    ) -> Result<Option<String>, AllocError> {
        let Some(bytes) = read_small(source, &self.survey.volume, fork, self.room.as_mut_slice())
        else {
            return Ok(None);
        };
        match str::from_utf8(bytes) {
            Ok(text) => {
                if text.is_empty() || text.contains('\0') {
                    return Ok(None);
                }
                Ok(Some(String::from_str(self.rt.alloc(), text)?))
            }
            Err(_) => Ok(None),
        }
    }

    fn signs(&self, blocks: &Blocks, item: &Item, fork: &Fork, read: bool) -> Signs {
        let owner = owner_of(item.source, item.kind);
        Signs {
            read: read && !item.is_compressed,
            shared: blocks.shared.get(owner).copied().unwrap_or(false),
            doubted: blocks.has_unclaimed && has_free(&self.survey.bits, fork.extents.as_slice()),
        }
    }

    fn tell(
        &mut self,
        item: &Item,
        path: &str,
        verdict: Verdict,
        bytes: u64,
        size: u64,
    ) -> Result<(), AllocError> {
        self.report.tell(&Told {
            verdict,
            bytes,
            size,
            id: item.id,
            kind: item.kind,
            path,
        })
    }
}

// Whether the bitmap says that one of these blocks is free.
fn has_free(bits: &Bits, extents: &[Extent]) -> bool {
    for extent in extents {
        let start = u64::from(extent.start);
        let end = start.saturating_add(u64::from(extent.count));
        if bits.has_clear(start, end) {
            return true;
        }
    }
    false
}

// What the files and the special files of a volume use.
fn read_blocks(alloc: Global, sectors: u64, survey: &Survey) -> Result<Blocks, AllocError> {
    let mut claims = survey.special_claims(alloc, sectors)?;
    let files = survey.catalog.files.as_slice();
    for (at, file) in files.iter().enumerate() {
        for kind in [ForkKind::Data, ForkKind::Resource] {
            let fork = survey.fork(alloc, file, kind)?;
            claims.add(owner_of(at, kind), fork.extents.as_slice())?;
        }
    }
    let shared = claims.shared(alloc, files.len().saturating_mul(2))?;
    let unclaimed = claims.unclaimed(alloc, &survey.bits, survey.blocks(sectors))?;
    Ok(Blocks {
        shared,
        has_unclaimed: !unclaimed.is_empty(),
    })
}
