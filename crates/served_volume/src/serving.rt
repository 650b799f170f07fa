//! A whole volume, served within batches.
ghost use Rattle.served_volume.specs.Knowing.{Knows};
ghost use Rattle.served_volume.specs.Wanting.{ServedWants};

use crate::answering::performed;
use crate::asking::do_asked;
use crate::flags::is_compressed;
use crate::linking::link_read;
use crate::renewing::{put_in_place, with_shrunk};
use crate::served::ServedVolume;
use crate::tidied::next_of;
use hfs_language::{Path, Refusal};
use hfs_model::Sight;
use hfs_serving::{Ground, Next, Performed, Recalled, Volume};
use hfs_volume::{Asked, aside_is_free};
use hx_bytes::{Bytes, Trouble, Units};
use std::alloc::Global;
use volume_step::tidy;

impl Volume for ServedVolume {
    ghost knows = { λ served space capacity committed now shrunk. Knows served.volume capacity committed now shrunk space };

    ghost wants = { ServedWants };

    fn attach<G: Ground>(alloc: Global, base: &mut G, capacity: u64) -> Result<Self, Trouble> {
        let _before = base.pending();
        let found = volume_base::Volume::attach(alloc, base, capacity);
        let _after = base.pending();
        base.look();
        let sectors = base.sectors();
        match found {
            Ok(volume) => Ok(ServedVolume {
                volume,
                alloc,
                sectors,
            }),
            Err(trouble) => Err(trouble),
        }
    }

    fn tidy_step<G: Ground>(&mut self, base: &mut G) -> Result<Next, Trouble> {
        if self.is_elsewhere(base) {
            return Err(Trouble::Memory);
        }
        let fresh = base.pending() == 0;
        let came = tidy(self.alloc, &mut self.volume, base);
        self.volume.filling = None;
        base.look();
        match came {
            Ok(came) => next_of(fresh, came),
            Err(trouble) => Err(trouble),
        }
    }

    fn perform<G: Ground>(
        &mut self,
        base: &mut G,
        number: u64,
        asked: &Asked,
    ) -> Result<Performed, Trouble> {
        if self.is_elsewhere(base) {
            return Err(Trouble::Memory);
        }
        let outcome = do_asked(self.alloc, &mut self.volume, base, number, asked);
        base.look();
        match outcome {
            Ok(outcome) => Ok(performed(outcome)),
            Err(trouble) => Err(trouble),
        }
    }

    fn read_id<G: Ground>(
        &mut self,
        base: &mut G,
        id: u32,
        from: u64,
        long: u32,
    ) -> Result<Option<Bytes>, Trouble> {
        if self.is_elsewhere(base) {
            return Err(Trouble::Memory);
        }
        let read = self.volume.read_id(self.alloc, base, id, from, long);
        base.look();
        read
    }

    fn look_in<G: Ground>(
        &mut self,
        base: &mut G,
        parent: u32,
        name: &Units,
    ) -> Result<Sight, Trouble> {
        if self.is_elsewhere(base) {
            return Err(Trouble::Memory);
        }
        let seen = self.volume.look(self.alloc, base, parent, name);
        base.look();
        seen
    }

    fn read_link<G: Ground>(
        &mut self,
        base: &mut G,
        path: &Path,
    ) -> Result<Result<Option<Bytes>, Refusal>, Trouble> {
        if self.is_elsewhere(base) {
            return Err(Trouble::Memory);
        }
        let read = self.volume.readlink(self.alloc, base, path);
        base.look();
        link_read(read)
    }

    fn is_compressed<G: Ground>(&mut self, base: &mut G, path: &Path) -> Result<bool, Trouble> {
        if self.is_elsewhere(base) {
            return Err(Trouble::Memory);
        }
        let found = is_compressed(self.alloc, &mut self.volume, base, path);
        base.look();
        found
    }

    fn recall<G: Ground>(&self, _base: &G) -> Recalled {
        Recalled {
            capacity: self.volume.capacity,
            shrunk: self.volume.shrunk,
        }
    }

    fn renew<G: Ground>(&mut self, base: &mut G, recalled: Recalled) -> Result<(), Trouble> {
        aside_is_free();
        let _before = base.pending();
        let found = volume_base::Volume::attach(self.alloc, base, recalled.capacity);
        let _after = base.pending();
        base.look();
        let sectors = base.sectors();
        match found {
            Ok(volume) => {
                put_in_place(&mut self.volume, with_shrunk(volume, recalled.shrunk));
                self.sectors = sectors;
                Ok(())
            }
            Err(trouble) => Err(trouble),
        }
    }

    fn mark_mounted<G: Ground>(&mut self, base: &mut G) -> Result<(), Trouble> {
        self.put_mark(base, true)
    }

    fn close<G: Ground>(&mut self, base: &mut G) -> Result<(), Trouble> {
        self.put_mark(base, false)
    }

    fn commit<G: Ground>(&mut self, base: &mut G) -> Result<(), Trouble> {
        aside_is_free();
        base.look();
        match base.commit() {
            Ok(()) => {
                self.volume.settle();
                base.look();
                Ok(())
            }
            Err(_) => Err(Trouble::Disk),
        }
    }

    fn look<G: Ground>(&self, _base: &G) {}
}
