//! Small volumes: with an empty journal of 64 sectors, whose lists have headers of 512 bytes, or with a new one of 512.
use crate::kept::Kept;
use crate::mounted::SECTORS;
use crate::quiet::Quiet;
use hx_bytes::{Order, OutOfMemory, Sector};
use mem_disk::{MemImage, MemRig};
use std::alloc::Global;
use test_kit::{
    BASE, INFO, header_block, info_block, put, sealed_header, volume_header, with_number,
};

/// The version `HFSJ`.
pub const JOURNALING: u32 = 0x4846_534A;

const SIZE: u64 = 64 * 512;

/// How a journal's lists are written: the order of the bytes in a number, and the bytes of a list's header.
#[derive(Clone, Copy)]
pub struct Form {
    pub order: Order,
    pub blhdr: u32,
}

/// The volume, with nothing pending.
pub fn volume(alloc: Global) -> Result<MemImage, OutOfMemory> {
    let form = Form {
        order: Order::Little,
        blhdr: 512,
    };
    volume_of(alloc, form)
}

/// The same with lists of another form.
pub fn volume_of(alloc: Global, form: Form) -> Result<MemImage, OutOfMemory> {
    let mut rig = MemRig::new(alloc, SECTORS)?;
    put(&mut rig, 2, &volume_header(JOURNALING, 256));
    put(&mut rig, INFO, &info_block(1, SIZE));
    let head = header_block(form.order, 512, 512, SIZE);
    put(&mut rig, BASE, &sealed_blhdr(&head, form.order, form.blhdr));
    rig.image(alloc, 1)
}

/// A journal header whose lists have headers of so many bytes.
pub fn sealed_blhdr(head: &Sector, order: Order, blhdr: u32) -> Sector {
    sealed_header(&with_number(head, 32, blhdr, order), order)
}

/// The same with a journal of 512 sectors that still has to be initialised: its lists get headers of 4,096 bytes.
pub fn new_volume(alloc: Global) -> Result<MemImage, OutOfMemory> {
    let mut rig = MemRig::new(alloc, SECTORS)?;
    put(&mut rig, 2, &volume_header(JOURNALING, 256));
    put(&mut rig, INFO, &info_block(5, 512 * 512));
    rig.image(alloc, 1)
}

/// A disk that a barrier left so.
pub fn disk_of(alloc: Global, image: &MemImage) -> Result<Quiet, OutOfMemory> {
    Ok(Quiet {
        rig: MemRig::from_image(alloc, image)?,
        kept: Kept::nothing(alloc),
    })
}
