//! A store over sectors in memory, streams that are interrupted or not ready, and tables of the system.
ghost use Rattle.std.specs.Prelude.{◌≡◌, ◌<◌, IfOk, IsFalse};

use crate::again::read_again;
use crate::failure::{Act, Failure};
use crate::limit::most_of;
use crate::streams::place_in;
use crate::{Place, Sparse, Store, Waiting};
use hx_bytes::Sector;
use std::alloc::{AllocError, Global};
use std::cell::Cell;
use std::io::{self, ErrorKind, Read, Write};
use std::process::Abort;
use std::test::Fail;

/// How often a shelf was called, and whether it fails.
#[derive(Drop)]
struct Dial {
    reads: Cell<u64>,
    writes: Cell<u64>,
    fails: Cell<bool>,
}

/// Sectors in memory, which count their calls and fail while they are told to.
#[derive(Drop)]
struct Shelf<'a> {
    alloc: Global,
    sectors: Vec<Sector>,
    flushed: Vec<Sector>,
    dial: &'a Dial,
}

fn out_of_order(act: Act) -> Failure {
    act.failed(io::Error::new(ErrorKind::Other, "out of order"))
}

impl<'a> Place for Shelf<'a> {
    ghost use Rattle.std.specs.Prelude.{true};

    ghost state = { λ shelf. record { tells = true; held = shelf.sectors.items; flushed = shelf.flushed.items } };

    fn read_run(&mut self, first: u64, into: &mut [Sector]) -> Result<(), Failure> {
        self.dial.reads.set(self.dial.reads.get().saturating_add(1));
        if self.dial.fails.get() {
            return Err(out_of_order(Act::Reading(first)));
        }
        let from = first as usize;
        let count = into.len();
        into.copy_from_slice(&self.sectors[from..from + count]);
        Ok(())
    }

    fn write_run(&mut self, first: u64, run: &[Sector]) -> Result<(), Failure> {
        self.dial
            .writes
            .set(self.dial.writes.get().saturating_add(1));
        if self.dial.fails.get() {
            let count = run.len() as u64;
            return Err(out_of_order(Act::Writing { first, count }));
        }
        let from = first as usize;
        self.sectors[from..from + run.len()].copy_from_slice(run);
        Ok(())
    }

    fn flush(&mut self) -> Result<(), Failure> {
        if self.dial.fails.get() {
            return Err(out_of_order(Act::Flushing));
        }
        match Vec::from_slice(self.alloc, self.sectors.as_slice()) {
            Ok(sectors) => {
                self.flushed = sectors;
                Ok(())
            }
            Err(_) => Err(out_of_order(Act::Flushing)),
        }
    }
}

impl Dial {
    fn new() -> Dial {
        Dial {
            reads: Cell::new(0),
            writes: Cell::new(0),
            fails: Cell::new(false),
        }
    }
}

// A store over two hundred sectors of zeros.
fn store_over<'a>(alloc: Global, dial: &'a Dial) -> Result<Store<Shelf<'a>>, AllocError>
    ensures { IfOk result (λ store. store.sectors ≡ 200) }
{
    let shelf = Shelf {
        alloc,
        sectors: vec![in alloc; [0; 512]; 200]?,
        flushed: Vec::new(alloc),
        dial,
    };
    Store::new(alloc, shelf, 200)
}

fn put(rt: &impl Abort, store: &mut Store<Shelf<'_>>, at: u64, byte: u8)
    requires { at < store.old.sectors }
    ensures { store.new.sectors ≡ store.old.sectors }
{
    assert!(rt; store.write(at, &[byte; 512]).is_ok(), "sector {at}");
}

fn is(rt: &impl Abort, store: &mut Store<Shelf<'_>>, at: u64, byte: u8)
    requires { at < store.old.sectors }
    ensures { store.new.sectors ≡ store.old.sectors }
{
    let mut sector = [1; 512];
    assert!(rt; store.read(at, &mut sector).is_ok(), "sector {at}");
    assert_eq!(rt; sector[511], byte, "sector {at}");
}

#[test]
fn neighbours_are_handed_over_together(rt: HostRuntime) -> Result<(), Fail> {
    let dial = Dial::new();
    let mut store = store_over(rt.alloc(), &dial)?;
    put(&rt, &mut store, 10, 1);
    put(&rt, &mut store, 11, 2);
    put(&rt, &mut store, 12, 3);
    put(&rt, &mut store, 11, 4);
    assert_eq!(rt; dial.writes.get(), 0);
    is(&rt, &mut store, 11, 4);
    put(&rt, &mut store, 50, 5);
    assert_eq!(rt; dial.writes.get(), 1);
    assert!(rt; store.flush().is_ok());
    assert_eq!(rt; dial.writes.get(), 2);
    is(&rt, &mut store, 10, 1);
    is(&rt, &mut store, 12, 3);
    is(&rt, &mut store, 50, 5);
    is(&rt, &mut store, 51, 0);
    Ok(())
}

#[test]
fn a_run_that_could_not_be_handed_over_is_read_and_tried_again(
    rt: HostRuntime,
) -> Result<(), Fail> {
    let dial = Dial::new();
    let mut store = store_over(rt.alloc(), &dial)?;
    put(&rt, &mut store, 10, 1);
    dial.fails.set(true);
    assert!(rt; store.flush().is_err());
    assert!(rt; store.write(90, &[9; 512]).is_err());
    is(&rt, &mut store, 10, 1);
    dial.fails.set(false);
    is(&rt, &mut store, 90, 0);
    assert!(rt; store.flush().is_ok());
    is(&rt, &mut store, 10, 1);
    Ok(())
}

#[test]
fn reads_go_ahead_and_give_what_was_written_since(rt: HostRuntime) -> Result<(), Fail> {
    let dial = Dial::new();
    let mut store = store_over(rt.alloc(), &dial)?;
    // A page, and then twice as many sectors with each read that goes on.
    is(&rt, &mut store, 20, 0);
    is(&rt, &mut store, 16, 0);
    is(&rt, &mut store, 23, 0);
    assert_eq!(rt; dial.reads.get(), 1);
    is(&rt, &mut store, 24, 0);
    is(&rt, &mut store, 39, 0);
    assert_eq!(rt; dial.reads.get(), 2);
    is(&rt, &mut store, 40, 0);
    put(&rt, &mut store, 50, 7);
    assert!(rt; store.flush().is_ok());
    is(&rt, &mut store, 50, 7);
    is(&rt, &mut store, 71, 0);
    assert_eq!(rt; dial.reads.get(), 3);
    is(&rt, &mut store, 72, 0);
    is(&rt, &mut store, 135, 0);
    assert_eq!(rt; dial.reads.get(), 4);
    is(&rt, &mut store, 10, 0);
    is(&rt, &mut store, 15, 0);
    assert_eq!(rt; dial.reads.get(), 5);
    Ok(())
}

/// A reader that a signal interrupts so many times.
#[derive(Drop)]
struct Interrupted {
    left: u8,
}

impl Read for Interrupted {
    fn read(&mut self, into: &mut [u8]) -> io::Result<usize> {
        if self.left > 0 {
            self.left -= 1;
            return Err(io::Error::from(ErrorKind::Interrupted));
        }
        Ok(into.len().min(3))
    }
}

#[test]
fn an_interrupted_read_is_made_again(rt: HostRuntime) -> Result<(), Fail> {
    let mut reader = Interrupted { left: 2 };
    let mut bytes = [0; 8];
    assert!(rt; matches!(read_again(&mut reader, &mut bytes), Ok(3)));
    assert_eq!(rt; reader.left, 0);
    Ok(())
}

/// A stream that has nothing to give and no room, so many times.
#[derive(Drop)]
struct Busy {
    left: u8,
}

impl Busy {
    // Whether it is asked too soon.
    fn is_early(&mut self) -> bool {
        let early = self.left > 0;
        self.left = self.left.saturating_sub(1);
        early
    }
}

impl Read for Busy {
    fn read(&mut self, into: &mut [u8]) -> io::Result<usize> {
        if self.is_early() {
            return Err(io::Error::from(ErrorKind::WouldBlock));
        }
        Ok(into.len().min(3))
    }
}

impl Write for Busy {
    fn write(&mut self, bytes: &[u8]) -> io::Result<usize> {
        if self.is_early() {
            return Err(io::Error::from(ErrorKind::WouldBlock));
        }
        Ok(bytes.len().min(2))
    }

    fn flush(&mut self) -> io::Result<()> {
        Ok(())
    }
}

#[test]
fn a_stream_that_would_block_is_waited_for(rt: HostRuntime) -> Result<(), Fail> {
    let mut bytes = [0; 8];
    let mut reader = Waiting::new(&rt, Busy { left: 3 });
    assert!(rt; matches!(reader.read(&mut bytes), Ok(3)));
    let mut writer = Waiting::new(&rt, Busy { left: 3 });
    assert!(rt; matches!(writer.write(&bytes), Ok(2)));
    Ok(())
}

#[test]
fn the_systems_tables_are_read(rt: HostRuntime) -> Result<(), Fail> {
    let limits =
        "Limit                     Soft Limit           Hard Limit           Units     \nMax cpu time              unlimited            unlimited            seconds   \nMax file size             1024000              unlimited            bytes     \n";
    assert_eq!(rt; most_of(limits), Some(1_024_000));
    assert_eq!(rt;
        most_of("Max file size             unlimited            unlimited            bytes     \n"),
        None
    );
    assert_eq!(rt;
        place_in("pos:\t77\nflags:\t0100001\nmnt_id:\t29\n", 900),
        Some(77)
    );
    assert_eq!(rt;
        place_in("pos:\t77\nflags:\t0102001\nmnt_id:\t29\n", 900),
        Some(900)
    );
    assert_eq!(rt; place_in("", 900), None);
    Ok(())
}

/// A place that counts what is written to it, and says from where on it holds zeros.
#[derive(Drop)]
struct Counting<'a> {
    writes: &'a Cell<u64>,
}

impl<'a> Place for Counting<'a> {
    ghost use Rattle.file_rig.specs.Untold.{untold_place};

    ghost state = { λ _. untold_place };

    fn read_run(&mut self, _first: u64, _into: &mut [Sector]) -> Result<(), Failure> {
        Ok(())
    }

    fn write_run(&mut self, _first: u64, _run: &[Sector]) -> Result<(), Failure> {
        self.writes.set(self.writes.get().saturating_add(1));
        Ok(())
    }

    fn zeros_from(&mut self) -> Result<Option<u64>, Failure> {
        Ok(Some(100))
    }

    fn flush(&mut self) -> Result<(), Failure> {
        Ok(())
    }
}

// Writes a run, behind which so many were written to the place.
fn wrote(
    rt: &impl Abort,
    place: &mut Sparse<Counting<'_>>,
    writes: &Cell<u64>,
    first: u64,
    run: &[Sector],
    wanted: u64,
)
    requires { IsFalse place.old.tells }
    ensures { IsFalse place.new.tells }
{
    assert!(rt; place.write_run(first, run).is_ok(), "sector {first}");
    assert_eq!(rt; writes.get(), wanted, "sector {first}");
}

#[test]
fn zeros_are_written_where_something_else_was(rt: HostRuntime) -> Result<(), Fail> {
    let writes = Cell::new(0);
    let mut place = Sparse::new(Counting { writes: &writes });
    let zeros = [[0; 512]; 3];
    let mut other = zeros;
    other[2][511] = 1;
    wrote(&rt, &mut place, &writes, 120, &zeros, 0);
    wrote(&rt, &mut place, &writes, 99, &zeros, 1);
    wrote(&rt, &mut place, &writes, 120, &other, 2);
    wrote(&rt, &mut place, &writes, 122, &zeros, 3);
    wrote(&rt, &mut place, &writes, 123, &zeros, 4);
    wrote(&rt, &mut place, &writes, 126, &zeros, 4);
    wrote(&rt, &mut place, &writes, 4, &other, 5);
    wrote(&rt, &mut place, &writes, 126, &zeros, 5);
    Ok(())
}
