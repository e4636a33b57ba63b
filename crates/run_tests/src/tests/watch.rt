//! The calls of a run: its gate, the closures of its destinations, and a feed.

use devices::feeds::feed::{Feed, FeedFault};
use std::alloc::Global;
use std::sync::atomic::{AtomicU64, Ordering};
use std::sync::{Arc, Wait};
use std::test::Fail;
use valuers::Gate;

/// What waits, and for what: a row or the reader of file 0 until `rows` has reached a number, a value until `values` has reached a
/// number. If `turns` is not 0, rows and readers also spin, for fewer than 4096 turns.
#[derive(Clone, Copy, Drop)]
pub struct Holds {
    pub row: u64,
    pub reader: u64,
    pub value: u64,
    pub turns: u64,
}

/// Nothing waits.
pub const OPEN: Holds = Holds {
    row: 0,
    reader: 0,
    value: 0,
    turns: 0,
};

/// Counts the calls of a run, and delays some of them.
#[derive(Drop)]
pub struct Watch {
    holds: Holds,
    /// 16^place for each row of file 0 for which the gate was called, and 16^(place + 8) for each row of file 1.
    pub rows: AtomicU64,
    /// 16^valuer for each row.
    pub valuers: AtomicU64,
    /// 1, 10 and 100 for the readers of files 0, 1 and 2 for which the gate was called, and 1000 for each other reader.
    pub readers: AtomicU64,
    /// 1 for each row for which the gate was called.
    pub reported: AtomicU64,
    /// 1 for each worth that was requested.
    pub values: AtomicU64,
    /// 1 for each pull.
    pub pulls: AtomicU64,
    /// 1 for each worth and each pull before the gate was called for its row or its reader.
    pub early: AtomicU64,
    /// 1 for each wait that was given up.
    pub late: AtomicU64,
    turned: AtomicU64,
}

/// A watch that the closures and the feed of a run share with the test.
pub type Watched = Arc<Watch, Global>;

// The number of tests before a wait is given up. A correct run never reaches it.
const TURNS: u64 = 1_000_000_000;

impl Watch {
    /// Makes a watch before any call.
    pub fn new(alloc: Global, holds: Holds) -> Result<Watched, Fail> {
        Ok(Arc::new(alloc, Watch::reported_nothing(holds))?)
    }

    fn reported_nothing(holds: Holds) -> Watch {
        Watch {
            holds,
            rows: AtomicU64::new(0),
            valuers: AtomicU64::new(0),
            readers: AtomicU64::new(0),
            reported: AtomicU64::new(0),
            values: AtomicU64::new(0),
            pulls: AtomicU64::new(0),
            early: AtomicU64::new(0),
            late: AtomicU64::new(0),
            turned: AtomicU64::new(0),
        }
    }

    /// Counts a requested worth, and waits.
    pub fn value(&self) {
        let asked = self.values.fetch_add(1, Ordering::SeqCst);
        self.count_early(&self.reported, asked);
        self.wait(&self.values, self.holds.value);
    }

    // Counts a call as early if the gate was called at most `asked` times before it; `asked` is the number of earlier calls.
    fn count_early(&self, reported: &AtomicU64, asked: u64) {
        if reported.load(Ordering::SeqCst) <= asked {
            self.early.fetch_add(1, Ordering::SeqCst);
        }
    }

    // Waits until the count has reached `wanted`.
    fn wait(&self, count: &AtomicU64, wanted: u64) {
        for _turn in 0..TURNS {
            if wanted <= count.load(Ordering::SeqCst) {
                return;
            }
        }
        self.late.fetch_add(1, Ordering::SeqCst);
    }

    // Spins for a number of turns that differs from call to call.
    fn turn(&self, share: u64) {
        for _turn in 0..share.wrapping_mul(self.holds.turns) % 4096 {
            self.turned.fetch_add(1, Ordering::SeqCst);
        }
    }
}

// Returns 16^digit for a digit below 16, else 0.
fn digit(digit: u64) -> u64 {
    if digit < 16 {
        1u64 << (4 * digit as u32)
    } else {
        0
    }
}

impl Gate for Watch {
    fn row<R: Wait>(&self, _rt: &R, valuer: u8, file: u8, place: u32) {
        let (valuer, file, place) = (u64::from(valuer), u64::from(file), u64::from(place));
        self.reported.fetch_add(1, Ordering::SeqCst);
        self.valuers.fetch_add(digit(valuer), Ordering::SeqCst);
        self.rows
            .fetch_add(digit(8 * file + place), Ordering::SeqCst);
        self.turn(31 * valuer + 17 * file + 7 * place);
        self.wait(&self.rows, self.holds.row);
    }

    fn reader<R: Wait>(&self, _rt: &R, file: u8) {
        let count = match file {
            0 => 1,
            1 => 10,
            2 => 100,
            _ => 1_000,
        };
        self.readers.fetch_add(count, Ordering::SeqCst);
        self.turn(101 * u64::from(file));
        if file == 0 {
            self.wait(&self.rows, self.holds.reader);
        }
    }
}

/// An empty file that reports its pulls to the watch.
#[derive(Drop)]
pub struct Looking {
    watch: Watched,
}

impl Looking {
    pub fn new(watch: &Watched) -> Result<Looking, Fail> {
        let watch = Arc::clone(watch)?;
        Ok(Looking { watch })
    }
}

impl Feed for Looking {
    ghost use Rattle.std.specs.Prelude.{None, false};
    ghost use Rattle.devices.specs.feeds.FeedState.{not_pulled};

    ghost state = { λ _. not_pulled false None };

    fn pull(&mut self, _buffer: &mut [u8]) -> Result<usize, FeedFault> {
        self.watch.pulls.fetch_add(1, Ordering::SeqCst);
        self.watch.count_early(&self.watch.readers, 0);
        Ok(0)
    }
}
