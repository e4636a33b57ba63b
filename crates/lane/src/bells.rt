//! Where the threads of a lane wait, and what wakes them. No contract states that a sleeper is woken: you must read
//! this code.
//!
//! A bell is one word: how many threads wait, how many of them were called and have not left, and how often the bell
//! rang. A thread that waits first counts itself and reads the number of rings, in one step. Then it looks at the queue
//! once more. If it found nothing, it sleeps unless the bell has rung since. Then it leaves. A ring comes after a
//! message was put or taken. It calls one thread that waits and was not called, and wakes a sleeper. If all waiting
//! threads were called it does nothing.
//!
//! No wake is lost. Take a thread that sleeps although what it waits for is there. The message or the free position
//! came after the thread's last look, so after the thread was counted. The ring after it found the thread counted.
//!
//! - If the ring called a thread before this one slept, the number of rings was no longer the one that this thread had
//!   read, so it did not sleep.
//! - If the ring called a thread while this one slept, it woke a sleeper, this one or another, which looks and takes
//!   what is there.
//! - If the ring called no thread, all waiting threads were called. Each call belongs to a thread that is awake and
//!   leaves before it sleeps, or to a sleeper that is being woken: a ring adds a call and a wake, and ends each wait
//!   that does not sleep yet, and a thread that leaves takes a call with it, if there is one. So this sleeper is woken.
//!
//! By the channel's contract a look fails only if the queue was full, or empty, at one moment of it. A bell rings at
//! most once for each message, fewer than 2^32 times, so the number of rings never overflows.

use std::alloc::{AllocError, Global};
use std::sync::atomic::{AtomicU64, Ordering};
use std::sync::{Arc, Wait};

// One waiting thread, one called thread and one ring, as the word counts them: 16 bits, 16 bits and 32 bits.
const WAITER: u64 = 1 << 48;

const CALL: u64 = 1 << 32;

const RING: u64 = 1;

/// The bells of a lane: one rings after a message was put, and one after a message was taken.
#[derive(Drop)]
pub(crate) struct Bells {
    pub(crate) puts: Bell,
    pub(crate) takes: Bell,
}

impl Bells {
    /// The bells of a new lane, for all of its ends.
    pub(crate) fn shared(alloc: Global) -> Result<Arc<Bells, Global>, AllocError> {
        let bells = Bells {
            puts: Bell::new(),
            takes: Bell::new(),
        };
        Ok(Arc::new(alloc, bells)?)
    }
}

/// The threads that wait for the other side of the lane.
#[derive(Drop)]
pub(crate) struct Bell {
    word: AtomicU64,
}

impl Bell {
    fn new() -> Bell {
        Bell {
            word: AtomicU64::new(0),
        }
    }

    /// Counts this thread as waiting, and returns the number of rings.
    pub(crate) fn listen(&self) -> u32 {
        (self.word.fetch_add(WAITER, Ordering::SeqCst) & 0xffff_ffff) as u32
    }

    /// Sleeps unless the number of rings differs from the given one. It may also return for no reason.
    pub(crate) fn sleep<R: Wait>(&self, rt: &R, heard: u32) {
        self.word.park(rt, heard);
    }

    /// Stops counting this thread.
    pub(crate) fn leave(&self) {
        let _left = self.word.fetch_update(
            Ordering::SeqCst,
            Ordering::SeqCst,
            |word| Some(after_leaving(word)),
        );
    }

    /// Calls one thread that waits and was not called, if there is one.
    pub(crate) fn ring(&self) {
        if self
            .word
            .fetch_update(Ordering::SeqCst, Ordering::SeqCst, rung)
            .is_ok()
        {
            self.word.wake_one();
        }
    }
}

fn waiting(word: u64) -> u64 {
    word >> 48
}

fn called(word: u64) -> u64 {
    word >> 32 & 0xffff
}

// Returns the word after a ring, or the same word if all waiting threads were called.
fn rung(word: u64) -> Option<u64> {
    if called(word) < waiting(word) {
        Some(word.wrapping_add(CALL + RING))
    } else {
        None
    }
}

// Returns the word after a thread has left, with one call less if there is one.
fn after_leaving(word: u64) -> u64 {
    let calls = if called(word) == 0 { 0 } else { CALL };
    word.wrapping_sub(WAITER + calls)
}
