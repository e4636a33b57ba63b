//! What the channel's passes know. No value of this type is made: it exists only in proofs.

use crate::message::Taken;
use std::collections::LinkedList;

/// A part of the lane. Each part is in the view of exactly one pass.
pub enum Part {
    /// The lane is still being counted: its files, its takers and the capacity of its queue.
    Count {
        files: u8,
        takers: u8,
        capacity: usize,
    },
    /// The put part of a file: what the file sent.
    Put {
        file: u8,
        capacity: usize,
        sent: LinkedList<Taken>,
    },
    /// The take part of a taker: what it took.
    Take {
        taker: u8,
        capacity: usize,
        took: LinkedList<Taken>,
    },
    /// The closer's part: the lane's numbers, and the numbers of Stops and Quits put.
    Close {
        files: u8,
        takers: u8,
        capacity: usize,
        stops: u8,
        quits: u8,
    },
}
