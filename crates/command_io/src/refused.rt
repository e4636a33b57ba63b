//! The program's errors: the words of the error's line, and the exit status.

ghost use Rattle.std.specs.Prelude.{◌≡◌, ◌≢◌};
ghost use Rattle.refusals.specs.declared.refusal.Refusal.TheVariants.{OutOfMemory};
ghost use Rattle.command_io.specs.Refused.{plan_refused, run_status, status_of, text_refused, unread};
ghost use Rattle.command_io.specs.declared.refused.Refused.TheVariants.{Run};

use crate::refused::source::Source;
use crate::refused::status::{DEVICE, REFUSED, RESOURCES, USAGE};
use devices::feeds::slurp::SlurpFault;
use pit_model::plan_fault::PlanFault;
use pit_units::OrMemory;
use refusals::refusal::Refusal;
use std::alloc::{AllocError, AllocFailed};
use std::fmt;
use text_lines::text_fault::TextFault;
use thiserror::Error;

pub mod fault_line;
pub mod source;
pub mod status;

/// An error of the program. Its text is its line without the program's name.
#[derive(Clone, Copy, Debug, Error, PartialEq, Eq)]
pub enum Refused {
    /// An argument of the command line is not UTF-8.
    NotUtf8,
    /// The source cannot be opened or read.
    FeedFailed(Source),
    /// The source has more bytes than its limit.
    TooLong(Source),
    /// A plan has an invalid record, or a required part of it is missing.
    Plan(PlanFault),
    /// A file of an instance has an invalid line, or something is missing at its end.
    Text(TextFault),
    /// The run failed. Its `OutOfMemory` is used for the whole program.
    Run(Refusal),
}

impl Refused {
    /// Returns the error for a source that was not read completely.
    pub fn unread(source: Source, fault: SlurpFault) -> Refused
        ensures { result ≡ unread source fault }
    {
        match fault {
            SlurpFault::FeedFailed => Refused::FeedFailed(source),
            SlurpFault::TooLong => Refused::TooLong(source),
            SlurpFault::OutOfMemory => Refused::Run(Refusal::OutOfMemory),
        }
    }

    /// Returns the exit status of the program.
    pub fn status(&self) -> u8
        ensures value { result ≡ status_of self.now }
        ensures fails { result ≢ 0 }
    {
        match self {
            Refused::NotUtf8 => USAGE,
            Refused::FeedFailed(_) => DEVICE,
            Refused::TooLong(_) | Refused::Plan(_) | Refused::Text(_) => REFUSED,
            Refused::Run(refusal) => run_status(refusal),
        }
    }
}

fn run_status(refusal: &Refusal) -> u8
    ensures value { result ≡ run_status refusal.now }
    ensures fails { result ≢ 0 }
{
    match refusal {
        Refusal::Settings(_) => USAGE,
        Refusal::TooLong { .. } | Refusal::Row { .. } | Refusal::Same { .. } => REFUSED,
        Refusal::FeedFailed { .. } | Refusal::SinkFailed { .. } => DEVICE,
        Refusal::NoThread | Refusal::OutOfMemory => RESOURCES,
    }
}

impl fmt::Display for Refused {
    ghost use Rattle.std.specs.Prelude.{Some};
    ghost use Rattle.command_io.specs.Refused.{refused_text};

    ghost output = { λ refused. Some (refused_text refused) };

    fn fmt<W: fmt::Write>(&self, f: &mut fmt::Formatter<W>) -> fmt::Result {
        match self {
            Refused::NotUtf8 => f.write_str("command line: NotUtf8"),
            Refused::FeedFailed(source) => write!(f, "{source}: FeedFailed"),
            Refused::TooLong(source) => write!(f, "{source}: TooLong"),
            Refused::Plan(fault) => write!(f, "{fault}"),
            Refused::Text(fault) => write!(f, "{fault}"),
            Refused::Run(refusal) => write!(f, "{refusal}"),
        }
    }
}

impl From<AllocError> for Refused {
    ghost from_gives = { λ _ refused. refused ≡ Run OutOfMemory };

    fn from(_refusal: AllocError) -> Refused {
        Refused::Run(Refusal::OutOfMemory)
    }
}

impl<T: Drop> From<AllocFailed<T>> for Refused {
    ghost from_gives = { λ _ refused. refused ≡ Run OutOfMemory };

    fn from(_refusal: AllocFailed<T>) -> Refused {
        Refused::Run(Refusal::OutOfMemory)
    }
}

impl From<Refusal> for Refused {
    ghost from_gives = { λ refusal refused. refused ≡ Run refusal };

    fn from(refusal: Refusal) -> Refused {
        Refused::Run(refusal)
    }
}

impl From<OrMemory<PlanFault>> for Refused {
    ghost from_gives = { λ error refused. refused ≡ plan_refused error };

    fn from(error: OrMemory<PlanFault>) -> Refused {
        match error {
            OrMemory::Fault(fault) => Refused::Plan(fault),
            OrMemory::OutOfMemory => Refused::Run(Refusal::OutOfMemory),
        }
    }
}

impl From<OrMemory<TextFault>> for Refused {
    ghost from_gives = { λ error refused. refused ≡ text_refused error };

    fn from(error: OrMemory<TextFault>) -> Refused {
        match error {
            OrMemory::Fault(fault) => Refused::Text(fault),
            OrMemory::OutOfMemory => Refused::Run(Refusal::OutOfMemory),
        }
    }
}
