//! An input that is interrupted, ends or fails.

use command_io::input::read_source;
use command_io::refused::fault_line::report;
use command_io::refused::source::Source;
use devices::feeds::read_feed::ReadFeed;
use std::alloc::Global;
use std::io;
use std::io::{ErrorKind, Read};

const INPUT: &[u8] =
    b"name,one\ngrid,0,0,0,10,10,10\nzone,1,1,1\ndump,dump,200\nperiods,1\nrate,0.1\n--\nx,y,z\n";

// An input that gives one byte a read, each after a read that is interrupted, and then ends or fails.
#[derive(Drop)]
struct Interrupted {
    left: &'static [u8],
    interrupts: bool,
    fails: bool,
}

impl Read for Interrupted {
    fn read(&mut self, buffer: &mut [u8]) -> io::Result<usize> {
        self.interrupts = !self.interrupts;
        if self.interrupts {
            return Err(io::Error::from(ErrorKind::Interrupted));
        }
        match (self.left.first(), buffer.first_mut()) {
            (Some(byte), Some(place)) => {
                *place = *byte;
                self.left = &self.left[1..];
                Ok(1)
            }
            _ if self.fails => Err(io::Error::from(ErrorKind::BrokenPipe)),
            _ => Ok(0),
        }
    }
}

fn input_that(fails: bool) -> Interrupted {
    Interrupted {
        left: INPUT,
        interrupts: false,
        fails,
    }
}

// Returns the status 0 and the bytes of the input; or the status and the line of its error.
fn whole_or_refused(alloc: Global, fails: bool) -> (u8, Vec<u8>) {
    let mut feed = ReadFeed::new(input_that(fails));
    match read_source(alloc, &mut feed, Source::Input, 1_000) {
        Ok(bytes) => (0, bytes),
        Err(refused) => {
            let mut lines = Vec::new(alloc);
            (report(alloc, &refused, &mut lines), lines)
        }
    }
}

#[test]
fn a_failed_input_is_no_model(rt: HostRuntime) {
    for (fails, wanted, left) in [(false, 0, INPUT), (true, 3, b"pitc: input: FeedFailed\n")] {
        let (status, bytes) = whole_or_refused(rt.alloc(), fails);
        assert_eq!(rt; status, wanted);
        assert!(rt; bytes.as_slice() == left);
    }
}
