//! The end of a run: its outputs and its exit status.

use command_io::ending::Streams;
use command_io::refused::status::{DEVICE, REFUSED, RESOURCES, finish};
use devices::sinks::write_sink::WriteSink;
use std::alloc::Global;
use std::io::{self, ErrorKind, Write};
use std::process::ExitCode;

// An output with a capacity of `room` bytes, which takes one byte a write, each after a write that is interrupted. If it is full, a
// write fails or takes no byte.
#[derive(Drop)]
struct Narrow {
    held: Vec<u8>,
    room: usize,
    fails: bool,
    interrupts: bool,
}

impl Narrow {
    fn new(alloc: Global, room: usize, fails: bool) -> Narrow {
        Narrow {
            held: Vec::new(alloc),
            room,
            fails,
            interrupts: false,
        }
    }
}

impl Write for Narrow {
    fn write(&mut self, bytes: &[u8]) -> io::Result<usize> {
        self.interrupts = !self.interrupts;
        if self.interrupts {
            return Err(io::Error::from(ErrorKind::Interrupted));
        }
        if self.held.len() >= self.room {
            return if self.fails {
                Err(io::Error::from(ErrorKind::BrokenPipe))
            } else {
                Ok(0)
            };
        }
        match bytes.first() {
            Some(byte) => {
                self.held.push(*byte)?;
                Ok(1)
            }
            None => Ok(0),
        }
    }

    fn flush(&mut self) -> io::Result<()> {
        Ok(())
    }
}

// The end of a run: its status and its line, the capacity of both outputs; and then the exit status and the bytes of both.
struct End {
    status: u8,
    line: &'static [u8],
    output_room: usize,
    errors_room: usize,
    answer: u8,
    output: &'static [u8],
    errors: &'static [u8],
}

const TEXT: &[u8] = b"rows 1\n";

const LINE: &[u8] = b"pitc: NoThread\n";

const ENDS: [End; 7] = [
    End {
        status: 0,
        line: LINE,
        output_room: 7,
        errors_room: 0,
        answer: 0,
        output: TEXT,
        errors: b"",
    },
    End {
        status: 0,
        line: LINE,
        output_room: 6,
        errors_room: 100,
        answer: DEVICE,
        output: b"rows 1",
        errors: b"pitc: output: SinkFailed\n",
    },
    End {
        status: 0,
        line: LINE,
        output_room: 0,
        errors_room: 4,
        answer: DEVICE,
        output: b"",
        errors: b"pitc",
    },
    End {
        status: RESOURCES,
        line: LINE,
        output_room: 100,
        errors_room: 100,
        answer: RESOURCES,
        output: b"",
        errors: LINE,
    },
    End {
        status: REFUSED,
        line: LINE,
        output_room: 100,
        errors_room: 4,
        answer: REFUSED,
        output: b"",
        errors: b"pitc",
    },
    End {
        status: DEVICE,
        line: LINE,
        output_room: 0,
        errors_room: 100,
        answer: DEVICE,
        output: b"",
        errors: LINE,
    },
    // An empty line means that memory was refused.
    End {
        status: RESOURCES,
        line: b"",
        output_room: 100,
        errors_room: 100,
        answer: RESOURCES,
        output: b"",
        errors: b"pitc: OutOfMemory\n",
    },
];

#[test]
fn outputs_that_fail(rt: HostRuntime) {
    for end in &ENDS {
        for fails in [true, false] {
            let mut output = Narrow::new(rt.alloc(), end.output_room, fails);
            let mut errors = Narrow::new(rt.alloc(), end.errors_room, fails);
            let mut streams = Streams {
                output: WriteSink::new(&mut output),
                errors: WriteSink::new(&mut errors),
            };
            let answer = finish(&mut streams, end.status, TEXT, end.line);
            drop(streams);
            assert!(rt; answer == ExitCode::from(end.answer), "{}", end.status);
            assert!(rt; output.held.as_slice() == end.output);
            assert!(rt; errors.held.as_slice() == end.errors);
        }
    }
}
