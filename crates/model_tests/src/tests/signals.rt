//! Files whose reads and writes a signal interrupts.

use devices::feeds::file_feed::FileFeed;
use devices::feeds::slurp::slurp;
use devices::files::system_files::SystemFiles;
use devices::files::system_slots::SystemSlots;
use devices::sinks::file_sink::FileSink;
use devices::sinks::sink::Sink;
use devices::sinks::slices::put_all;
use std::alloc::Allocator;
use std::fs::{self, Metadata, OpenFile, OpenOptions};
use std::io::{self, ErrorKind, Read, Seek, SeekFrom, Write};
use std::rt::Files;
use std::test::Fail;

// A file whose reads and writes take at most three bytes. The first call is interrupted once, the second twice, and so on.
#[derive(Drop)]
struct Interrupted<F> {
    file: F,
    calls: u8,
    interrupts: u8,
}

impl<F> Interrupted<F> {
    // Returns whether this call is interrupted.
    fn is_interrupted(&mut self) -> bool {
        if self.interrupts > 0 {
            self.interrupts -= 1;
            return true;
        }
        self.calls = self.calls.saturating_add(1);
        self.interrupts = self.calls;
        false
    }
}

impl<F: Read> Read for Interrupted<F> {
    fn read(&mut self, buffer: &mut [u8]) -> io::Result<usize> {
        if self.is_interrupted() {
            return Err(io::Error::from(ErrorKind::Interrupted));
        }
        let few = buffer.len().min(3);
        self.file.read(&mut buffer[..few])
    }
}

impl<F: Write> Write for Interrupted<F> {
    fn write(&mut self, bytes: &[u8]) -> io::Result<usize> {
        if self.is_interrupted() {
            return Err(io::Error::from(ErrorKind::Interrupted));
        }
        self.file.write(&bytes[..bytes.len().min(3)])
    }

    fn flush(&mut self) -> io::Result<()> {
        self.file.flush()
    }
}

impl<F: Seek> Seek for Interrupted<F> {
    fn seek(&mut self, to: SeekFrom) -> io::Result<u64> {
        self.file.seek(to)
    }
}

impl<F: OpenFile> OpenFile for Interrupted<F> {
    fn metadata(&self) -> io::Result<Metadata> {
        self.file.metadata()
    }

    fn set_len(&self, size: u64) -> io::Result<()> {
        self.file.set_len(size)
    }

    fn sync_all(&self) -> io::Result<()> {
        self.file.sync_all()
    }

    fn sync_data(&self) -> io::Result<()> {
        self.file.sync_data()
    }
}

// The files of a system as files with interrupts.
#[derive(Drop)]
struct Signals<'a, R> {
    rt: &'a R,
}

impl<'a, R: Files> Files for Signals<'a, R> {
    type File = Interrupted<R::File>;

    type Dir = R::Dir;

    fn open_file(&self, how: &OpenOptions, path: &str) -> io::Result<Interrupted<R::File>> {
        Ok(Interrupted {
            file: self.rt.open_file(how, path)?,
            calls: 0,
            interrupts: 1,
        })
    }

    fn open_dir(&self, path: &str) -> io::Result<R::Dir> {
        self.rt.open_dir(path)
    }

    fn metadata(&self, path: &str) -> io::Result<Metadata> {
        self.rt.metadata(path)
    }

    fn symlink_metadata(&self, path: &str) -> io::Result<Metadata> {
        self.rt.symlink_metadata(path)
    }

    fn copy(&self, from: &str, to: &str) -> io::Result<u64> {
        self.rt.copy(from, to)
    }

    fn rename(&self, from: &str, to: &str) -> io::Result<()> {
        self.rt.rename(from, to)
    }

    fn remove_file(&self, path: &str) -> io::Result<()> {
        self.rt.remove_file(path)
    }

    fn create_dir(&self, path: &str) -> io::Result<()> {
        self.rt.create_dir(path)
    }

    fn remove_dir(&self, path: &str) -> io::Result<()> {
        self.rt.remove_dir(path)
    }

    fn remove_dir_all<B: Allocator>(&self, alloc: B, path: &str) -> io::Result<()> {
        self.rt.remove_dir_all(alloc, path)
    }
}

const TEXT: &[u8] = b"0 0 0 0 1 0 0\n1 1 0 0 1 0 0\n";

// A text that is written to a file and read from it, if each of these calls is interrupted.
#[test]
fn interrupted_calls_lose_nothing(rt: HostRuntime) -> Result<(), Fail> {
    let path = "interrupted_calls_lose_nothing";
    let signals = Signals { rt: &rt };
    let mut sink = FileSink::new(&mut SystemSlots::new(&signals), rt.alloc(), path)?;
    assert!(rt; sink.begin().is_ok());
    assert!(rt; put_all(&mut sink, TEXT).is_ok());
    assert!(rt; fs::read_to_string(&rt, path)?.as_str().as_bytes() == TEXT);
    let mut feed = FileFeed::open(&mut SystemFiles::new(&signals), path).expect(&rt, "a feed");
    let read = slurp(rt.alloc(), &mut feed, 100).expect(&rt, "a text");
    assert!(rt; read.as_slice() == TEXT);
    Ok(fs::remove_file(&rt, path)?)
}
