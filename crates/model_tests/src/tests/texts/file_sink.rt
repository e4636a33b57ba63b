//! A file as a sink: what `pitc` does not show, since it begins each file once.

use devices::files::system_slots::SystemSlots;
use devices::sinks::file_sink::FileSink;
use devices::sinks::sink::Sink;
use std::fs;
use std::test::Fail;

// Returns whether the file at this path has this text.
fn holds(rt: &HostRuntime, path: &str, text: &str) -> Result<bool, Fail> {
    Ok(fs::read_to_string(rt, path)?.as_str() == text)
}

fn begins<S: Sink>(sink: &mut S) -> bool {
    sink.begin().is_ok()
}

// Returns whether a put takes all of this text.
fn takes<S: Sink>(sink: &mut S, text: &str) -> bool {
    match sink.put(text.as_bytes()) {
        Ok(taken) => taken == text.len(),
        Err(_) => false,
    }
}

const OLD: &str = "what an earlier program left\n";

// A file is created once: a sink that is begun again fails, and continues with its file.
#[test]
fn a_file_begun_again(rt: HostRuntime) -> Result<(), Fail> {
    let path = "a_file_begun_again";
    fs::write(&rt, path, OLD)?;
    let mut sink = FileSink::new(&mut SystemSlots::new(&rt), rt.alloc(), path)?;
    assert!(rt; !takes(&mut sink, "no text is begun\n"));
    assert!(rt; holds(&rt, path, OLD)?);
    assert!(rt; begins(&mut sink) && takes(&mut sink, "0 0\n"));
    assert!(rt; !begins(&mut sink) && takes(&mut sink, "1 0\n"));
    assert!(rt; holds(&rt, path, "0 0\n1 0\n")?);
    Ok(fs::remove_file(&rt, path)?)
}

// If a file cannot be created, since a folder has its path, its sink is also used up.
#[test]
fn a_file_that_could_not_begin(rt: HostRuntime) -> Result<(), Fail> {
    let path = "a_file_that_could_not_begin";
    fs::create_dir(&rt, path)?;
    let mut sink = FileSink::new(&mut SystemSlots::new(&rt), rt.alloc(), path)?;
    assert!(rt; !begins(&mut sink));
    fs::remove_dir(&rt, path)?;
    assert!(rt; !begins(&mut sink) && !takes(&mut sink, "0 0\n"));
    assert!(rt; !fs::exists(&rt, path)?);
    Ok(())
}
