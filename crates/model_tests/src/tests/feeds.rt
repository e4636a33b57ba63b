ghost use Rattle.std.specs.Prelude.{◌≤◌};

use devices::feeds::mem_feed::MemFeed;
use devices::feeds::slurp::{SlurpFault, slurp};
use std::alloc::{AllocError, Global};
use std::test::Fail;

// A text, the pull that fails (0 for none), and the result for a limit of four bytes. The first pull gives the whole text, the
// second the end.
const READS: [(&str, u64, Result<(), SlurpFault>); 7] = [
    ("", 0, Ok(())),
    ("abcd", 0, Ok(())),
    ("abcde", 0, Err(SlurpFault::TooLong)),
    ("abcdefgh", 0, Err(SlurpFault::TooLong)),
    ("abcd", 1, Err(SlurpFault::FeedFailed)),
    ("abcd", 2, Err(SlurpFault::FeedFailed)),
    ("abcd", 3, Ok(())),
];

fn feed_of(alloc: Global, text: &str, nth: u64) -> Result<MemFeed, AllocError> {
    let bytes = text.as_bytes().to_vec(alloc)?;
    if nth == 0 {
        return Ok(MemFeed::new(bytes));
    }
    Ok(MemFeed::failing(bytes, nth))
}

fn read(alloc: Global, mut feed: MemFeed) -> Result<Vec<u8>, SlurpFault> {
    slurp(alloc, &mut feed, 4)
}

fn is_read(read: Result<Vec<u8>, SlurpFault>, text: &str, answer: &Result<(), SlurpFault>) -> bool {
    match read {
        Ok(bytes) => answer.is_ok() && bytes.as_slice() == text.as_bytes(),
        Err(fault) => *answer == Err(fault),
    }
}

#[test]
fn failing_devices(rt: HostRuntime) -> Result<(), Fail> {
    for (text, nth, answer) in &READS {
        let read = read(rt.alloc(), feed_of(rt.alloc(), text, *nth)?);
        assert!(rt; is_read(read, text, answer), "{text} {nth}");
    }
    Ok(())
}

// Returns a feed that gives at most `step` bytes a pull.
fn cutting(alloc: Global, text: &str, step: usize) -> Result<MemFeed, AllocError>
    requires { 1 ≤ step }
{
    Ok(MemFeed::cutting(text.as_bytes().to_vec(alloc)?, step))
}

const PIECES: [(&str, Result<(), SlurpFault>); 3] = [
    ("abcd", Ok(())),
    ("abcde", Err(SlurpFault::TooLong)),
    ("abcdefgh", Err(SlurpFault::TooLong)),
];

// A text is read up to the limit and no further, for any number of bytes a pull.
#[test]
fn texts_in_pieces(rt: HostRuntime) -> Result<(), Fail> {
    for (text, answer) in &PIECES {
        for step in [1, 2, 7] {
            let read = read(rt.alloc(), cutting(rt.alloc(), text, step)?);
            assert!(rt; is_read(read, text, answer), "{text} {step}");
        }
    }
    Ok(())
}
