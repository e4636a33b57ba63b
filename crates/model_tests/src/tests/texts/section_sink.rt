//! Texts one after the other, after the bytes of a vector.

use devices::sinks::section_sink::SectionSink;
use devices::sinks::sink::Sink;
use std::alloc::Global;
use std::test::Fail;

fn begins<S: Sink>(sink: &mut S) -> bool {
    sink.begin().is_ok()
}

// Returns whether a put takes all of this text.
fn takes<S: Sink>(sink: &mut S, text: &str) -> bool {
    sink.put(text.as_bytes()).ok() == Some(text.len())
}

// Returns the bytes of a sink that takes a text, is begun again and takes another text; and then a third one after a line.
fn held(alloc: Global) -> Result<Option<Vec<u8>>, Fail> {
    let mut sink = SectionSink::new(b"front\n".to_vec(alloc)?);
    if !begins(&mut sink) || !takes(&mut sink, "the first and longer text\n") {
        return Ok(None);
    }
    if !begins(&mut sink) || !takes(&mut sink, "0 0\n") {
        return Ok(None);
    }
    sink.section(b"== prec\n")?;
    if !begins(&mut sink) || !takes(&mut sink, "1 0\n") {
        return Ok(None);
    }
    Ok(Some(sink.into_vec()))
}

// A text that is begun again drops its bytes, but no bytes before the text.
#[test]
fn a_section_begun_again(rt: HostRuntime) -> Result<(), Fail> {
    let held = held(rt.alloc())?.ok_or("a refusal")?;
    assert!(rt; held.as_slice() == b"front\n0 0\n== prec\n1 0\n".as_slice());
    Ok(())
}
