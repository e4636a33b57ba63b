//! The commands on files: what `compile` and `check` append, and their exit statuses.

use crate::tests::models::destinations_of;
use crate::tests::watch::{OPEN, Watch};
use check_command::check::check_files;
use compile_command::compile::compile_files;
use devices::feeds::file_feed::FileFeed;
use devices::files::system_files::SystemFiles;
use pit_compile::settings::Settings;
use pit_model::read_plan;
use std::alloc::Global;
use std::fs;
use std::rt::Files;
use std::sync::Wait;
use std::test::Fail;
use std::thread::Threads;

const MILL: &[u8] =
    b"name,one\ngrid,0,0,0,10,10,10\nzone,1,1,1\nmill,mill,900,600,1500\nperiods,1\nrate,0.1\n";

const ORE: &[u8] = b"x,y,z,tonnes,grade\n0,0,0,1000,5000\n";

// An exit status, and what was appended to the output and to the errors.
type Answer = (u8, Vec<u8>, Vec<u8>);

// Compiles the plan of a mill and the zone file at a path to files at this base.
fn compiled<R: Files + Threads + Wait + Sync>(
    rt: &R,
    alloc: Global,
    zone: &str,
    base: &str,
) -> Result<Answer, Fail>
where
    R::File: Send,
{
    let plan = read_plan(alloc, MILL)?;
    let watch = Watch::new(alloc, OPEN)?;
    let destinations = destinations_of(alloc, &plan, &watch)?;
    let zones = [String::from_str(alloc, zone)?];
    let (mut out, mut err) = (Vec::new(alloc), Vec::new(alloc));
    let settings = Settings {
        valuers: 4,
        capacity: 64,
    };
    let status = compile_files(
        rt,
        alloc,
        &plan,
        destinations.as_slice(),
        settings,
        base,
        &zones,
        &mut out,
        &mut err,
    );
    Ok((status, out, err))
}

fn checked<R: Files>(rt: &R, alloc: Global, base: &str) -> Answer
where
    R::File: Send,
{
    let (mut out, mut err) = (Vec::new(alloc), Vec::new(alloc));
    let status = check_files(rt, alloc, base, &mut out, &mut err);
    (status, out, err)
}

fn is_answer((status, out, err): &Answer, wanted: (u8, &str, &str)) -> bool {
    *status == wanted.0
        && out.as_slice() == wanted.1.as_bytes()
        && err.as_slice() == wanted.2.as_bytes()
}

// A folder of an earlier version has no CPIT file.
#[test]
fn failing_devices(rt: HostRuntime) -> Result<(), Fail> {
    let alloc = rt.alloc();
    fs::write(&rt, "ore.csv", ORE)?;
    let done = compiled(&rt, alloc, "ore.csv", "ore")?;
    assert!(rt; is_answer(&done, (0, "rows 1\n", "")));
    let counts = "blocks 1 arcs 0 coefficients 0 limits 0 cpit 0\n";
    assert!(rt; is_answer(&checked(&rt, alloc, "ore"), (0, counts, "")));
    fs::remove_file(&rt, "ore.cpit")?;
    let counts = "blocks 1 arcs 0 coefficients 0 limits 0\n";
    assert!(rt; is_answer(&checked(&rt, alloc, "ore"), (0, counts, "")));
    assert!(rt; fs::read(&rt, "ore.csv")?.as_slice() == ORE);
    for path in ["ore.csv", "ore.blocks", "ore.prec", "ore.upit", "ore.pcpsp"] {
        fs::remove_file(&rt, path)?;
    }
    Ok(())
}

// Returns whether the file at a path cannot be opened.
fn is_closed<R: Files>(rt: &R, path: &str) -> bool {
    FileFeed::open(&mut SystemFiles::new(rt), path).is_err()
}

#[test]
fn files_that_are_not_there(rt: HostRuntime) -> Result<(), Fail> {
    let alloc = rt.alloc();
    assert!(rt; is_closed(&rt, "not_there.csv"));
    let refused = compiled(&rt, alloc, "not_there.csv", "not_there")?;
    assert!(rt; is_answer(&refused, (3, "", "pitc: file 0: FeedFailed\n")));
    let refused = checked(&rt, alloc, "not_there");
    assert!(rt; is_answer(&refused, (3, "", "pitc: blocks: FeedFailed\n")));
    for ending in ["csv", "blocks", "prec", "upit", "pcpsp", "cpit"] {
        let path = format!(in alloc; "not_there.{ending}")?;
        assert!(rt; is_closed(&rt, path.as_str()));
    }
    Ok(())
}
