//! The job that the arguments of a command line state.

use command_lines::job::{Job, JobFault};
use command_lines::stated_job::job;
use std::alloc::Global;
use std::test::Fail;

// Splits the arguments at blanks.
fn arguments_of(alloc: Global, line: &str) -> Result<Vec<String>, Fail> {
    let mut arguments = Vec::new(alloc);
    for word in line.split(' ') {
        arguments.push(String::from_str(alloc, word)?)?;
    }
    Ok(arguments)
}

// Returns the valuers, the capacity and the number of zone files of the job that the arguments state, or the exit status of the
// error.
fn stated(alloc: Global, arguments: &[String]) -> Result<(usize, usize, usize), i32> {
    match job(alloc, arguments) {
        Ok(Job::Compile(run)) => Ok((run.settings.valuers, run.settings.capacity, run.zones.len())),
        Ok(Job::Check { .. }) => Ok((0, 0, 0)),
        Err(JobFault::Line(error)) => Err(error.exit_code()),
        Err(JobFault::OutOfMemory) => Err(4),
    }
}

#[test]
fn settings_and_words(rt: HostRuntime) -> Result<(), Fail> {
    for (line, wanted) in [
        ("pitc compile --plan p --out b z", Ok((4, 64, 1))),
        (
            "pitc compile --plan p --out b --valuers +5 --capacity 007 z y",
            Ok((5, 7, 2)),
        ),
        ("pitc compile --plan p --out b --valuers 65 z", Err(2)),
    ] {
        let arguments = arguments_of(rt.alloc(), line)?;
        assert!(rt;
            stated(rt.alloc(), arguments.as_slice()) == wanted,
            "{line}"
        );
    }
    Ok(())
}

// Returns whether the arguments state that one zone file is compiled, with the default settings.
fn compiles_one(alloc: Global, arguments: &[String]) -> bool {
    match job(alloc, arguments) {
        Ok(Job::Compile(run)) => {
            (run.settings.valuers, run.settings.capacity) == (4, 64)
                && run.plan.as_str() == "p"
                && run.out.as_str() == "b"
                && run.zones.iter().all(|zone| zone.as_str() == "z")
        }
        _ => false,
    }
}

fn checks(alloc: Global, arguments: &[String]) -> bool {
    match job(alloc, arguments) {
        Ok(Job::Check { base }) => base.as_str() == "b",
        _ => false,
    }
}

// Each argument is used for its purpose.
#[test]
fn arguments_of_jobs(rt: HostRuntime) -> Result<(), Fail> {
    let arguments = arguments_of(rt.alloc(), "pitc compile --plan p --out b z")?;
    assert!(rt; compiles_one(rt.alloc(), arguments.as_slice()));
    let arguments = arguments_of(rt.alloc(), "pitc check b")?;
    assert!(rt; checks(rt.alloc(), arguments.as_slice()));
    Ok(())
}
