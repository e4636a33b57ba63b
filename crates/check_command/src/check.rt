//! The check of an instance's files.

ghost use Rattle.std.specs.Prelude.{◌≡◌, ◌≤◌, ◌⊎◌, IfErr, IfOk, Ok, OnErr, OnOk};
ghost use Rattle.check_command.specs.Checked.{FailsIn, IsCheckStatus, IsFoundIn, IsFoundInOpenedFiles, IsMissing, IsUntried, ReportsFiles, ReportsOpenedFiles};
ghost use Rattle.check_command.specs.inner.CheckSteps.{CountsAll, CountsOn};
ghost use Rattle.refusals.specs.declared.refusal.Refusal.TheVariants.{OutOfMemory};
ghost use Rattle.plan_parts.specs.declared.ranges.TheConstants.{MAX_BLOCKS};
ghost use Rattle.command_io.specs.FaultLine.{IsDoneOrRefused};
ghost use Rattle.command_io.specs.declared.refused.Refused.TheVariants.{Run};

use crate::counting::count_on;
use crate::counts::Counts;
use command_io::refused::Refused;
use command_io::refused::fault_line::report;
use command_io::refused::source::Source;
use devices::files::file_access::AtPath;
use devices::files::opener::Opener;
use devices::files::system_files::{SystemFile, SystemFiles};
use std::alloc::Global;
use std::rt::Files;
use text_lines::text_fault::{TextFault, TextFile};

/// Reads the files of an instance, `BASE.blocks`, `BASE.prec` and `BASE.pcpsp`, then `BASE.cpit` if it can be opened, and counts
/// each text while its file is read. Appends the line of their counts to `out`, or the line of the first error to `err`; at most
/// one of the two grows. A file that cannot be opened or read, or is too long, is reported before an invalid line of any file; of
/// several such files, the first is reported. Opens no other file. Returns the exit status:
///
/// - 0: the counts were appended;
/// - 1: a text is too long, or has an invalid line;
/// - 3: a file cannot be opened or read;
/// - 4: memory was refused, and both vectors are unchanged.
pub fn check<O: Opener>(
    alloc: Global,
    files: &mut O,
    base: &str,
    out: &mut Vec<u8>,
    err: &mut Vec<u8>,
) -> u8
    ensures ends { IsDoneOrRefused (ReportsFiles base.now O.Opened.state O.File.path
        (O.opened files.old) (O.opened files.new)) (IsFoundIn base.now O.Opened.state O.File.path
        (O.opened files.old) (O.opened files.new))
        out.old.items out.new.items err.old.items err.new.items result }
    ensures status { IsCheckStatus result }
    ensures memory { result ≡ 4 → err.new.items ≡ err.old.items }
{
    match report_counts(alloc, base, files, out) {
        Ok(()) => 0,
        Err(refused) => report(alloc, &refused, err),
    }
}

/// Does the same for the system's files, which it opens at these paths. No contract can state their content.
pub fn check_files<R: Files>(
    rt: &R,
    alloc: Global,
    base: &str,
    out: &mut Vec<u8>,
    err: &mut Vec<u8>,
) -> u8
where
    R::File: Send,
    ensures ends { IsDoneOrRefused
        (ReportsOpenedFiles base.now (⟦<SystemFile<R::File> as AtPath>⟧.path))
        (IsFoundInOpenedFiles base.now (⟦<SystemFile<R::File> as AtPath>⟧.path))
        out.old.items out.new.items err.old.items err.new.items result }
    ensures status { IsCheckStatus result }
    ensures memory { result ≡ 4 → err.new.items ≡ err.old.items }
{
    check(alloc, &mut SystemFiles::new(rt), base, out, err)
}

// Appends the line with the counts of the files. After an error `out` is unchanged.
fn report_counts<O: Opener>(
    alloc: Global,
    base: &str,
    files: &mut O,
    out: &mut Vec<u8>,
) -> Result<(), Refused>
    ensures counts { OnOk result (ReportsFiles base.now O.Opened.state O.File.path
        (O.opened files.old) (O.opened files.new) out.old.items out.new.items) }
    ensures kept { OnErr result (out.new.items ≡ out.old.items) }
    ensures fault { IfErr result (IsFoundIn base.now O.Opened.state O.File.path
        (O.opened files.old) (O.opened files.new)) }
{
    let counts = count_all(alloc, base, files)?;
    let line = format!(in alloc; "{counts}\n")?;
    out.extend_from_slice(line.as_bytes())?;
    Ok(())
}

// Returns the counts of the files' texts. Reads each file to its end, also after an invalid line.
fn count_all<O: Opener>(alloc: Global, base: &str, files: &mut O) -> Result<Counts, Refused>
    ensures counts { IfOk result (λ counts. CountsAll base.now O.Opened.state O.File.path
        (O.opened files.old) (O.opened files.new) (Ok counts)) }
    ensures fault { IfErr result (IsFoundIn base.now O.Opened.state O.File.path
        (O.opened files.old) (O.opened files.new)) }
{
    let mut counts = Ok(Counts::new());
    count_file(alloc, base, TextFile::Blocks, files, &mut counts)?;
    count_file(alloc, base, TextFile::Prec, files, &mut counts)?;
    count_file(alloc, base, TextFile::Pcpsp, files, &mut counts)?;
    count_file(alloc, base, TextFile::Cpit, files, &mut counts)?;
    match counts {
        Ok(counts) => Ok(counts),
        Err(fault) => Err(Refused::Text(fault)),
    }
}

// Adds the counts of a file to the counts of earlier files, unless a line is invalid. A `cpit` that cannot be opened adds none.
#[tactic(auto, using(crate::proofs::Checks::unread_file, crate::proofs::Checks::counted_file))]
fn count_file<O: Opener>(
    alloc: Global,
    base: &str,
    file: TextFile,
    files: &mut O,
    counts: &mut Result<Counts, TextFault>,
) -> Result<(), Refused>
    requires few { IfOk counts.old (λ counts. counts.blocks ≤ MAX_BLOCKS) }
    ensures counts { OnOk result (CountsOn base.now O.Opened.state O.File.path file
        (O.opened files.old) (O.opened files.new) counts.old counts.new) }
    ensures few { OnOk result (IfOk counts.new (λ counts. counts.blocks ≤ MAX_BLOCKS)) }
    ensures fault { IfErr result (λ refused. FailsIn base.now O.Opened.state O.File.path file
        (O.opened files.old) (O.opened files.new) refused
        ⊎ (IsMissing base.now file (O.opened files.old) (O.opened files.new) refused
        ⊎ IsUntried (O.opened files.old) (O.opened files.new) refused)) }
{
    let path = format!(in alloc; "{base}.{file}")?;
    match files.open(path.as_str()) {
        Ok(mut feed) => match count_on(alloc, file, counts, &mut feed) {
            Ok(()) => Ok(()),
            Err(fault) => Err(Refused::unread(Source::Text(file), fault)),
        },
        Err(_) if file == TextFile::Cpit => Ok(()),
        Err(_) => Err(Refused::FeedFailed(Source::Text(file))),
    }
}
