//! The files of an instance that a compile writes: a sink for each, at its path.

ghost use Rattle.std.specs.Prelude.{◌≡◌, ◌++◌, map, string_bytes, IfOk, OnErr, OnOk};
ghost use Rattle.minelib_lines.specs.TextNames.{all_texts, ending_of};
ghost use Rattle.minelib_lines.specs.declared.text_name.TextName.{TextName as AName};
ghost use Rattle.pit_compile.specs.Sinks.{sink_of};
ghost use Rattle.devices.specs.sinks.FileSinkView.{unbegun};
ghost use Rattle.command_io.specs.FilePath.{path_to};

use devices::files::file_slot::FileSlots;
use devices::sinks::file_sink::FileSink;
use minelib_lines::text_name::TextName;
use pit_compile::sinks::Sinks;
use std::alloc::{AllocError, Global};

/// Makes sinks for the files of the instance: `BASE.blocks` and so on. None is begun. Makes exactly one slot for each. Fails only
/// if memory for the paths is refused; then no slot is made.
pub fn sinks_of<F: FileSlots>(
    files: &mut F,
    alloc: Global,
    base: &str,
) -> Result<Sinks<FileSink<F::Slot>>, AllocError>
    ensures sinks { IfOk result (λ sinks. (name : AName)
        → sink_of sinks name ≡ unbegun F.Slot.reports (path_to base.now (ending_of name))) }
    ensures made { OnOk result (F.made files.new
        ≡ F.made files.old ++ map (λ name. path_to base.now (ending_of name)) all_texts) }
    ensures kept { OnErr result (F.made files.new ≡ F.made files.old) }
{
    let paths = paths_of(alloc, base)?;
    Ok(Sinks {
        blocks: FileSink::from_slot(files.slot(paths.blocks)),
        prec: FileSink::from_slot(files.slot(paths.prec)),
        upit: FileSink::from_slot(files.slot(paths.upit)),
        pcpsp: FileSink::from_slot(files.slot(paths.pcpsp)),
        cpit: FileSink::from_slot(files.slot(paths.cpit)),
    })
}

// Returns the path of each sink's file: `BASE.blocks` and so on.
fn paths_of(alloc: Global, base: &str) -> Result<Sinks<String>, AllocError>
    ensures { IfOk result (λ paths. (name : AName)
        → string_bytes (sink_of paths name) ≡ path_to base.now (ending_of name)) }
{
    Sinks::each(|name| path_to(alloc, base, name))
}

// Returns the path of a file of the instance.
fn path_to(alloc: Global, base: &str, name: TextName) -> Result<String, AllocError>
    ensures { IfOk result (λ path. string_bytes path ≡ path_to base.now (ending_of name)) }
{
    Ok(format!(in alloc; "{base}.{name}")?)
}
