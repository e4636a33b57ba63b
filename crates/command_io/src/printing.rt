//! The printing of an instance's files into one vector.

ghost use Rattle.std.specs.Prelude.{◌≡◌, ◌++◌, length, take, OnErr, OnOk};
ghost use Rattle.mine_instance.specs.Valid.{IsValid};
ghost use Rattle.minelib_lines.specs.TextNames.{ending_of};
ghost use Rattle.minelib_writing.specs.Texts.{text_named};
ghost use Rattle.command_io.specs.Sections.{printed, section};

use devices::sinks::section_sink::SectionSink;
use devices::sinks::write_fault::WriteFault;
use mine_instance::coefs::list::CoefList;
use mine_instance::instance::Instance;
use mine_instance::values::list::ValueList;
use minelib_lines::text_name::TextName;
use minelib_writing::write_named;
use precedence::PredLists;
use std::alloc::{AllocError, Global};
use std::mem::replace;

/// Appends the files of an instance to `out`, each after its section line. Fails only if memory is refused; then `out` is
/// unchanged.
pub fn print<P: PredLists, C: CoefList, V: ValueList>(
    alloc: Global,
    instance: &Instance<P, C, V>,
    out: &mut Vec<u8>,
) -> Result<(), AllocError>
    requires { IsValid instance.now }
    ensures ok { OnOk result
        (out.new.items ≡ out.old.items ++ printed instance.now) }
    ensures err { OnErr result (out.new.items ≡ out.old.items) }
{
    let kept = out.len();
    let mut sink = SectionSink::new(replace(out, Vec::new(alloc)));
    let printed = print_sections(alloc, instance, &mut sink);
    *out = sink.into_vec();
    if printed.is_err() {
        out.truncate(kept);
        return Err(AllocError);
    }
    Ok(())
}

// The same into a sink. After an error the bytes before are still a prefix.
fn print_sections<P: PredLists, C: CoefList, V: ValueList>(
    alloc: Global,
    instance: &Instance<P, C, V>,
    sink: &mut SectionSink,
) -> Result<(), WriteFault>
    requires { IsValid instance.now }
    ensures ok { OnOk result (sink.new.before ++ sink.new.taken
        ≡ (sink.old.before ++ sink.old.taken) ++ printed instance.now) }
    ensures err { OnErr result (take (length sink.old.before) sink.new.before ≡ sink.old.before) }
{
    for name in TextName::all() {
        print_section(alloc, name, instance, sink)?;
    }
    Ok(())
}

// The same for the file with this name alone.
fn print_section<P: PredLists, C: CoefList, V: ValueList>(
    alloc: Global,
    name: TextName,
    instance: &Instance<P, C, V>,
    sink: &mut SectionSink,
) -> Result<(), WriteFault>
    requires { IsValid instance.now }
    ensures ok { OnOk result (sink.new.before ++ sink.new.taken
        ≡ (sink.old.before ++ sink.old.taken)
        ++ section (ending_of name) (text_named name instance.now)) }
    ensures prefix { take (length sink.old.before) sink.new.before ≡ sink.old.before }
{
    let line = format!(in alloc; "== {name}\n")?;
    sink.section(line.as_bytes())?;
    write_named(alloc, name, instance, sink)
}
