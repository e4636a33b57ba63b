//! Writes the files of an instance. Each writer begins the sink and writes the text, which has parts. After an error, the sink is
//! unchanged, or it was begun and holds a prefix of the text; it refused one call after `SinkFailed`, and none after `OutOfMemory`.

ghost use Rattle.std.specs.Prelude.{◌<◌, ◌++◌, length, All, OnOk, ⊤};
ghost use Rattle.devices.specs.sinks.Writes.{Writes};
ghost use Rattle.mine_instance.specs.cpit.CpitInvariant.{IsCpit};
ghost use Rattle.mine_instance.specs.cpit.OfCpit.{cpit as instance_cpit};
ghost use Rattle.mine_instance.specs.Valid.{IsValid};
ghost use Rattle.mine_instance.specs.WellFormed.{IsWellFormed, IsWellFormedCpit};
ghost use Rattle.minelib_lines.specs.KeyParts.{text_in};
ghost use Rattle.minelib_lines.specs.HeaderTable.{key_lines};
ghost use Rattle.minelib_lines.specs.Lines.{text_of};
ghost use Rattle.minelib_writing.specs.Texts.{text_named};
ghost use Rattle.minelib_writing.specs.TextsKept.{kept_named};
ghost use Rattle.minelib_writing.specs.Written.{section_lines, text_blocks, text_prec, text_upit, text_pcpsp, text_cpit};
ghost use Rattle.minelib_writing.specs.inner.KeptParts.{HoldsFrom};

use crate::keys::write_keys;
use crate::lines::Lines;
use crate::lines::coefs::{CoefForm, CoefLines};
use crate::lines::values::{LargestLines, ValueLines};
use crate::lists_file::write_lists;
use crate::parts::{Parted, write_parts, write_titled};
use crate::sections::write_sections;
use devices::sinks::sink::Sink;
use devices::sinks::whole_text::{Text, write_text};
use devices::sinks::write_fault::WriteFault;
use mine_instance::coefs::list::CoefList;
use mine_instance::cpit::Cpit;
use mine_instance::instance::Instance;
use mine_instance::laws::a_valid_instance_has_a_cpit;
use mine_instance::values::list::ValueList;
use minelib_lines::header_key::HeaderKey;
use minelib_lines::key_values::KeyValues;
use minelib_lines::problem::Problem;
use minelib_lines::text_name::TextName;
use precedence::PredLists;
use std::alloc::Global;

#[derive(Drop)]
struct BlockFile<'a, P: PredLists, C: CoefList, V: ValueList> {
    instance: &'a Instance<P, C, V>,
}

impl<'a, P: PredLists, C: CoefList, V: ValueList> Text for BlockFile<'a, P, C, V> {
    ghost text = { λ t. text_blocks t.instance.now };

    ghost kept = { λ t. ⊤ };

    #[tactic(auto, unfolding(crate::specs::Written::text_blocks))]
    fn write<S: Sink>(
        &self,
        _alloc: Global,
        sink: &mut S,
        buffer: &mut Vec<u8>,
    ) -> Result<(), WriteFault> {
        let instance = self.instance;
        let items = instance.blocks.as_slice();
        write_parts(sink, buffer, &Lines { items })
    }
}

/// Begins the sink and writes the block file: a line for each block, by identifier.
pub fn write_blocks<P: PredLists, C: CoefList, V: ValueList, S: Sink>(
    alloc: Global,
    instance: &Instance<P, C, V>,
    sink: &mut S,
) -> Result<(), WriteFault>
    requires { IsValid instance.now }
    ensures { Writes (text_blocks instance.now) (S.state sink.old) (S.state sink.new) result }
{
    write_text(alloc, &BlockFile { instance }, sink)
}

/// Begins the sink and writes the precedence file: the predecessors of each block, by identifier.
#[tactic(auto, unfolding(crate::specs::Written::text_prec))]
pub fn write_prec<P: PredLists, C: CoefList, V: ValueList, S: Sink>(
    alloc: Global,
    instance: &Instance<P, C, V>,
    sink: &mut S,
) -> Result<(), WriteFault>
    requires { IsValid instance.now }
    ensures { Writes (text_prec instance.now) (S.state sink.old) (S.state sink.new) result }
{
    let mut preds = &instance.preds;
    write_lists(alloc, &mut preds, sink)?;
    Ok(())
}

#[derive(Drop)]
struct UpitFile<'a, P: PredLists, C: CoefList, V: ValueList> {
    instance: &'a Instance<P, C, V>,
    ghost some: { All (λ of_block. 0 < length of_block) instance.now.values },
}

impl<'a, P: PredLists, C: CoefList, V: ValueList> Text for UpitFile<'a, P, C, V> {
    ghost text = { λ t. text_upit t.instance.now };

    ghost kept = { λ t. ⊤ };

    #[tactic(auto, using(crate::proofs::SectionsWritten::nothing_put))]
    fn write<S: Sink>(
        &self,
        _alloc: Global,
        sink: &mut S,
        buffer: &mut Vec<u8>,
    ) -> Result<(), WriteFault> {
        let instance = self.instance;
        let values = &instance.values;
        write_keys(
            sink,
            buffer,
            &KeyValues::of_instance(b"UPIT", instance),
            HeaderKey::of_upit(),
        )?;
        write_titled(
            sink,
            buffer,
            b"OBJECTIVE_FUNCTION:",
            &LargestLines { values },
        )
    }
}

/// Begins the sink and writes the file of the ultimate pit limit problem: the largest value of each block, in units of 100 cents.
pub fn write_upit<P: PredLists, C: CoefList, V: ValueList, S: Sink>(
    alloc: Global,
    instance: &Instance<P, C, V>,
    sink: &mut S,
) -> Result<(), WriteFault>
    requires { IsValid instance.now }
    ensures { Writes (text_upit instance.now) (S.state sink.old) (S.state sink.new) result }
{
    write_text(alloc, &UpitFile { instance }, sink)
}

// A model file of three sections: the keys and values of its header, and the lines of each section.
#[derive(Drop)]
struct ModelFile<'a, V: Parted, C: Parted, L: Parted> {
    header: KeyValues<'a>,
    keys: &'a [HeaderKey],
    values: V,
    coefs: C,
    limits: L,
}

impl<'a, V: Parted, C: Parted, L: Parted> Text for ModelFile<'a, V, C, L> {
    ghost text = { λ t. text_of (key_lines (text_in t.header) t.keys.now
        ++ section_lines (V.lines t.values) (C.lines t.coefs) (L.lines t.limits)) };

    ghost kept = { λ t. HoldsFrom (V.kept t.values) 0 (length (V.parts t.values))
        × HoldsFrom (C.kept t.coefs) 0 (length (C.parts t.coefs))
        × HoldsFrom (L.kept t.limits) 0 (length (L.parts t.limits)) };

    #[tactic(auto, using(crate::proofs::SectionsWritten::nothing_put))]
    fn write<S: Sink>(
        &self,
        _alloc: Global,
        sink: &mut S,
        buffer: &mut Vec<u8>,
    ) -> Result<(), WriteFault> {
        write_keys(sink, buffer, &self.header, self.keys)?;
        write_sections(sink, buffer, &self.values, &self.coefs, &self.limits)
    }
}

/// Begins the sink and writes the file of the production scheduling problem. After success, the instance has what the types of its parts
/// guarantee: a NAME and decimals.
pub fn write_pcpsp<P: PredLists, C: CoefList, V: ValueList, S: Sink>(
    alloc: Global,
    instance: &Instance<P, C, V>,
    sink: &mut S,
) -> Result<(), WriteFault>
    requires { IsValid instance.now }
    ensures writes { Writes (text_pcpsp instance.now) (S.state sink.old) (S.state sink.new) result }
    ensures kept { OnOk result (IsWellFormed instance.now) }
{
    let form: CoefForm<V> = CoefForm::OfAll;
    let file = ModelFile {
        header: KeyValues::of_instance(Problem::Pcpsp.type_text(), instance),
        keys: Problem::Pcpsp.keys(),
        values: ValueLines {
            values: &instance.values,
        },
        coefs: CoefLines {
            coefs: &instance.coefs,
            form,
        },
        limits: Lines {
            items: instance.limits.as_slice(),
        },
    };
    write_text(alloc, &file, sink)
}

/// Begins the sink and writes the file of the constrained pit limit problem. After success, the CPIT has what the types of its parts
/// guarantee, and is a CPIT: its parts are in their ranges and orders.
pub fn write_cpit<S: Sink>(alloc: Global, cpit: &Cpit, sink: &mut S) -> Result<(), WriteFault>
    ensures writes { Writes (text_cpit cpit.now)
        (S.state sink.old) (S.state sink.new) result }
    ensures kept { OnOk result (IsWellFormedCpit cpit.now) }
    ensures is { OnOk result (IsCpit cpit.now) }
{
    let file = ModelFile {
        header: KeyValues::of_cpit(Problem::Cpit.type_text(), cpit),
        keys: Problem::Cpit.keys(),
        values: Lines {
            items: cpit.values(),
        },
        coefs: Lines {
            items: cpit.coefs(),
        },
        limits: Lines {
            items: cpit.limits(),
        },
    };
    write_text(alloc, &file, sink)
}

// Writes the CPIT of an instance, which is not built: each block's destination is computed when its lines are written.
fn write_chosen<P: PredLists, C: CoefList, V: ValueList, S: Sink>(
    alloc: Global,
    instance: &Instance<P, C, V>,
    sink: &mut S,
) -> Result<(), WriteFault>
    requires { IsValid instance.now }
    ensures writes { Writes (text_cpit (instance_cpit instance.now))
        (S.state sink.old) (S.state sink.new) result }
    ensures kept { OnOk result (IsWellFormedCpit (instance_cpit instance.now)) }
    ensures is { OnOk result (IsCpit (instance_cpit instance.now)) }
{
    a_valid_instance_has_a_cpit();
    let values = &instance.values;
    let file = ModelFile {
        header: KeyValues::of_one_destination(Problem::Cpit.type_text(), instance),
        keys: Problem::Cpit.keys(),
        values: LargestLines { values },
        coefs: CoefLines {
            coefs: &instance.coefs,
            form: CoefForm::OfChosen(values),
        },
        limits: Lines {
            items: instance.limits.as_slice(),
        },
    };
    write_text(alloc, &file, sink)
}

/// Begins the sink and writes the file with this name, of an instance or of its CPIT.
pub fn write_named<P: PredLists, C: CoefList, V: ValueList, S: Sink>(
    alloc: Global,
    name: TextName,
    instance: &Instance<P, C, V>,
    sink: &mut S,
) -> Result<(), WriteFault>
    requires { IsValid instance.now }
    ensures writes { Writes (text_named name instance.now) (S.state sink.old) (S.state sink.new) result }
    ensures kept { OnOk result (kept_named name instance.now) }
{
    match name {
        TextName::Blocks => write_blocks(alloc, instance, sink),
        TextName::Prec => write_prec(alloc, instance, sink),
        TextName::Upit => write_upit(alloc, instance, sink),
        TextName::Pcpsp => write_pcpsp(alloc, instance, sink),
        TextName::Cpit => write_chosen(alloc, instance, sink),
    }
}
