//! The values of the header keys of a file.

ghost use Rattle.std.specs.Prelude.{◌≡◌, length, true};
ghost use Rattle.plan_parts.specs.Name.{is_name};
ghost use Rattle.minelib_lines.specs.HeaderTable.{key_text};
ghost use Rattle.minelib_lines.specs.KeyParts.{text_in, value_text};
ghost use Rattle.minelib_lines.specs.StatedHeader.{header_of, header_of_cpit};

use crate::header_key::HeaderKey;
use mine_instance::coefs::list::CoefList;
use mine_instance::cpit::Cpit;
use mine_instance::instance::Instance;
use mine_instance::values::list::ValueList;
use pit_units::Dec;
use precedence::PredLists;

/// The values of a file's header keys. A value whose key the file does not have may be anything.
#[derive(Drop)]
pub struct KeyValues<'a> {
    pub problem: &'a [u8],
    pub name: &'a [u8],
    pub blocks: usize,
    pub periods: u8,
    pub destinations: u8,
    pub resources: u8,
    pub rate: Dec,
}

/// The value of a key.
#[derive(Clone, Copy)]
pub enum KeyValue<'a> {
    Text(&'a [u8]),
    Whole(u64),
    Decimal(Dec),
}

impl<'a> KeyValues<'a> {
    /// Returns the values of an instance's file; `problem` is the value of TYPE.
    pub fn of_instance<P: PredLists, C: CoefList, V: ValueList>(
        problem: &'a [u8],
        instance: &'a Instance<P, C, V>,
    ) -> KeyValues<'a>
        ensures values { text_in result
            ≡ key_text problem.now (length instance.now.blocks) (header_of instance.now) }
        ensures kept { is_name instance.now.name ≡ true }
    {
        KeyValues {
            problem,
            name: instance.name.as_str().as_bytes(),
            blocks: instance.blocks_len(),
            periods: instance.periods,
            destinations: instance.destinations,
            resources: instance.resources,
            rate: instance.rate,
        }
    }

    /// Returns the values of an instance's file in which each block has one destination.
    pub fn of_one_destination<P: PredLists, C: CoefList, V: ValueList>(
        problem: &'a [u8],
        instance: &'a Instance<P, C, V>,
    ) -> KeyValues<'a>
        ensures values { text_in result
            ≡ key_text problem.now (length instance.now.blocks)
            (record (header_of instance.now) { destinations = 1 }) }
        ensures kept { is_name instance.now.name ≡ true }
    {
        KeyValues {
            problem,
            name: instance.name.as_str().as_bytes(),
            blocks: instance.blocks_len(),
            periods: instance.periods,
            destinations: 1,
            resources: instance.resources,
            rate: instance.rate,
        }
    }

    /// Returns the values of a CPIT's file. A CPIT has one destination.
    pub fn of_cpit(problem: &'a [u8], cpit: &'a Cpit) -> KeyValues<'a>
        ensures values { text_in result
            ≡ key_text problem.now (length cpit.now.values) (header_of_cpit cpit.now) }
        ensures kept { is_name cpit.now.name ≡ true }
    {
        KeyValues {
            problem,
            name: cpit.name().as_str().as_bytes(),
            blocks: cpit.values().len(),
            periods: cpit.periods(),
            destinations: 1,
            resources: cpit.resources(),
            rate: cpit.rate(),
        }
    }

    /// Returns the value of a key.
    pub fn of(&self, key: HeaderKey) -> KeyValue<'a>
        ensures { value_text result ≡ text_in self.now key }
    {
        match key {
            HeaderKey::Name => KeyValue::Text(self.name),
            HeaderKey::Type => KeyValue::Text(self.problem),
            HeaderKey::Blocks => KeyValue::Whole(self.blocks as u64),
            HeaderKey::Periods => KeyValue::Whole(u64::from(self.periods)),
            HeaderKey::Destinations => KeyValue::Whole(u64::from(self.destinations)),
            HeaderKey::Resources => KeyValue::Whole(u64::from(self.resources)),
            HeaderKey::General => KeyValue::Whole(0),
            HeaderKey::Rate => KeyValue::Decimal(self.rate),
        }
    }
}
