//! Faults of the settings of a run.

use std::fmt;
use thiserror::Error;

/// What is wrong with the settings of a run: the first that applies, in this order.
#[derive(Clone, Copy, Debug, Error, PartialEq, Eq)]
pub enum SettingsFault {
    /// The number of zone files is not the plan's number of zones.
    Files,
    /// The number of valuers is not 1 to 64.
    Valuers,
    /// The capacity is not 1 to 4096.
    Capacity,
    /// The destinations do not have the plan's formulas, in order.
    Destinations,
}

impl fmt::Display for SettingsFault {
    ghost use Rattle.std.specs.Prelude.{Some};
    ghost use Rattle.refusals.specs.FaultText.{settings_name};

    ghost output = { λ kind. Some (settings_name kind) };

    fn fmt<W: fmt::Write>(&self, f: &mut fmt::Formatter<W>) -> fmt::Result {
        f.write_str(match self {
            SettingsFault::Files => "Files",
            SettingsFault::Valuers => "Valuers",
            SettingsFault::Capacity => "Capacity",
            SettingsFault::Destinations => "Destinations",
        })
    }
}
