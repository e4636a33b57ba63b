//! The values of a run that clap found in arguments.

ghost use Rattle.std.specs.Prelude.{◌≡◌, ℕ, map, string_bytes, IfOk, MatchOption};
ghost use Rattle.clap.specs.Words.{found_of, rows_of};
ghost use Rattle.command_lines.specs.CommandLine.{FindsArguments, FindsNumber, FindsSettings};
ghost use Rattle.command_lines.specs.inner.Commands.{FindsIfAny};
ghost use Rattle.plan_parts.specs.declared.settings.Settings.{Settings as ASettings};

use crate::job::RunArguments;
use clap::ArgMatches;
use plan_parts::ranges::{MAX_CAPACITY, MAX_VALUERS};
use plan_parts::settings::Settings;
use std::alloc::{AllocError, Global};

/// Returns the values of a run, given or by default, or `None` if clap did not find all of them. clap itself rejects such
/// arguments.
pub fn run_arguments(
    alloc: Global,
    found: &ArgMatches<'_>,
) -> Result<Option<RunArguments>, AllocError>
    ensures { IfOk result (FindsIfAny (FindsArguments (rows_of (found_of found.now)))) }
{
    let Some(plan) = found.get_str("plan") else {
        return Ok(None);
    };
    let Some(out) = found.get_str("out") else {
        return Ok(None);
    };
    let Some(settings) = settings_in(found) else {
        return Ok(None);
    };
    let Some(zones) = found.get_strs("zone") else {
        return Ok(None);
    };
    if zones.is_empty() {
        return Ok(None);
    }
    let plan = String::from_str(alloc, plan)?;
    let out = String::from_str(alloc, out)?;
    let zones = copied(alloc, zones)?;
    Ok(Some(RunArguments {
        plan,
        out,
        settings,
        zones,
    }))
}

// Copies the arguments.
fn copied(alloc: Global, arguments: &[&str]) -> Result<Vec<String>, AllocError>
    ensures { IfOk result (λ copies. map string_bytes copies.items
        ≡ map (λ word. word.now) arguments.now) }
{
    let mut copies = Vec::new(alloc);
    for word in arguments {
        copies.push(String::from_str(alloc, word)?)?;
    }
    Ok(copies)
}

// Returns the settings that clap found, given or by default.
fn settings_in(found: &ArgMatches<'_>) -> Option<Settings>
    ensures { MatchOption result
        ((settings : ASettings) → FindsSettings (rows_of (found_of found.now)) settings → ⊥)
        (FindsSettings (rows_of (found_of found.now))) }
{
    let valuers = number_of_argument(found, "valuers", MAX_VALUERS)?;
    let capacity = number_of_argument(found, "capacity", MAX_CAPACITY)?;
    Some(Settings { valuers, capacity })
}

// Returns the integer from 1 to `most` that clap found for an argument.
fn number_of_argument(found: &ArgMatches<'_>, id: &str, most: usize) -> Option<usize>
    ensures { MatchOption result
        ((n : ℕ) → FindsNumber (rows_of (found_of found.now)) id.now most n → ⊥)
        (FindsNumber (rows_of (found_of found.now)) id.now most) }
{
    let number = found.get_one::<usize>(id)?;
    if number < 1 || number > most {
        return None;
    }
    Some(number)
}
