//! The test whether an instance is valid.

ghost use Rattle.std.specs.Prelude.{◌≢◌, ◌≤◌, ◌↔◌, length, All, AllPairs, IsTrue};
ghost use Rattle.mine_instance.specs.Valid.{HasLengths, ArePredsOf, ArePreds, IsHorizon, HasDestinations, AreCoefs, AreLimits, IsValid};
ghost use Rattle.plan_parts.specs.declared.ranges.TheConstants.{MAX_BLOCKS};

use crate::coefs::coef::Coef;
use crate::instance::Instance;
use crate::rising::rises;
use crate::values::Values;
use pit_units::Dec;
use plan_parts::limit::Limit;
use plan_parts::ranges::{MAX_BLOCKS, MAX_DESTINATIONS, MAX_PERIODS, MAX_RATE, MAX_RESOURCES};
use precedence::Preds;

/// Returns whether the parts of an instance have their lengths, ranges and orders.
pub fn is_valid(instance: &Instance) -> bool
    ensures { IsTrue result ↔ IsValid instance.now }
{
    let count = instance.blocks_len();
    if !has_lengths(instance) {
        return false;
    }
    if !are_preds(&instance.preds, count) {
        return false;
    }
    if !is_horizon(instance.periods, instance.resources, instance.rate) {
        return false;
    }
    if !has_destinations(instance.destinations, &instance.values) {
        return false;
    }
    if !are_coefs(
        instance.coefs.as_slice(),
        count,
        instance.destinations,
        instance.resources,
    ) {
        return false;
    }
    are_limits(
        instance.limits.as_slice(),
        instance.resources,
        instance.periods,
    )
}

fn has_lengths(instance: &Instance) -> bool
    ensures { IsTrue result ↔ HasLengths instance.now }
{
    let count = instance.blocks_len();
    count <= MAX_BLOCKS && instance.preds.len() == count && instance.values.len() == count
}

fn are_preds(preds: &Preds, count: usize) -> bool
    requires { length preds.now ≤ MAX_BLOCKS }
    ensures { IsTrue result ↔ ArePreds count preds.now }
{
    for id in 0..preds.len() {
        if !are_preds_of(preds.of(id as u32), id, count) {
            return false;
        }
    }
    true
}

fn are_preds_of(ids: &[u32], own: usize, count: usize) -> bool
    ensures { IsTrue result ↔ ArePredsOf own count ids.now }
{
    ids.iter().all(|id| (*id as usize) < count)
        && ids.iter().all(|id| *id as usize != own)
        && are_distinct(ids)
}

// The lists of a built instance rise, so no pairs need to be compared.
fn are_distinct(ids: &[u32]) -> bool
    ensures { IsTrue result ↔ AllPairs (λ id other. id ≢ other) ids.now }
{
    rises(ids) || differ(ids)
}

fn differ(ids: &[u32]) -> bool
    ensures { IsTrue result ↔ AllPairs (λ id other. id ≢ other) ids.now }
{
    for index in 0..ids.len() {
        let (before, _) = ids.split_at(index);
        if !is_new(before, ids[index]) {
            return false;
        }
    }
    true
}

fn is_new(before: &[u32], id: u32) -> bool
    ensures { IsTrue result ↔ All (λ other. other ≢ id) before.now }
{
    before.iter().all(|other| *other != id)
}

fn is_horizon(periods: u8, resources: u8, rate: Dec) -> bool
    ensures { IsTrue result ↔ IsHorizon periods resources rate }
{
    let millionths = rate.millionths();
    1 <= periods
        && u32::from(periods) <= MAX_PERIODS
        && resources <= MAX_RESOURCES
        && 0 <= millionths
        && millionths <= MAX_RATE
}

fn has_destinations(destinations: u8, values: &Values) -> bool
    ensures { IsTrue result ↔ HasDestinations destinations values.now }
{
    1 <= destinations
        && destinations <= MAX_DESTINATIONS
        && values.are_of_width(usize::from(destinations))
}

fn are_coefs(coefs: &[Coef], count: usize, destinations: u8, resources: u8) -> bool
    ensures { IsTrue result ↔ AreCoefs count destinations resources coefs.now }
{
    coefs.iter().all(|coef| (coef.b as usize) < count
        && coef.d < destinations
        && coef.r < resources)
        && rises(coefs)
}

fn are_limits(limits: &[Limit], resources: u8, periods: u8) -> bool
    ensures { IsTrue result ↔ AreLimits resources periods limits.now }
{
    limits.iter().all(|limit| limit.resource < resources
        && limit.period < periods
        && !limit.bound.is_turned())
        && rises(limits)
}
