//! Builds the CPIT of an instance.

ghost use Rattle.std.specs.Prelude.{◌≡◌, ◌==◌, ◌<◌, ◌++◌, length, map, filter, All, IfOk, OnOk};
ghost use Rattle.mine_instance.specs.Largest.{largest};
ghost use Rattle.mine_instance.specs.coefs.Groups.{coefs_in};
ghost use Rattle.mine_instance.specs.WellFormed.{IsWellFormed, IsWellFormedCpit};
ghost use Rattle.mine_instance.specs.cpit.OfCpit.{cpit, is_chosen, at_only_destination};
ghost use Rattle.mine_instance.specs.Valid.{IsValid};

use crate::coefs::coef::{Coef, Coefs};
use crate::coefs::group::CoefGroup;
use crate::coefs::list::CoefList;
use crate::cpit::Cpit;
use crate::instance::Instance;
use crate::values::list::ValueList;
use pit_units::Dec;
use precedence::PredLists;
use std::alloc::{AllocError, Global};

/// Builds the CPIT of a valid instance: each block goes to the first destination with its largest value, and gets the value and the
/// coefficients of that destination. If the instance has a NAME and its numbers are in the range of decimals, like every instance
/// that was built or read, so does the CPIT. Fails only if memory is refused.
pub fn build_cpit<P: PredLists, C: CoefList, V: ValueList>(
    alloc: Global,
    instance: &Instance<P, C, V>,
) -> Result<Cpit, AllocError>
    requires { IsValid instance.now }
    ensures value { IfOk result (λ built. built ≡ cpit instance.now) }
    ensures kept { IsWellFormed instance.now → IfOk result IsWellFormedCpit }
{
    let name = instance.name.copy(alloc)?;
    let values = largest_of(alloc, &instance.values)?;
    let coefs = chosen_of(alloc, &instance.coefs, &instance.values)?;
    let limits = Vec::from_slice(alloc, instance.limits.as_slice())?;
    Ok(Cpit::new(
        name,
        instance.rate,
        instance.periods,
        instance.resources,
        values,
        Coefs::new(coefs),
        limits,
    ))
}

// Returns the largest value of each block.
fn largest_of<V: ValueList>(alloc: Global, values: &V) -> Result<Vec<Dec>, AllocError>
    requires { All (λ of_block. 0 < length of_block) (V.list values.now) }
    ensures { IfOk result (λ all. all.items ≡ map largest (V.list values.now)) }
{
    let mut all = Vec::with_capacity(alloc, values.len())?;
    for block in 0..values.len() {
        all.push(values.of_block(block).largest())?;
    }
    Ok(all)
}

// Returns the coefficients at their blocks' destinations.
fn chosen_of<C: CoefList, V: ValueList>(
    alloc: Global,
    coefs: &C,
    values: &V,
) -> Result<Vec<Coef>, AllocError>
    requires some { All (λ of_block. 0 < length of_block) (V.list values.now) }
    requires there { All (λ coef. coef.b < length (V.list values.now)) (C.list coefs.now) }
    ensures { IfOk result (λ chosen. chosen.items
        ≡ map at_only_destination (filter (is_chosen (V.list values.now)) (C.list coefs.now))) }
{
    let mut chosen = Vec::new(alloc);
    let mut from = 0;
    while from < coefs.len() {
        let group = coefs.group(from);
        let destination = values.of_block(group.b as usize).first_largest();
        push_at(&mut chosen, &group, destination)?;
        from += group.pairs.len();
    }
    Ok(chosen)
}

// Appends the coefficients of a group that are at a destination.
fn push_at(chosen: &mut Vec<Coef>, group: &CoefGroup, destination: usize) -> Result<(), AllocError>
    ensures { OnOk result (chosen.new.items ≡ chosen.old.items
        ++ map at_only_destination (filter (λ coef. coef.d == destination) (coefs_in group.now))) }
{
    let (b, v) = (group.b, group.v);
    for (d, r) in group.pairs.as_slice() {
        if usize::from(*d) == destination {
            chosen.push(Coef { b, d: 0, r: *r, v })?;
        }
    }
    Ok(())
}
