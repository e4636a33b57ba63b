//! The constrained pit limit problem of an instance.

ghost use Rattle.std.specs.Prelude.{◌≡◌, length, AllPairs, IsTrue};
ghost use Rattle.mine_instance.specs.cpit.CpitInvariant.{IsCpit};
ghost use Rattle.mine_instance.specs.cpit.CpitOrder.{cpit_coef_before};

use crate::coefs::coef::{Coef, Coefs};
use pit_units::Dec;
use plan_parts::limit::Limit;
use plan_parts::name::Name;
use std::marker::Model;

/// An instance of the constrained pit limit problem of MineLib (Espinoza, Goycoolea, Moreno and Newman 2013): each block has one
/// destination, and so one value. Contracts see the record of its parts. The parts of every value have their lengths, ranges and
/// orders.
#[derive(Debug, Drop)]
pub struct Cpit {
    name: Name,
    rate: Dec,
    periods: u8,
    resources: u8,
    values: Vec<Dec>,
    coefs: Coefs,
    limits: Vec<Limit>,
}

impl Model for Cpit {
    ghost use Rattle.mine_instance.specs.cpit.Cpit.{CpitParts};

    ghost Value = { CpitParts };

    ghost use Rattle.mine_instance.specs.cpit.CpitInvariant.{IsCpit, cpit_of};

    ghost view = { λ c. cpit_of c.name c.rate c.periods c.resources c.values.items
        c.coefs c.limits.items };

    ghost invariant = { λ c. IsCpit (cpit_of c.name c.rate c.periods c.resources c.values.items
        c.coefs c.limits.items) };
}

impl Cpit {
    ghost use Rattle.mine_instance.specs.cpit.CpitInvariant.{cpit_of};

    /// Makes a CPIT of these parts, which must have their lengths, ranges and orders.
    pub fn new(
        name: Name,
        rate: Dec,
        periods: u8,
        resources: u8,
        values: Vec<Dec>,
        coefs: Coefs,
        limits: Vec<Limit>,
    ) -> Cpit
        requires { IsCpit (cpit_of name rate periods resources values.items coefs
            limits.items) }
        ensures { result ≡ cpit_of name rate periods resources values.items coefs
            limits.items }
    {
        Cpit {
            name,
            rate,
            periods,
            resources,
            values,
            coefs,
            limits,
        }
    }

    /// Returns the NAME of the instance.
    pub fn name(&self) -> &Name
        ensures { result.now ≡ self.now.name }
    {
        &self.name
    }

    /// Returns the discount rate, 0 to 1.
    pub fn rate(&self) -> Dec
        ensures { result ≡ self.now.rate }
    {
        self.rate
    }

    /// Returns the number of periods, 1 to 100.
    pub fn periods(&self) -> u8
        ensures { result ≡ self.now.periods }
    {
        self.periods
    }

    /// Returns the number of resources, at most 8.
    pub fn resources(&self) -> u8
        ensures { result ≡ self.now.resources }
    {
        self.resources
    }

    /// Returns the value of each block, in units of 100 cents.
    pub fn values(&self) -> &[Dec]
        ensures value { result.now ≡ self.now.values }
        ensures kept { IsCpit self.now }
    {
        self.values.as_slice()
    }

    /// Returns the coefficients, in strictly rising order of block and resource. Each is at destination 0, the only one.
    #[tactic(auto, using(crate::proofs::CpitFacts::rise_by_resource))]
    pub fn coefs(&self) -> &[Coef]
        ensures value { result.now ≡ self.now.coefs }
        ensures kept { IsCpit self.now }
        ensures rising { AllPairs (λ c e. IsTrue (cpit_coef_before c e)) self.now.coefs }
    {
        self.coefs.as_slice()
    }

    /// Returns the limits, in strictly rising order of resource and period.
    pub fn limits(&self) -> &[Limit]
        ensures value { result.now ≡ self.now.limits }
        ensures kept { IsCpit self.now }
    {
        self.limits.as_slice()
    }

    /// Returns the number of coefficients.
    pub fn coefs_len(&self) -> usize
        ensures { result ≡ length self.now.coefs }
    {
        self.coefs.as_slice().len()
    }
}
