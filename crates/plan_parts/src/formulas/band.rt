//! The bands of a heap leach: the recovery of metal at each grade.

ghost use Rattle.std.specs.Prelude.{◌≡◌, ◌≤◌, ◌↔◌, IsTrue, IsSome, IfSome, IfOk, All, true, length, take, nat_le, filter};
ghost use Rattle.plan_parts.specs.formulas.Bands.{recovery_at};
ghost use Rattle.plan_parts.specs.formulas.BandsInvariant.{IsBand, AreBands, starts_rise};
ghost use Rattle.plan_parts.specs.declared.ranges.TheConstants.{MAX_RECOVERY};

use crate::ranges::{MAX_BANDS, MAX_GRADE, MAX_RECOVERY};
use std::alloc::{AllocError, Global};
use std::marker::Model;

/// A band of grades with the same recovery at a heap leach. It ends where the next band begins.
#[derive(Clone, Copy, Debug, PartialEq, Eq)]
pub struct Band {
    /// The smallest grade of the band, in millionths of a gram per tonne, 0 to 10^12.
    pub start: u64,
    /// The recovery of the metal, per mille, 0 to 1000.
    pub recovery: u16,
}

/// 1 to 16 bands, each in range and beginning above the band before it. Contracts see the list of the bands.
#[derive(Debug, Drop)]
pub struct Bands {
    bands: Vec<Band>,
}

impl Model for Bands {
    ghost use Rattle.std.specs.Prelude.{List};
    ghost use Rattle.plan_parts.specs.declared.formulas.band.Band.{Band};

    ghost Value = { List Band };

    ghost use Rattle.plan_parts.specs.formulas.BandsInvariant.{AreBands};

    ghost view = { λ b. b.bands.items };

    ghost invariant = { λ b. AreBands b.bands.items };
}

impl Bands {
    /// Makes bands from this list. Returns `None` if there are not 1 to 16, a band is out of range, or a band does not begin above
    /// the band before it.
    pub fn new(bands: Vec<Band>) -> Option<Bands>
        ensures formula_in_range { IsSome result ↔ AreBands bands.items }
        ensures value { IfSome result (λ b. b ≡ bands.items) }
    {
        let count = bands.len();
        if 1 <= count
            && count <= MAX_BANDS
            && are_in_range(bands.as_slice())
            && starts_rise(bands.as_slice())
        {
            Some(Bands { bands })
        } else {
            None
        }
    }

    /// Returns the recovery per mille at a grade in millionths of a gram per tonne: the recovery of the last band that begins at or below the
    /// grade, or 0 if the first band begins above it. Uses binary search.
    pub fn recovery(&self, grade: u64) -> u16
        ensures value { result ≡ recovery_at self.now grade }
        ensures in_range { result ≤ MAX_RECOVERY }
    {
        let bands = self.bands.as_slice();
        match bands[..count_begun(bands, grade)].last() {
            Some(band) => band.recovery,
            None => 0,
        }
    }

    /// Returns the bands, in ascending order of their starts.
    pub fn as_slice(&self) -> &[Band]
        ensures value { result.now ≡ self.now }
        ensures kept { AreBands self.now }
    {
        &self.bands
    }

    /// Copies the bands. Fails only if memory is refused.
    pub fn copy(&self, alloc: Global) -> Result<Bands, AllocError>
        ensures { IfOk result (λ b. b ≡ self.now) }
    {
        Ok(Bands {
            bands: Vec::from_slice(alloc, self.bands.as_slice())?,
        })
    }
}

/// Returns whether each band begins above the band before it.
pub fn starts_rise(bands: &[Band]) -> bool
    ensures { result ≡ starts_rise bands.now }
{
    bands.is_sorted_by(|band, next| band.start < next.start)
}

impl PartialEq for Bands {
    ghost use Rattle.std.specs.Prelude.{◌≡◌, ◌↔◌, IsTrue};
    ghost use Rattle.std.specs.Cmp.{partial_equiv_from_equiv};
    ghost use Rattle.plan_parts.specs.formulas.BandsInvariant.{bands_eq};
    ghost use Rattle.plan_parts.specs.inner.Equality.{bands_equivalence};

    ghost eq = { bands_eq };

    ghost laws = { partial_equiv_from_equiv bands_equivalence };

    fn eq(&self, other: &Bands) -> bool
        ensures value { result ≡ bands_eq self.now other.now }
        ensures equal { IsTrue result ↔ (self.now ≡ other.now) }
    {
        self.bands.as_slice() == other.bands.as_slice()
    }
}

impl Eq for Bands {
    ghost use Rattle.plan_parts.specs.inner.Equality.{bands_equivalence};

    ghost laws = { bands_equivalence };
}

// Returns the number of bands that begin at or below a grade. Since starts rise, these are the first bands.
fn count_begun(bands: &[Band], grade: u64) -> usize
    requires { starts_rise bands.now ≡ true }
    ensures within { result ≤ length bands.now }
    ensures begun { filter (λ b. nat_le b.start grade) bands.now ≡ take result bands.now }
{
    bands.partition_point(|band| band.start <= grade)
}

fn are_in_range(bands: &[Band]) -> bool
    ensures { IsTrue result ↔ All IsBand bands.now }
{
    bands.iter().all(|band| band.start <= MAX_GRADE && band.recovery <= MAX_RECOVERY)
}
