//! The cones of the blocks of a model.

ghost use Rattle.std.specs.Prelude.{◌≡◌, ◌<◌, All, length};
ghost use Rattle.precedence.specs.inner.SameCone.{HaveSameCone};

use crate::cones::zone_tables::ZoneTables;
use crate::places::Places;

/// The blocks of a model by identifier, borrowed: their codes, their zones, the cone table of each zone, and the number of blocks with
/// the same cone that follow one another along x from each block on.
#[derive(Clone, Copy, Drop)]
pub struct BlockCones<'a> {
    pub places: &'a Places,
    pub zones: &'a [u8],
    pub same_cone: &'a [u16],
    pub tables: &'a ZoneTables,
    pub ghost each: { length zones.now ≡ length places.now.codes.items },
    pub ghost zoned: { All (λ z. z < length tables.now.of_zone.items) zones.now },
    pub ghost have_same_cone: { HaveSameCone places.now.codes.items tables.now.of_zone.items zones.now
        same_cone.now },
}
