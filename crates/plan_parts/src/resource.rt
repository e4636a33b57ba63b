//! The resources of a plan.

use crate::listed::Listed;
use crate::name::Name;

/// The numbers of the destinations that a resource covers.
pub type Covers = Listed<u8>;

/// A resource, such as a plant or a fleet: it handles the tonnes that go to the destinations that it covers.
#[derive(Debug, Drop)]
pub struct Resource {
    pub name: Name,
    /// The destinations that it covers, each once.
    pub covers: Covers,
}
