//! The keys of a model file, and the numbers of its header keys.

ghost use Rattle.std.specs.Prelude.{◌≡◌};
ghost use Rattle.minelib_reading.specs.HeaderNumbers.{count_in, is_complete, is_given, no_key, number_of, with_key};

use minelib_lines::header_key::{HeaderKey, KEYS};

/// The part of a model file to which a line belongs.
#[derive(Clone, Copy, Debug, PartialEq, Eq)]
pub enum Section {
    /// The header keys, before the first section.
    Heading,
    /// The values of each block.
    Objective,
    /// The coefficients of the resources.
    Coefs,
    /// The limits of the resources.
    Limits,
}

/// The key of a key line.
#[derive(Clone, Copy, Debug, PartialEq, Eq)]
pub enum ModelKey {
    Header(HeaderKey),
    Section(Section),
}

/// The numbers of the header keys that were read (`numbers`), by the place of the key. A key whose value must only be correct, such
/// as NBLOCKS, has 0.
#[derive(Clone, Copy, Debug, PartialEq, Eq)]
pub struct Header {
    // By the place of the key, in the order in which keys are written.
    numbers: [Option<u32>; KEYS],
}

impl Header {
    /// Makes a header before any key.
    pub fn blank() -> Header
        ensures { result ≡ no_key }
    {
        Header {
            numbers: [None; KEYS],
        }
    }

    /// Returns this header with a number for the key.
    pub fn with(mut self, key: HeaderKey, number: u32) -> Header
        ensures { result ≡ with_key self key number }
    {
        keep(&mut self.numbers, key, number);
        self
    }

    // Returns the number of a key that was read.
    #[inline]
    fn number(&self, key: HeaderKey) -> Option<u32>
        ensures { result ≡ number_of self.now key }
    {
        self.numbers[key.place()]
    }

    /// Returns the number of a key, or 0 before it was read.
    #[inline]
    pub fn count(&self, key: HeaderKey) -> u32
        ensures { result ≡ count_in self.now key }
    {
        self.number(key).unwrap_or(0)
    }

    /// Returns whether a key was read.
    pub fn is_given(&self, key: HeaderKey) -> bool
        ensures { result ≡ is_given key self.now }
    {
        self.number(key).is_some()
    }

    /// Returns whether all keys were read.
    #[tactic(auto, using(crate::proofs::keys::HeaderFacts::all_numbers))]
    pub fn is_complete(&self) -> bool
        ensures { result ≡ is_complete self.now }
    {
        self.numbers.iter().all(|number| number.is_some())
    }
}

// Stores the number of a key at its place.
#[tactic(auto, using(crate::proofs::keys::HeaderFacts::key_set))]
fn keep(numbers: &mut [Option<u32>; KEYS], key: HeaderKey, number: u32)
    ensures { record { numbers = numbers.new }
        ≡ with_key (record { numbers = numbers.old }) key number }
{
    numbers[key.place()] = Some(number);
}
