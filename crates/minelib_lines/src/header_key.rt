//! The header keys of a model file.

ghost use Rattle.std.specs.Prelude.{◌≡◌, ◌<◌};
ghost use Rattle.minelib_lines.specs.HeaderTable.{upit_keys};
ghost use Rattle.minelib_lines.specs.HeaderKeys.{key_word, keys_of, place};
ghost use Rattle.minelib_lines.specs.declared.header_key.TheConstants.{KEYS};
ghost use Rattle.minelib_lines.specs.declared.problem.Problem.TheVariants as Problem;

/// The number of keys.
pub const KEYS: usize = 8;

/// A header key, in the order in which the keys are written.
#[derive(Clone, Copy, Debug, PartialEq, Eq)]
pub enum HeaderKey {
    Name,
    Type,
    Blocks,
    Periods,
    Destinations,
    Resources,
    General,
    Rate,
}

impl HeaderKey {
    /// Returns the word of the key, which precedes the colon in its line.
    pub fn word(self) -> &'static [u8]
        ensures { result.now ≡ key_word self }
    {
        match self {
            HeaderKey::Name => b"NAME",
            HeaderKey::Type => b"TYPE",
            HeaderKey::Blocks => b"NBLOCKS",
            HeaderKey::Periods => b"NPERIODS",
            HeaderKey::Destinations => b"NDESTINATIONS",
            HeaderKey::Resources => b"NRESOURCE_SIDE_CONSTRAINTS",
            HeaderKey::General => b"NGENERAL_SIDE_CONSTRAINTS",
            HeaderKey::Rate => b"DISCOUNT_RATE",
        }
    }

    /// Returns the keys of a PCPSP file: all keys.
    pub fn of_pcpsp() -> &'static [HeaderKey]
        ensures { result.now ≡ keys_of Problem.Pcpsp }
    {
        &[
            HeaderKey::Name,
            HeaderKey::Type,
            HeaderKey::Blocks,
            HeaderKey::Periods,
            HeaderKey::Destinations,
            HeaderKey::Resources,
            HeaderKey::General,
            HeaderKey::Rate,
        ]
    }

    /// Returns the keys of a CPIT file.
    pub fn of_cpit() -> &'static [HeaderKey]
        ensures { result.now ≡ keys_of Problem.Cpit }
    {
        &[
            HeaderKey::Name,
            HeaderKey::Type,
            HeaderKey::Blocks,
            HeaderKey::Periods,
            HeaderKey::Resources,
            HeaderKey::Rate,
        ]
    }

    /// Returns the keys of a UPIT file.
    pub fn of_upit() -> &'static [HeaderKey]
        ensures { result.now ≡ upit_keys }
    {
        &[HeaderKey::Name, HeaderKey::Type, HeaderKey::Blocks]
    }

    /// Returns the place of the key among all keys.
    #[inline]
    pub fn place(self) -> usize
        ensures value { result ≡ place self }
        ensures below { result < KEYS }
    {
        self as usize
    }
}
