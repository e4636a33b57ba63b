//! Bytes for contracts alone.

ghost use Rattle.std.specs.Prelude.{◌≡◌};
ghost use Rattle.devices.specs.ShownBytes.{bytes_of};

use std::snapshot::Snapshot;

/// Bytes for contracts alone, such as the path by which a file was opened. They use no memory.
#[derive(Drop)]
pub enum ShownBytes {
    None,
    More(u8, Snapshot<ShownBytes>),
}

/// Shows these bytes to contracts.
pub fn shown(bytes: &[u8]) -> ShownBytes
    ensures { bytes_of result ≡ bytes.now }
{
    let mut shown = ShownBytes::None;
    for byte in bytes {
        shown = ShownBytes::More(*byte, Snapshot::of(&shown));
    }
    shown
}
