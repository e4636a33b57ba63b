//! The feeds of the zone files that a compile opens.

ghost use Rattle.std.specs.Prelude.{map, string_bytes, IfOk, IfErr};
ghost use Rattle.devices.specs.feeds.FeedState.{all_remaining};
ghost use Rattle.command_io.specs.ZoneFeeds.{AreNotOpened, AreOpened};

use crate::refused::Refused;
use crate::refused::source::Source;
use devices::files::opener::Opener;
use std::alloc::Global;

/// Opens the files at these paths in order, and returns their feeds.
///
/// # Errors
///
/// - `FeedFailed`: a file cannot be opened; with the number of the first one, from 0. Opens no later file.
/// - `Run`: memory was refused.
pub fn open_all<O: Opener>(
    alloc: Global,
    paths: &[String],
    files: &mut O,
) -> Result<Vec<O::Opened>, Refused>
    ensures opened { IfOk result (λ feeds. AreOpened (O.opened files.old) (O.opened files.new)
        (map string_bytes paths.now) (all_remaining O.Opened.state feeds.items)) }
    ensures refused { IfErr result (AreNotOpened (O.opened files.old) (O.opened files.new)
        (map string_bytes paths.now)) }
{
    let mut feeds = Vec::new(alloc);
    for file in 0..paths.len() {
        let Ok(feed) = files.open(paths[file].as_str()) else {
            return Err(Refused::FeedFailed(Source::Zone(file)));
        };
        feeds.push(feed)?;
    }
    Ok(feeds)
}
