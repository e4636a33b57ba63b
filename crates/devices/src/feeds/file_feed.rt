//! A file as a feed.

ghost use Rattle.std.specs.Io.KnownBytes.{ReadConsumes};
ghost use Rattle.std.specs.Prelude.{◌≡◌, ◌+◌, ◌<◌, ◌≤◌, ◌++◌, [], ◌∷◌, false, length, take, IfOk, IfSome, OnOk, OnErr};
ghost use Rattle.devices.specs.feeds.Feed.{put_back, IsPulled};
ghost use Rattle.devices.specs.feeds.FeedState.{not_pulled};
ghost use Rattle.devices.specs.feeds.FileFeedView.{file_state};
ghost use Rattle.devices.specs.files.Opening.{Opened, Unopened};

use crate::feeds::feed::{Feed, FeedFault};
use crate::feeds::read_feed::ReadFeed;
use crate::files::file_access::{AtPath, FileAccess};
use std::io::Read;
use std::marker::Model;
use std::snapshot::Snapshot;

/// A feed of an open file, from the file's current position. It reports the bytes that it has left if the file does, and no file of a
/// system does. Any pull may fail. It allocates no memory.
#[derive(Drop)]
pub struct FileFeed<F: Read + AtPath> {
    file: ReadFeed<F>,
    // the file before the first pull
    first: Snapshot<F>,
}

impl<F: Read + AtPath> Model for FileFeed<F> {
    ghost use Rattle.std.specs.Prelude.{◌≡◌, ◌+◌};
    ghost use Rattle.devices.specs.feeds.FeedSteps.{remaining_after};
    ghost use Rattle.devices.specs.feeds.FileFeedView.{FileFeedView};

    ghost Value = { FileFeedView };

    ghost view = { λ f. record {
      path = F.path f.first.value;
      remaining = f.file.remaining;
      given = F.given f.first.value + f.file.given;
      failures = f.file.failures;
    } };

    ghost invariant = { λ f. f.file.remaining ≡ remaining_after f.file.given (F.remaining f.first.value) };
}

impl<F: Read + AtPath + Drop> FileFeed<F> {
    /// Opens the file at this path as a feed, from its first byte. Opens no other file.
    ///
    /// # Errors
    ///
    /// The file cannot be opened. If the system opens a folder as a file, each pull fails.
    pub fn open<A: FileAccess<File = F>>(
        files: &mut A,
        path: &str,
    ) -> Result<FileFeed<F>, FeedFault>
        ensures path { IfOk result (λ feed. feed.path ≡ path.now) }
        ensures opened { IfOk result (λ feed. A.opened files.new
            ≡ A.opened files.old ++ Opened path.now feed.remaining ∷ []) }
        ensures refused { OnErr result (A.opened files.new ≡ A.opened files.old ++ Unopened path.now ∷ []) }
        ensures remaining { IfOk result (λ feed. (file : F) × (F.path file ≡ path.now)
            × (F.given file ≡ 0) × (feed.remaining ≡ F.remaining file)) }
        ensures state { IfOk result (λ feed. ⟦<FileFeed<F> as Feed>⟧.state feed ≡ not_pulled false feed.remaining) }
    {
        match files.open(path) {
            Ok(file) => Ok(FileFeed {
                first: Snapshot::of(&file),
                file: ReadFeed::new(file),
            }),
            Err(error) => Err(FeedFault::of(&error)),
        }
    }
}

impl<F: Read + AtPath + Drop> Feed for FileFeed<F> {
    ghost state = { file_state };

    /// Gives the bytes of one read of the file. Repeats a read that a signal interrupts.
    fn pull(&mut self, buffer: &mut [u8]) -> Result<usize, FeedFault>
        // The effect on the file.
        ensures path { self.new.path ≡ self.old.path }
        ensures reads { ReadConsumes self.old.remaining self.new.remaining result buffer.new }

        // After success, the buffer starts with the next bytes.
        ensures within { IfOk result (λ n. n ≤ length buffer.old) }
        ensures gives { IfOk result
            (λ n. self.old.remaining ≡ put_back (take n buffer.new) self.new.remaining) }
        ensures end { IfOk result
            (λ n. n ≡ 0 → 0 < length buffer.old → IfSome self.old.remaining (λ bytes. bytes ≡ [])) }

        // Given bytes and refused pulls are counted. After an error, no byte was given.
        ensures pulls { IsPulled (file_state self.old) (file_state self.new) result }
    {
        self.file.pull(buffer)
    }
}
