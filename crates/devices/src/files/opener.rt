//! Opens feeds of files by their paths.

ghost use Rattle.std.specs.Prelude.{◌≡◌, ◌++◌, List, [], ◌∷◌, IfOk, OnErr, OnOk};
ghost use Rattle.devices.specs.feeds.FileFeedView.{file_state};
ghost use Rattle.devices.specs.files.Opening.{Opening, OpensFeed, Unopened};

use crate::feeds::feed::{Feed, FeedFault};
use crate::feeds::file_feed::FileFeed;
use crate::files::file_access::{AtPath, FileAccess};

/// Opens files for reading by their paths, and records the requests for contracts.
pub trait Opener {
    /// An open file.
    type File: AtPath;

    /// A feed of an open file.
    type Opened: Feed + Send + Drop;

    /// The requests to open so far, in order.
    ghost opened: { Self → List Opening };

    /// Opens the file at this path as a feed, from its first byte.
    ///
    /// # Errors
    ///
    /// The file cannot be opened.
    fn open(&mut self, path: &str) -> Result<Self::Opened, FeedFault>
        ensures there { OnOk result ((file : Self.File) × (Self.File.path file ≡ path.now)) }
        ensures opened { IfOk result (λ feed. OpensFeed path.now (opened self.old) (opened self.new)
            (Self.Opened.state feed)) }
        ensures refused { OnErr result (opened self.new ≡ opened self.old ++ Unopened path.now ∷ []) };
}

/// Opens feeds through a `FileAccess`, with the record of the file access.
impl<A: FileAccess> Opener for A
where
    A::File: Send,
{
    type File = A::File;

    type Opened = FileFeed<A::File>;

    ghost opened = { λ files. A.opened files };

    fn open(&mut self, path: &str) -> Result<FileFeed<A::File>, FeedFault>
        ensures there { OnOk result ((file : A.File) × (A.File.path file ≡ path.now)) }
        ensures path { IfOk result (λ feed. feed.path ≡ path.now) }
        ensures opened { IfOk result (λ feed. OpensFeed path.now (A.opened self.old) (A.opened self.new)
            (file_state feed)) }
        ensures refused { OnErr result (A.opened self.new ≡ A.opened self.old ++ Unopened path.now ∷ []) }
    {
        FileFeed::open(self, path)
    }
}
