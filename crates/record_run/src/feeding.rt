//! A script's feed, of which no call fails.

ghost use Rattle.std.specs.Prelude.{◌≡◌, Some};
ghost use Rattle.avm_outside.specs.Feed.{answer_of};
ghost use Rattle.avm_script.specs.Feeds.{script_agenda};

use avm_outside::{Due, Failed, Feed};
use avm_script::ScriptFeed;

/// A script's feed as one whose count of faults stays 0, so that a turn is never stopped by it.
#[derive(Drop)]
pub struct SureFeed {
    feed: ScriptFeed,
}

impl SureFeed {
    ghost use Rattle.record_run.specs.Feeds.{sure_agenda};

    /// The same events.
    pub fn new(feed: ScriptFeed) -> SureFeed
        ensures { sure_agenda result ≡ script_agenda feed }
    {
        SureFeed { feed }
    }
}

impl Feed for SureFeed {
    ghost faults = { λ f. 0 };

    ghost agenda = { λ f. Some (script_agenda f.feed) };

    ghost answer = { answer_of };

    fn next(&mut self, count: u64, running: bool, buf: &mut [u8; 24576]) -> Result<Due, Failed> {
        self.feed.next(count, running, buf)
    }

    fn clock(&mut self) -> Result<u64, Failed> {
        self.feed.clock()
    }
}
