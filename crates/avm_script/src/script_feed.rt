// A script as a feed.
ghost use Rattle.std.specs.Prelude.{◌≡◌, [], Some, IfOk, OnOk, IsOk};
ghost use Rattle.avm_outside.specs.MemFeed.{feed_agenda, feed_fails};

use crate::Script;
use avm_outside::{Due, Failed, Feed, ListFeed};

/// The events of a script. No call fails.
#[derive(Drop)]
pub struct ScriptFeed {
    list: ListFeed,
    ghost never_fails: { feed_fails list ≡ [] },
}

impl ScriptFeed {
    ghost use Rattle.avm_script.specs.Feeds.{script_agenda};
    ghost use Rattle.avm_script.specs.Listed.{agenda_of};

    pub fn new(script: Script) -> ScriptFeed
        ensures { script_agenda result ≡ agenda_of script }
    {
        ScriptFeed {
            list: script.into_list(),
        }
    }
}

impl Feed for ScriptFeed {
    ghost use Rattle.avm_outside.specs.Bounds.{IsBounded};
    ghost use Rattle.avm_outside.specs.Feed.{answer_of, Gave, clock_of, with_asked};
    ghost use Rattle.avm_script.specs.Feeds.{script_agenda, script_faults};

    ghost faults = { λ f. f.list.calls.faults };

    ghost agenda = { λ f. Some (feed_agenda f.list) };

    ghost answer = { answer_of };

    fn next(&mut self, count: u64, running: bool, buf: &mut [u8; 24576]) -> Result<Due, Failed>
        ensures never_fails { IsOk result }
        ensures bounds { IfOk result (λ due. IsBounded due count) }
        ensures answer { IfOk result (λ due. due ≡ answer_of (script_agenda self.old) count running) }
        ensures given { IfOk result (λ due. Gave due (script_agenda self.old) (script_agenda self.new) buf.old buf.new) }
        ensures faults { script_faults self.new ≡ script_faults self.old }
    {
        self.list.next(count, running, buf)
    }

    fn clock(&mut self) -> Result<u64, Failed>
        ensures never_fails { IsOk result }
        ensures value { IfOk result (λ value. value ≡ clock_of (script_agenda self.old)) }
        ensures asked { OnOk result (script_agenda self.new ≡ with_asked (script_agenda self.old)) }
        ensures faults { script_faults self.new ≡ script_faults self.old }
    {
        self.list.clock()
    }
}
