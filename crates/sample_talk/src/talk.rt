//! The two nodes, and what they say to each other.

ghost use Rattle.std.specs.Prelude.{◌≡◌, ◌+◌, ◌*◌, ◌^◌, ◌<◌, ◌≤◌, ℕ, drop, length, IfOk, OnOk};
ghost use Rattle.avm_outside.specs.MemOutlets.{outlet_released};
ghost use Rattle.recorder.specs.Recorder.{desk_of};
ghost use Rattle.sample_model.specs.Other.{hear_all};
ghost use Rattle.sample_model.specs.Talk.{Talk as TalkOf};
ghost use Rattle.sample_node.specs.Node.{sender_in};
ghost use Rattle.sample_other.specs.Saying.{IsWithin, SaidAs};
ghost use Rattle.sample_talk.specs.Talking.{Answered, ExchangeEnds, IsTalk};

use avm_num::NoMemory;
use avm_outside::{ListFeed, MemOutlet};
use sample_node::{Node, Progress};
use sample_other::Other;

/// The two nodes.
#[derive(Drop)]
pub struct Talk {
    pub node: Node,
    pub other: Other,
    /// How many packets of the first node's outlet the other one has heard.
    pub heard: usize,
}

/// Lets the other node hear the packets from a place on, and gives the place behind the last.
fn listen(
    other: &mut Other,
    outlet: &MemOutlet,
    from: usize,
    feed: &mut ListFeed,
) -> Result<usize, NoMemory>
    requires within { IsWithin 1 other.old }
    requires from { from ≤ length (outlet_released outlet.now).packets }
    ensures said { OnOk result (SaidAs (hear_all other.old (drop from (outlet_released outlet.now).packets)) other.new feed.old feed.new) }
    ensures within { OnOk result (IsWithin 1 other.new) }
    ensures place { IfOk result (λ place. place ≡ length (outlet_released outlet.now).packets) }
{
    let mut place = from;
    'packets: while let Some((_peer, bytes)) = outlet.packet_at(place) {
        other.hear(bytes, feed)?;
        let Some(next) = place.checked_add(1) else {
            return Err(NoMemory);
        };
        place = next;
    }
    Ok(place)
}

impl Talk {
    /// Lets the other node hear what it hasn't heard yet, and gives the feed 1000 times `next` as one clock value more.
    fn answer(&mut self, next: u64) -> Result<(), NoMemory>
        requires within { IsWithin 1 self.old.other }
        requires heard { self.old.heard ≤ length (outlet_released self.old.node.outlet).packets }
        requires most { 1000 * next < 2 ^ 64 }
        ensures { OnOk result (Answered next self.old self.new) }
    {
        let node = &mut self.node;
        self.heard = listen(&mut self.other, &node.outlet, self.heard, &mut node.feed)?;
        node.feed.push_clock(1000 * next)
    }

    /// A turn of the first node, and what the other one says to it; `next` is the number of the clock value that joins.
    pub fn exchange(&mut self, next: u64) -> Result<Progress, NoMemory>
        requires talk { (k : ℕ) × (m : TalkOf) × (next ≡ k + 1) × IsTalk k self.old m }
        requires most { 1000 * next < 2 ^ 64 }
        ensures ends { (k : ℕ) (m : TalkOf) → next ≡ k + 1 → IsTalk k self.old m → ExchangeEnds next (sender_in self.new.node) self.new m result }
        ensures key { OnOk result ((desk_of self.new.node.recorder).press.key ≡ (desk_of self.old.node.recorder).press.key) }
    {
        match self.node.turn()? {
            Progress::GoesOn => {
                self.answer(next)?;
                Ok(Progress::GoesOn)
            }
            Progress::Ended => Ok(Progress::Ended),
            Progress::Stopped => Ok(Progress::Stopped),
        }
    }
}
