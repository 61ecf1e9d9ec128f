//! What a node's feed gives in one turn.

ghost use Rattle.std.specs.Prelude.{◌≡◌, ◌<◌, ◌≤◌, ◌^◌, ◌+◌, ◌-◌, length, min};
ghost use Rattle.world_core.specs.Gifts.{FitsGift, agenda_for};
ghost use Rattle.world_model.specs.EventView.{deed_view};

use avm_outside::Due;
use world_model::Act;
use world_parts::OneFeed;

/// The most steps of a turn.
const SPELL: u64 = 65_536;

/// The count before which a turn without an event has none.
pub fn later_than(count: u64) -> u64
    ensures value { result ≡ min (count + 65536) (2 ^ 62 - 1) }
    ensures below { result < 2 ^ 62 }
{
    count.saturating_add(SPELL).min((1 << 62) - 1)
}

/// The feed of an act: its one event, or none before a count; a clock request gets the event's number. A delivery brings the bytes of the
/// packet.
pub fn feed_of<'a>(act: Act<'a>, packet: &'a [u8], later: u64, number: u64) -> OneFeed<'a>
    requires later { later < 2 ^ 62 }
    requires fits { FitsGift (deed_view act) packet.now }
    ensures { result ≡ agenda_for (deed_view act.entry) packet.now later number }
{
    match act {
        Act::Deliver(_) => OneFeed::of(Due::Packet(packet.len()), packet, number),
        Act::Console(bytes) => OneFeed::of(Due::Console(bytes.len()), bytes, number),
        Act::Resend(peer) => OneFeed::of(Due::Resend(peer), &[], number),
        Act::Turn | Act::Seal => OneFeed::until(later, number),
    }
}
