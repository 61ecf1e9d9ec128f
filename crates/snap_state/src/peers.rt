ghost use Rattle.std.specs.Prelude.{◌≡◌};
ghost use Rattle.std.specs.Iterator.{YieldsFirst, item_count};
ghost use Rattle.avm_num.specs.Bytes.{Takes, byte_at};
ghost use Rattle.avm_num.specs.Lists.{list_at, left_of, many_at};
ghost use Rattle.avm_model.specs.HeadReading.{peer_at};
ghost use Rattle.snap_state.specs.Passed.{Passes};

use avm_model::Peer;
use avm_num::View;
use std::marker::Model;

/// A row of the peers.
#[tactic(auto, unfolding(avm_model::specs::HeadReading::peer_at))]
pub fn take_peer(view: &mut View<'_>) -> Option<Peer>
    ensures { Takes (λ p. p) result view.old view.new (peer_at view.old) }
{
    let mut rest = View::new(view.rest());
    let id = rest.take_u8()?;
    let bytes = rest.take(56)?;
    let sent = rest.take_u64()?;
    let acked = rest.take_u64()?;
    let received = rest.take_u64()?;
    let mut key = [0; 56];
    key.copy_from_slice(bytes);
    *view = rest;
    Some(Peer {
        id,
        key,
        sent,
        acked,
        received,
    })
}

/// Passes over so many rows.
#[tactic(auto, using(avm_num::proofs::Loops::left_goes, avm_num::proofs::Loops::left_stops, avm_num::proofs::Loops::left_ends))]
fn pass_peers(view: &mut View<'_>, count: u8) -> bool
    ensures { Passes result view.new (left_of (list_at peer_at count view.old)) }
{
    for _ in 0..count {
        let Some(_) = take_peer(view) else {
            return false;
        };
    }
    true
}

/// The rows that stand one after another, seen as their list.
#[derive(Drop)]
pub struct Peers<'a> {
    view: View<'a>,
    left: u8,
}

impl<'a> Model for Peers<'a> {
    ghost use Rattle.std.specs.Prelude.{List, IsSome};
    ghost use Rattle.avm_model.specs.declared.Peer.{Peer};
    ghost use Rattle.avm_num.specs.Lists.{list_at, read_of};
    ghost use Rattle.avm_model.specs.HeadReading.{peer_at};

    ghost Value = { List Peer };

    ghost view = { λ p. read_of (list_at peer_at p.left p.view) };

    ghost invariant = { λ p. IsSome (list_at peer_at p.left p.view) };
}

/// A count, and that many rows.
#[tactic(auto, using(avm_num::proofs::Fields::taken, avm_num::proofs::Fields::none_taken))]
pub fn take_peers<'a>(view: &mut View<'a>) -> Option<Peers<'a>>
    ensures { Takes (λ p. p) result view.old view.new (many_at byte_at peer_at view.old) }
{
    let mut rest = View::new(view.rest());
    let left = rest.take_u8()?;
    let rows = View::new(rest.rest());
    if !pass_peers(&mut rest, left) {
        return None;
    }
    *view = rest;
    Some(Peers { view: rows, left })
}

impl<'a> Peers<'a> {
    /// The same rows.
    pub fn again(&self) -> Peers<'a>
        ensures { result ≡ self.now }
    {
        Peers {
            view: View::new(self.view.rest()),
            left: self.left,
        }
    }
}

impl<'a> Iterator for Peers<'a> {
    type Item = Peer;

    ghost next_gives = { YieldsFirst (λ s. s) };

    ghost remaining = { item_count (λ s. s) };

    fn next(&mut self) -> Option<Peer> {
        if self.left == 0 {
            return None;
        }
        self.left -= 1;
        take_peer(&mut self.view)
    }
}
