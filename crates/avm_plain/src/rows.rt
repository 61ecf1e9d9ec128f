//! The rows of the peers.

ghost use Rattle.std.specs.Prelude.{◌≡◌, ◌<◌, ◌-◌, ◌^◌, length, All, IfSome};
ghost use Rattle.avm_plain.specs.Peers.{SentKept};
ghost use Rattle.avm_model.specs.Device.{Counted, row_of, with_row, sends_one as sends_one_lem, send_result as send_result_lem, next_number as next_number_lem, find_peer as find_peer_lem};
ghost use Rattle.avm_model.specs.Input.{receives_one as receives_one_lem, acknowledges as acknowledges_lem};

use avm_model::Peer;

/// The place of the row of this id.
fn find_peer(peers: &[Peer], id: u32) -> Option<usize>
    ensures value { result ≡ find_peer_lem peers.now id }
    ensures bound { IfSome result (λ i. i < length peers.now) }
{
    peers.iter().position(|p| p.id as u32 == id)
}

/// The row of this id.
pub fn row(peers: &[Peer], id: u32) -> Option<Peer>
    ensures { result ≡ row_of peers.now id }
{
    let i = find_peer(peers, id)?;
    Some(peers[i])
}

/// The result of a store to TX_SEND: the first that applies.
pub fn send_result(len: u32, row: Option<Peer>) -> u32
    ensures { result ≡ send_result_lem len row }
{
    let Some(peer) = row else {
        return 1;
    };
    if len > 1024 {
        2
    } else if peer.sent == peer.acked {
        0
    } else {
        3
    }
}

/// The number of the next message.
pub fn next_number(row: Option<Peer>) -> u64
    requires { IfSome row (λ p. p.sent < 2 ^ 64 - 1) }
    ensures { result ≡ next_number_lem row }
{
    match row {
        None => 0,
        Some(peer) => peer.sent + 1,
    }
}

/// Counts a message to this id.
pub fn sends_one(peers: &mut [Peer], id: u32)
    requires { All (λ p. p.sent < 2 ^ 64 - 1) peers.old }
    ensures value { peers.new ≡ with_row peers.old id sends_one_lem }
    ensures counted { Counted peers.old peers.new }
{
    if let Some(i) = find_peer(peers, id) {
        peers[i].sent += 1;
    }
}

/// Counts a message from this id.
pub fn receives_one(peers: &mut [Peer], id: u32)
    requires { IfSome (row_of peers.old id) (λ p. p.received < 2 ^ 64 - 1) }
    ensures value { peers.new ≡ with_row peers.old id receives_one_lem }
    ensures sent { SentKept peers.old peers.new }
{
    if let Some(i) = find_peer(peers, id) {
        peers[i].received += 1;
    }
}

/// Counts the last message to this id as acknowledged.
pub fn acknowledges(peers: &mut [Peer], id: u32)
    ensures value { peers.new ≡ with_row peers.old id acknowledges_lem }
    ensures sent { SentKept peers.old peers.new }
{
    if let Some(i) = find_peer(peers, id) {
        peers[i].acked = peers[i].sent;
    }
}
