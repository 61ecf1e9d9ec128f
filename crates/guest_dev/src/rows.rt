//! The rows of the peers.

ghost use Rattle.std.specs.Prelude.{◌≡◌, ◌<◌, ◌≤◌, ◌-◌, ◌^◌, length, All, IfSome, IsSome};
ghost use Rattle.avm_model.specs.Device.{row_of, with_row, sends_one, send_result as send_result_lem, next_number as next_number_lem, find_peer, Counted};
ghost use Rattle.avm_model.specs.Input.{receives_one, acknowledges};

use avm_model::Peer;

/// The place of the row of this id.
fn place_of(peers: &[Peer], id: u32) -> Option<usize>
    ensures value { result ≡ find_peer peers.now id }
    ensures bound { IfSome result (λ i. i < length peers.now) }
{
    peers.iter().position(|p| p.id as u32 == id)
}

/// The row of this id.
pub fn row(peers: &[Peer], id: u32) -> Option<Peer>
    ensures { result ≡ row_of peers.now id }
{
    let at = place_of(peers, id)?;
    Some(peers[at])
}

/// The result of a store to TX_SEND.
pub fn send_result(peers: &[Peer], id: u32, len: u32) -> u32
    ensures value { result ≡ send_result_lem len (row_of peers.now id) }
    ensures bound { result ≤ 3 }
    ensures sent { result ≡ 0 → len ≤ 1024 }
    ensures row { result ≡ 0 → IsSome (row_of peers.now id) }
{
    let Some(row) = row(peers, id) else {
        return 1;
    };
    if len > 1024 {
        2
    } else if row.sent == row.acked {
        0
    } else {
        3
    }
}

/// The number of the next message to this id.
pub fn next_number(peers: &[Peer], id: u32) -> u64
    requires { All (λ p. p.sent < 2 ^ 62 - 1) peers.now }
    ensures value { result ≡ next_number_lem (row_of peers.now id) }
    ensures first { IsSome (row_of peers.now id) → 1 ≤ result }
    ensures below { result < 2 ^ 62 }
{
    match place_of(peers, id) {
        Some(at) => peers[at].sent + 1,
        None => 0,
    }
}

/// Counts a message to this id.
pub fn count_sent(peers: &mut [Peer], id: u32)
    requires { All (λ p. p.sent < 2 ^ 62 - 1) peers.old }
    ensures value { peers.new ≡ with_row peers.old id sends_one }
    ensures len { length peers.new ≡ length peers.old }
    ensures numbers { Counted peers.old peers.new }
{
    if let Some(at) = place_of(peers, id) {
        peers[at].sent += 1;
    }
}

/// Counts a message from this id.
pub fn count_received(peers: &mut [Peer], id: u32)
    requires { IfSome (row_of peers.old id) (λ p. p.received < 2 ^ 62 - 1) }
    ensures value { peers.new ≡ with_row peers.old id receives_one }
    ensures len { length peers.new ≡ length peers.old }
{
    if let Some(at) = place_of(peers, id) {
        peers[at].received += 1;
    }
}

/// Counts the last message to this id as acknowledged.
pub fn count_acked(peers: &mut [Peer], id: u32)
    ensures value { peers.new ≡ with_row peers.old id acknowledges }
    ensures len { length peers.new ≡ length peers.old }
{
    if let Some(at) = place_of(peers, id) {
        peers[at].acked = peers[at].sent;
    }
}
