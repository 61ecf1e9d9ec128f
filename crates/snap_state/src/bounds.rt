ghost use Rattle.std.specs.Prelude.{◌≡◌};
ghost use Rattle.avm_model.specs.Bounds.{is_key, is_row, are_rows, none_past, knows, are_messages, has_ten};

use crate::messages::Messages;
use crate::peers::Peers;
use avm_model::Peer;
use avm_num::View;

#[tactic(auto, unfolding(avm_model::specs::LmsValid::has_types))]
fn key_fits(key: &[u8; 56]) -> bool
    ensures { result ≡ is_key key.now }
{
    let lms = u32::from_be_bytes([key[0], key[1], key[2], key[3]]);
    let ots = u32::from_be_bytes([key[4], key[5], key[6], key[7]]);
    lms >= 5 && lms <= 9 && ots >= 1 && ots <= 4
}

fn row_fits(own: u8, row: &Peer) -> bool
    ensures { result ≡ is_row own row.now }
{
    row.id < 16
        && row.id != own
        && key_fits(&row.key)
        && (row.acked == row.sent || row.sent > 0 && row.acked == row.sent - 1)
        && row.received < 1 << 62
}

/// Whether the rows are within their bounds, with ids that ascend.
pub fn rows_fit(rows: Peers<'_>, own: u8) -> bool
    ensures { result ≡ are_rows own 0 rows.entry }
{
    let mut low = 0;
    for row in rows {
        if row.id < low || !row_fits(own, &row) {
            return false;
        }
        low = row.id + 1;
    }
    true
}

/// Whether no row counts past a number.
pub fn none_sent_past(rows: Peers<'_>, count: u64) -> bool
    ensures { result ≡ none_past count rows.entry }
{
    for row in rows {
        if row.sent > count {
            return false;
        }
    }
    true
}

fn is_known(rows: Peers<'_>, id: u8) -> bool
    ensures { result ≡ knows rows.entry id }
{
    for row in rows {
        if row.id == id {
            return true;
        }
    }
    false
}

/// Whether the messages are short and of known peers.
pub fn messages_fit(messages: Messages<'_>, rows: &Peers<'_>) -> bool
    ensures { result ≡ are_messages rows.now messages.entry }
{
    for message in messages {
        if message.payload.len() > 1024 || !is_known(rows.again(), message.peer) {
            return false;
        }
    }
    true
}

/// Whether a line has its end.
pub fn has_line_end(line: &[u8]) -> bool
    ensures { result ≡ has_ten line.now }
{
    line.contains(&10)
}
