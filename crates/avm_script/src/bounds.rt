// The bounds of a head, which a configuration has too.
ghost use Rattle.std.specs.Prelude.{◌≡◌, ◌<◌, ◌≤◌, ◌^◌, true};
ghost use Rattle.avm_model.specs.Bounds.{is_key, is_row, are_rows, is_front, is_page_count};

use avm_model::Peer;

#[tactic(auto, unfolding(avm_model::specs::LmsValid::has_types))]
fn key_fits(key: &[u8; 56]) -> bool
    ensures { result ≡ is_key key.now }
{
    let lms = u32::from_be_bytes([key[0], key[1], key[2], key[3]]);
    let ots = u32::from_be_bytes([key[4], key[5], key[6], key[7]]);
    lms >= 5 && lms <= 9 && ots >= 1 && ots <= 4
}

fn row_fits(own: u8, row: &Peer) -> bool
    ensures { result ≡ is_row own row.now }
{
    row.id < 16
        && row.id != own
        && key_fits(&row.key)
        && (row.acked == row.sent || row.sent > 0 && row.acked == row.sent - 1)
        && row.received < 1 << 62
}

// Whether the rows are within their bounds, with ids that ascend.
fn rows_fit(rows: &[Peer], own: u8) -> bool
    ensures { result ≡ are_rows own 0 rows.now }
{
    let mut low = 0;
    let mut left = rows;
    while let [row, others @ ..] = left {
        if row.id < low || !row_fits(own, row) {
            return false;
        }
        low = row.id + 1;
        left = others;
    }
    true
}

// Whether it is a power of two of pages, up to 4096.
fn pages_fit(pages: u64) -> bool
    ensures value { result ≡ is_page_count pages }
    ensures bound { result ≡ true → pages ≤ 4096 }
{
    if pages == 0 {
        return false;
    }
    if pages > 4096 {
        return false;
    }
    4096 % pages == 0
}

// Whether the parts of a head's front are within their bounds.
pub fn front_fits(own: u64, pages: u64, snap: u64, peers: &[Peer]) -> bool
    ensures value { result ≡ is_front (record { own = own; snap = snap; pages = pages; peers = peers.now }) }
    ensures bounds { result ≡ true → (own < 16) × (pages ≤ 4096) × (snap ≤ 2 ^ 24) }
{
    if own >= 16 {
        return false;
    }
    if snap < 1024 || snap > 1 << 24 {
        return false;
    }
    pages_fit(pages) && rows_fit(peers, own as u8)
}
