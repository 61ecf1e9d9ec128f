ghost use Rattle.std.specs.Prelude.{◌≡◌, ◌+◌, ◌^◌, ◌≤◌, ℕ, List, Some, None, true, false, MatchOption, MatchBool, [], is_some, length, IfSome, IsSomeAnd, ◌⊎◌, ◌<◌};
ghost use Rattle.avm_num.specs.Bytes.{Takes};
ghost use Rattle.avm_num.specs.Lists.{list_at, limited_at};
ghost use Rattle.avm_model.specs.Entries.{all_zero};
ghost use Rattle.journal_model.specs.Header.{HeaderData, CarriedData, is_store_key, most_leaves, pages_in, carried_at, main_at, has_early_count, is_base, is_first, magic_at, header_at, judged_carried, ascend, version_at};
ghost use Rattle.journal_model.specs.Part.{longest_head};
ghost use Rattle.jrnl_part.specs.Places.{new_header};
ghost use Rattle.jrnl_part.specs.Carriage.{carried_signed};
ghost use Rattle.jrnl_part.specs.Views.{main_view, carried_view, signed_view};
ghost use Rattle.jrnl_part.specs.Starts.{IsStart, IsHeader, IsLowStart, IsMain, EndBefore};

use crate::standing::{Bounds, Signed};
use avm_hash::Digest;
use avm_num::View;
use log_chain::next;
use log_entry::{Frame, read_frame};

/// The fields of a header that stand in both versions.
#[derive(Clone, Copy)]
pub struct Main<'a> {
    pub key: [u8; 56],
    pub first: u64,
    pub before: Digest,
    pub leaves: u64,
    pub head: &'a [u8],
    pub pages: &'a [u8],
}

/// An entry of an earlier journal: its leaf, the hash before it, and its frame.
#[derive(Clone, Copy)]
pub struct Carried<'a> {
    pub leaf: u64,
    pub before: Digest,
    pub frame: Frame<'a>,
}

/// Where a journal starts, and what its header sets.
#[derive(Clone, Copy)]
pub struct Start {
    pub key: [u8; 56],
    pub before: Digest,
    pub bounds: Bounds,
    pub leaves: u64,
    pub head_len: u32,
    pub front: u64,
}

/// How many leaves a key has; None exactly where its type is no private key's.
#[tactic(auto, unfolding(journal_model::specs::Header::is_store_key, journal_model::specs::Header::most_leaves, avm_model::specs::LmsTypes::height_of))]
fn leaves_of(key: &[u8; 56]) -> Option<u64>
    ensures value { MatchOption result (is_store_key key.now ≡ false) (λ n. (is_store_key key.now ≡ true) × (n ≡ most_leaves key.now)) }
    ensures few { IfSome result (λ n. n ≤ 2 ^ 15) }
{
    match u32::from_be_bytes([key[0], key[1], key[2], key[3]]) {
        5 => Some(32),
        6 => Some(1024),
        7 => Some(32768),
        _ => None,
    }
}

fn digest_of(bytes: &[u8]) -> Digest
    requires { length bytes.now ≡ 32 }
    ensures { result.0 ≡ bytes.now }
{
    let mut digest = [0; 32];
    digest.copy_from_slice(bytes);
    Digest(digest)
}

fn key_of(bytes: &[u8]) -> [u8; 56]
    requires { length bytes.now ≡ 56 }
    ensures { result ≡ bytes.now }
{
    let mut key = [0; 56];
    key.copy_from_slice(bytes);
    key
}

/// The page count in a head; None exactly where it isn't one.
#[tactic(auto, unfolding(journal_model::specs::Header::pages_in), using(avm_model::proofs::PageCounts::few_pages))]
fn page_count(head: &[u8]) -> Option<u32>
    ensures value { result ≡ pages_in head.now }
    ensures few { IfSome result (λ n. n ≤ 4096) }
{
    if head.len() < 6 {
        return None;
    }
    let mut view = View::new(&head[6..]);
    let count = view.take_u32()?;
    if count > 0 && 4096 % count == 0 {
        Some(count)
    } else {
        None
    }
}

/// A length up to a limit, and that many bytes.
#[tactic(auto, unfolding(avm_num::specs::Lists::limited_at))]
fn take_limited<'a>(view: &mut View<'a>, limit: usize) -> Option<&'a [u8]>
    ensures { Takes (λ p. p.now) result view.old view.new (limited_at limit view.old) }
{
    let mut rest = View::new(view.rest());
    let len = rest.take_u32()?;
    let bytes = rest.take(len as usize)?;
    if len as usize > limit {
        return None;
    }
    *view = rest;
    Some(bytes)
}

/// The fields that stand in both versions.
#[tactic(auto, unfolding(journal_model::specs::Header::main_at))]
fn take_main<'a>(view: &mut View<'a>) -> Option<Main<'a>>
    ensures { Takes main_view result view.old view.new (main_at view.old) }
{
    let mut rest = View::new(view.rest());
    let key = key_of(rest.take(56)?);
    let first = rest.take_u64()?;
    let before = digest_of(rest.take(32)?);
    let leaves = rest.take_u64()?;
    let head = take_limited(&mut rest, 16384)?;
    let count = page_count(head)?;
    let pages = rest.take(4096 * count as usize)?;
    if leaves > leaves_of(&key)? {
        return None;
    }
    *view = rest;
    Some(Main {
        key,
        first,
        before,
        leaves,
        head,
        pages,
    })
}

impl Carried<'_> {
    /// What the entry's ticket is for: its leaf, its number and hash, and the hash before.
    pub fn signed(&self) -> Signed
        ensures { signed_view result ≡ carried_signed (carried_view self.now) }
    {
        Signed {
            leaf: self.leaf,
            seq: self.frame.seq,
            hash: next(
                &self.before,
                self.frame.seq,
                self.frame.kind,
                self.frame.content,
            ),
            before: self.before,
        }
    }
}

/// The next carried entry. None where none stands next, and then the view stays.
#[tactic(auto, unfolding(journal_model::specs::Header::carried_at))]
pub fn take_carried<'a>(view: &mut View<'a>) -> Option<Carried<'a>>
    ensures { Takes carried_view result view.old view.new (carried_at view.old) }
{
    let mut rest = View::new(view.rest());
    let leaf = rest.take_u64()?;
    let before = digest_of(rest.take(32)?);
    let raw = take_limited(&mut rest, 32768)?;
    let mut inner = View::new(raw);
    let frame = read_frame(&mut inner)?;
    if !inner.rest().is_empty() || (frame.kind != 8 && frame.kind != 5) {
        return None;
    }
    *view = rest;
    Some(Carried {
        leaf,
        before,
        frame,
    })
}

/// Passes over carried entries; false where there aren't so many, or their numbers and leaves don't ascend.
fn skip_carried(view: &mut View<'_>, count: u8, first: u64, leaves: u64) -> bool
    ensures { MatchBool result ((cs : List CarriedData) × (list_at carried_at count view.old ≡ Some (cs, view.new)) × (ascend 0 0 first leaves cs ≡ true))
        ((cs : List CarriedData) (rest : List ℕ) → list_at carried_at count view.old ≡ Some (cs, rest) → ascend 0 0 first leaves cs ≡ true → ⊥) }
{
    let mut seq = 0;
    let mut leaf = 0;
    let mut left = count;
    while left > 0 {
        let Some(entry) = take_carried(view) else {
            return false;
        };
        if entry.frame.seq < seq || entry.frame.seq >= first {
            return false;
        }
        if entry.leaf < leaf || entry.leaf >= leaves {
            return false;
        }
        seq = entry.frame.seq + 1;
        leaf = entry.leaf + 1;
        left -= 1;
    }
    true
}

/// Passes over the carried entries of a base.
fn take_few(view: &mut View<'_>, first: u64, leaves: u64) -> bool
    ensures { MatchBool result ((cs : List CarriedData) × (judged_carried first leaves view.old ≡ Some (cs, view.new))) (judged_carried first leaves view.old ≡ None) }
{
    let mut rest = View::new(view.rest());
    let Some(count) = rest.take_u8() else {
        return false;
    };
    if count > 30 || !skip_carried(&mut rest, count, first, leaves) {
        return false;
    }
    *view = rest;
    true
}

/// Whether the bytes are the carried entries of a base whose first entry has this number, and before which so many leaves were used.
pub fn is_carriage(bytes: &[u8], first: u64, leaves: u64) -> bool
    ensures { MatchBool result ((cs : List CarriedData) × (judged_carried first leaves bytes.now ≡ Some (cs, []))) ((cs : List CarriedData) → judged_carried first leaves bytes.now ≡ Some (cs, []) → ⊥) }
{
    let mut view = View::new(bytes);
    take_few(&mut view, first, leaves) && view.rest().is_empty()
}

fn is_zero(bytes: &[u8]) -> bool
    ensures { result ≡ all_zero bytes.now }
{
    for byte in bytes {
        if *byte != 0 {
            return false;
        }
    }
    true
}

/// Whether the count in a head is below 2^61, where there is one.
#[tactic(auto, unfolding(journal_model::specs::Header::has_early_count))]
fn is_early(head: &[u8]) -> bool
    ensures { result ≡ has_early_count head.now }
{
    let peers = if head.len() > 10 {
        head[10] as usize
    } else {
        0
    };
    let at = 139 + 81 * peers;
    if head.len() < at {
        return true;
    }
    let mut view = View::new(&head[at..]);
    match view.take_u64() {
        Some(count) => count < 1 << 61,
        None => true,
    }
}

/// Whether a journal begins with BOOT.
fn begins_first(main: &Main<'_>) -> bool
    ensures { result ≡ is_first (main_view main.now) }
{
    main.first == 1 && is_zero(&main.before.0) && main.leaves == 0
}

/// Whether a journal begins behind an earlier one.
fn begins_base(main: &Main<'_>) -> bool
    ensures { result ≡ is_base (main_view main.now) }
{
    main.first > 1 && main.first < 1 << 61 && is_early(main.head)
}

/// Passes over what stands behind the fields of both versions.
fn take_version(view: &mut View<'_>, version: u8, main: &Main<'_>) -> bool
    ensures value { MatchBool result ((cs : List CarriedData) × (version_at version (main_view main.now) view.old ≡ Some (record (main_view main.now) { carried = cs }, view.new)))
        (version_at version (main_view main.now) view.old ≡ None) }
    ensures first { MatchBool result ((1 ≤ main.now.first) × (main.now.first ≤ 2 ^ 61)) (Unit {0}) }
{
    if version == 1 {
        return begins_first(main);
    }
    if version != 2 || !begins_base(main) {
        return false;
    }
    take_few(view, main.first, main.leaves)
}

/// Where a journal starts that is made new, with so many bytes of header.
pub fn new_start(key: [u8; 56], head: &[u8], pages: &[u8], front: usize) -> Start
    requires key { is_store_key key ≡ true }
    requires head { length head.now ≤ longest_head }
    requires pages { is_some (pages_in head.now) ≡ true }
    requires place { EndBefore front head.now }
    ensures { IsStart result (new_header key head.now pages.now) × (result.front ≡ front) × IsLowStart result }
{
    let main = Main {
        key,
        first: 1,
        before: Digest([0; 32]),
        leaves: 0,
        head,
        pages,
    };
    match start_of(&main, front) {
        Some(start) => start,
        None => unreachable!(),
    }
}

/// What the fields of both versions set, and the place of the first gate.
fn start_of(main: &Main<'_>, front: usize) -> Option<Start>
    requires main { IsMain main.now }
    requires some { 1 ≤ main.now.first }
    requires first { main.now.first ≤ 2 ^ 61 }
    requires place { EndBefore front main.now.head.now }
    ensures { IsSomeAnd result (λ s. IsStart s (main_view main.now) × (s.front ≡ front) × IsLowStart s) }
{
    let pages = page_count(main.head)?;
    let most = leaves_of(&main.key)?;
    Some(Start {
        key: main.key,
        before: main.before,
        bounds: Bounds {
            first: main.first,
            pages,
            most,
        },
        leaves: main.leaves,
        head_len: main.head.len() as u32,
        front: front as u64,
    })
}

/// The four bytes that stand in front of every header.
#[tactic(auto, unfolding(journal_model::specs::Header::magic_at))]
fn take_magic(view: &mut View<'_>) -> Option<()>
    ensures { Takes (λ t. t) result view.old view.new (magic_at view.old) }
{
    let mut rest = View::new(view.rest());
    if rest.take(4)? != b"AVMJ".as_slice() {
        return None;
    }
    *view = rest;
    Some(())
}

/// The fields of the header that stands at the front, and passes over it; None where none stands there.
fn take_header<'a>(view: &mut View<'a>) -> Option<Main<'a>>
    ensures value { MatchOption result (header_at view.old ≡ None) (λ m. IsHeader m view.old view.new) }
    ensures first { IfSome result (λ m. (1 ≤ m.first) × (m.first ≤ 2 ^ 61)) }
    ensures main { IfSome result (λ m. IsMain m) }
{
    let Some(()) = take_magic(view) else {
        return None;
    };
    let Some(version) = view.take_u8() else {
        return None;
    };
    let Some(main) = take_main(view) else {
        return None;
    };
    if !take_version(view, version, &main) {
        return None;
    }
    Some(main)
}

/// Where the journal starts whose header stands at the front of the bytes; None where none stands there.
pub fn read_start(bytes: &[u8]) -> Option<Start>
    ensures value { MatchOption result (header_at bytes.now ≡ None) (λ s. (h : HeaderData) × (rest : List ℕ) × (header_at bytes.now ≡ Some (h, rest)) × IsStart s h × (s.front + length rest ≡ length bytes.now)) }
    ensures low { IfSome result (λ s. IsLowStart s) }
{
    let mut view = View::new(bytes);
    let Some(main) = take_header(&mut view) else {
        return None;
    };
    start_of(&main, bytes.len() - view.rest().len())
}
