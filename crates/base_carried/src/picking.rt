//! The second reading: the bytes of the entries that a base carries.

ghost use Rattle.std.specs.Prelude.{◌≡◌, ◌≤◌, ◌<◌, ◌+◌, ◌^◌, ◌++◌, min, List, length, option_map, OnOk};
ghost use Rattle.std.specs.List.{AllByRecursion, list_any};
ghost use Rattle.std.specs.Int.{w32, w64};
ghost use Rattle.avm_num.specs.Lists.{be};
ghost use Rattle.avm_model.specs.Frame.{frame_bytes};
ghost use Rattle.open_pass.specs.Tickets.{IsOne, IsTicketed};
ghost use Rattle.jrnl_store.specs.Items.{item_view};
ghost use Rattle.jrnl_store.specs.Kept.{ticket_view};
ghost use Rattle.journal_model.specs.Header.{CarriedData};
ghost use Rattle.journal_model.specs.Spelling.{carried_bytes};
ghost use Rattle.log_entry.specs.Views.{frame_view};
ghost use Rattle.rebut_pass.specs.Items.{HasForm};
ghost use Rattle.base_carried.specs.Rows.{has_number, is_chosen as is_chosen_of};
ghost use Rattle.base_carried.specs.Passes.{IsShort, Picks, TakesAll};

use crate::row::Row;
use avm_hash::Digest;
use avm_num::NoMemory;
use jrnl_store::{Item, Ticket};
use log_entry::Frame;
use rebut_pass::Pass;
use std::alloc::{AllocError, Global};

/// The most bytes of a signed entry's content, and more.
const LONGEST: usize = 32768;

/// The bytes of those entries before that of a number that the peers' rows have found, and how many there are; a count past 255 stays
/// there.
#[derive(Drop)]
pub struct Picking {
    pub number: u64,
    pub rows: Vec<Row>,
    pub count: u8,
    pub bytes: Vec<u8>,
}

/// Whether a row has found the entry of a number.
fn is_found(rows: &[Row], seq: u64) -> bool
    ensures { result ≡ list_any (has_number seq) rows.now }
{
    rows.iter().any(|row| row.has(seq))
}

/// Adds what stands before a carried entry's frame: its leaf, the hash before it, and the frame's length.
#[tactic(auto, unfolding(avm_num::specs::Lists::be))]
fn put_front(out: &mut Vec<u8>, leaf: u64, before: &Digest, size: u32) -> Result<(), AllocError>
    ensures { OnOk result (out.new.items ≡ out.old.items ++ (be w64 leaf ++ before.now.0 ++ be w32 size)) }
{
    out.extend_from_slice(&leaf.to_be_bytes())?;
    out.extend_from_slice(&before.0)?;
    out.extend_from_slice(&size.to_be_bytes())
}

/// What stands before a frame's content.
#[tactic(auto, unfolding(avm_num::specs::Lists::be, avm_num::specs::Lists::one, avm_model::specs::Frame::frame_bytes))]
fn frame_front(frame: &Frame<'_>) -> [u8; 13]
    requires { length frame.now.content.now < 2 ^ 32 }
    ensures { result ++ frame.now.content.now ≡ frame_bytes (frame_view frame.now) }
{
    let mut front = [0; 13];
    front[..8].copy_from_slice(&frame.seq.to_be_bytes());
    front[8] = frame.kind;
    front[9..13].copy_from_slice(&(frame.content.len() as u32).to_be_bytes());
    front
}

/// Adds a frame.
fn put_frame(out: &mut Vec<u8>, frame: &Frame<'_>) -> Result<(), AllocError>
    requires { length frame.now.content.now < 2 ^ 32 }
    ensures { OnOk result (out.new.items ≡ out.old.items ++ frame_bytes (frame_view frame.now)) }
{
    let front = frame_front(frame);
    out.extend_from_slice(&front)?;
    match out.extend_from_slice(frame.content) {
        Ok(()) => Ok(()),
        Err(fault) => Err(fault),
    }
}

/// Adds an entry with its leaf and the hash before it.
fn put_entry(
    out: &mut Vec<u8>,
    leaf: u64,
    before: &Digest,
    frame: &Frame<'_>,
) -> Result<(), AllocError>
    requires { length frame.now.content.now ≤ 32768 }
    ensures { OnOk result (out.new.items ≡ out.old.items ++ carried_bytes (record { leaf = leaf; before = before.now.0; frame = frame_view frame.now })) }
{
    let size = 13 + frame.content.len() as u32;
    put_front(out, leaf, before, size)?;
    match put_frame(out, frame) {
        Ok(()) => Ok(()),
        Err(fault) => Err(fault),
    }
}

/// One more, up to the last value.
fn one_more(count: u8) -> u8
    ensures { result ≡ min (count + 1) 255 }
{
    count.saturating_add(1)
}

impl Picking {
    /// Whether the entry of a number is carried.
    fn is_chosen(&self, seq: u64) -> bool
        ensures { result ≡ is_chosen_of self.now.number self.now.rows.items seq }
    {
        seq < self.number && is_found(&self.rows, seq)
    }

    /// Takes the next signed entry. None has so many bytes that its content passes the limit.
    fn entry(&mut self, frame: &Frame<'_>, ticket: &Ticket) -> Result<(), NoMemory>
        ensures number { self.new.number ≡ self.old.number }
        ensures rows { self.new.rows.items ≡ self.old.rows.items }
        ensures taken { OnOk result ((es : List CarriedData) → IsOne (frame_view frame.now) (ticket_view ticket.now) es → AllByRecursion IsShort es → TakesAll self.old self.new es) }
    {
        if !self.is_chosen(frame.seq) {
            return Ok(());
        }
        if frame.content.len() > LONGEST {
            return Ok(());
        }
        let leaf = ticket.leaf() as u64;
        let before = ticket.before();
        match put_entry(&mut self.bytes, leaf, &before, frame) {
            Ok(()) => {}
            Err(AllocError) => return Err(NoMemory),
        }
        self.count = one_more(self.count);
        Ok(())
    }

    /// Takes the next entry, where it is signed.
    fn signed(&mut self, frame: &Frame<'_>, ticket: &Option<Ticket>) -> Result<(), NoMemory>
        ensures number { self.new.number ≡ self.old.number }
        ensures rows { self.new.rows.items ≡ self.old.rows.items }
        ensures taken { OnOk result ((es : List CarriedData) → IsTicketed (frame_view frame.now) (option_map ticket_view ticket.now) es → AllByRecursion IsShort es → TakesAll self.old self.new es) }
    {
        match ticket {
            Some(ticket) => self.entry(frame, ticket),
            None => Ok(()),
        }
    }
}

impl Pass for Picking {
    ghost takes = { Picks };

    fn item(&mut self, _alloc: Global, item: &Item<'_>) -> Result<(), NoMemory> {
        match item {
            Item::Carried(frame, ticket) => self.entry(frame, ticket),
            Item::Entry(frame, ticket) => self.signed(frame, ticket),
            Item::Seal(_) => Ok(()),
            Item::Keep(_) => Ok(()),
        }
    }
}
