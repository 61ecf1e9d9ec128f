//! What a search for a journal's base has found so far.

ghost use Rattle.std.specs.Prelude.{◌≡◌, true, length};
ghost use Rattle.avm_model.specs.HeadReading.{head_of};
ghost use Rattle.keep_judge.specs.Good.{pages_fit};

use avm_num::Room;
use guest_machine::Machine;
use keep_judge::{Paged, Told};
use open_pass::Tickets;
use rv32_mem::Ram;

/// A state from which a journal can be opened: its head and its pages. So many keeps stand up to it.
#[derive(Drop)]
pub struct Base {
    pub head: Room,
    pub ram: Ram,
    pub keeps: u64,
    pub ghost room: { head.capacity ≡ 16384 },
    pub ghost fits: { pages_fit (length ram.dirty) (head_of head.bytes) ≡ true },
}

/// What is found among the items so far: the tickets, the RAM of all keeps, and the last good keep of a number at most `last`.
#[derive(Drop)]
pub struct Search {
    pub tickets: Tickets,
    pub own: Machine,
    pub first: u64,
    pub last: u64,
    pub now: Paged,
    pub told: Option<Told>,
    pub keeps: u64,
    pub base: Base,
    pub ghost pages: { length now.ram.dirty ≡ length own.dirty },
    pub ghost sizes: { length base.ram.dirty ≡ length own.dirty },
}
