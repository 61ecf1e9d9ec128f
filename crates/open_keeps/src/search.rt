//! The search for a journal's base: one reading of all its items, which also keeps the tickets.

ghost use Rattle.std.specs.Prelude.{◌≡◌, ◌≤◌, ◌++◌, ◌∷◌, [], true, length, OnOk, List, ℕ};
ghost use Rattle.avm_num.specs.Room.{left};
ghost use Rattle.avm_model.specs.HeadReading.{head_of};
ghost use Rattle.journal_model.specs.Header.{CarriedData, most_leaves};
ghost use Rattle.journal_model.specs.Journal.{pages_ascend};
ghost use Rattle.journal_model.specs.Part.{keep as keep_part, pages_of};
ghost use Rattle.jrnl_part.specs.Views.{keep_view};
ghost use Rattle.jrnl_store.specs.Items.{IsLowItem, item_view};
ghost use Rattle.keep_judge.specs.Good.{pages_fit};
ghost use Rattle.open_keeps.specs.Search.{IsInside, Seeks, SeeksOn, part_in};
ghost use Rattle.open_pass.specs.Tickets.{rows_in};

use crate::base::{Base, Search};
use avm_num::NoMemory;
use jrnl_part::Keep;
use jrnl_store::Item;
use keep_judge::{is_good, told_by};
use open_pass::Pass;
use rv32_mem::Ram;
use std::alloc::Global;

impl Base {
    /// Takes the state of a keep in place of its own.
    #[tactic(auto, unfolding(avm_num::specs::Room::left))]
    fn take(&mut self, head: &[u8], ram: &Ram, keeps: u64)
        requires short { length head.now ≤ 11783 }
        requires fits { pages_fit (length ram.now.dirty) (head_of head.now) ≡ true }
        requires same { length self.old.ram.dirty ≡ length ram.now.dirty }
        ensures head { self.new.head.bytes ≡ head.now }
        ensures pages { self.new.ram.bytes ≡ ram.now.bytes }
        ensures count { length self.new.ram.dirty ≡ length self.old.ram.dirty }
        ensures keeps { self.new.keeps ≡ keeps }
    {
        self.ram.pages();
        self.head.clear();
        self.head.put(head);
        self.ram.put(0, ram.bytes());
        self.keeps = keeps;
    }
}

impl Search {
    /// Takes the next keep.
    fn keep(&mut self, alloc: Global, keep: &Keep<'_>) -> Result<(), NoMemory>
        ensures sought { OnOk result (pages_ascend 0 (length self.old.now.ram.dirty) (pages_of (keep_view keep.now)) ≡ true → SeeksOn self.old (keep_part (keep_view keep.now) ∷ []) self.new) }
        ensures pages { length self.new.now.ram.dirty ≡ length self.old.now.ram.dirty }
        ensures key { self.new.tickets.key ≡ self.old.tickets.key }
        ensures kept { rows_in self.new.tickets.kept ≡ rows_in self.old.tickets.kept }
    {
        if self.keeps == u64::MAX {
            return Err(NoMemory);
        }
        let pages = self.now.keep(keep.pages);
        self.now.ram.pages();
        self.own.bounds();
        self.keeps += 1;
        if keep.seq > self.last {
            return Ok(());
        }
        let good = is_good(alloc, &self.own, self.first, keep, self.told, &pages)?;
        if !good {
            return Ok(());
        }
        self.base.take(keep.head, &self.now.ram, self.keeps);
        Ok(())
    }

    /// Takes the next item but for its ticket.
    fn follow(&mut self, alloc: Global, item: &Item<'_>) -> Result<(), NoMemory>
        ensures sought { OnOk result (IsInside (length self.old.now.ram.dirty) (item_view item.now) → SeeksOn self.old (part_in (item_view item.now)) self.new) }
        ensures pages { length self.new.now.ram.dirty ≡ length self.old.now.ram.dirty }
        ensures key { self.new.tickets.key ≡ self.old.tickets.key }
        ensures kept { rows_in self.new.tickets.kept ≡ rows_in self.old.tickets.kept }
    {
        match item {
            Item::Carried(_, _) => Ok(()),
            Item::Entry(frame, _) => {
                self.told = told_by(frame);
                Ok(())
            }
            Item::Seal(_) => Ok(()),
            Item::Keep(keep) => match self.keep(alloc, keep) {
                Ok(()) => Ok(()),
                Err(no_memory) => Err(no_memory),
            },
        }
    }
}

impl Pass for Search {
    ghost takes = { Seeks };

    ghost most = { λ s. most_leaves s.tickets.key };

    fn item(&mut self, alloc: Global, item: &Item<'_>) -> Result<(), NoMemory> {
        self.tickets.item(item);
        match self.follow(alloc, item) {
            Ok(()) => Ok(()),
            Err(no_memory) => Err(no_memory),
        }
    }
}
