//! A file that is written in pieces, with a buffer before it.

ghost use Rattle.std.specs.Prelude.{◌≡◌, ◌≢◌, ◌+◌, ◌<◌, ◌^◌, ◌++◌, [], ℕ, List, length, IfOk, OnOk};
ghost use Rattle.avm_num.specs.Room.{left};
ghost use Rattle.avm_model.specs.Frame.{frame_bytes};
ghost use Rattle.avm_outside.specs.Outside.{Counts};
ghost use Rattle.log_entry.specs.Views.{frame_view};
ghost use Rattle.journal_export.specs.Writing.{Adds};

use avm_num::{NoMemory, Room};
use avm_outside::{Failed, Files};
use log_entry::Frame;
use std::alloc::Global;

/// How many bytes wait at most.
const ROOM: usize = 65536;

/// Bytes that are to be appended to a file.
#[derive(Drop)]
pub struct Draft {
    pub room: Room,
    pub ghost capacity: { room.capacity ≡ 65536 },
}

/// What stands before a frame's content.
#[tactic(auto, unfolding(avm_num::specs::Lists::be, avm_num::specs::Lists::one, avm_model::specs::Frame::frame_bytes))]
fn frame_front(frame: &Frame<'_>) -> [u8; 13]
    requires { length frame.now.content.now < 2 ^ 32 }
    ensures { result ++ frame.now.content.now ≡ frame_bytes (frame_view frame.now) }
{
    let mut front = [0; 13];
    front[..8].copy_from_slice(&frame.seq.to_be_bytes());
    front[8] = frame.kind;
    front[9..13].copy_from_slice(&(frame.content.len() as u32).to_be_bytes());
    front
}

impl Draft {
    /// Nothing waits.
    pub fn new(alloc: Global) -> Result<Draft, NoMemory>
        ensures { IfOk result (λ d. d.room.bytes ≡ []) }
    {
        let room = Room::new(alloc, ROOM)?;
        Ok(Draft { room })
    }

    /// Appends what waits.
    pub fn flush<F: Files>(&mut self, files: &mut F, name: &str) -> Result<(), Failed>
        ensures adds { OnOk result (Adds [] self.old.room.bytes self.new.room.bytes (F.file files.old name.now) (F.file files.new name.now)) }
        ensures empty { OnOk result (self.new.room.bytes ≡ []) }
        ensures others { (n : List ℕ) → n ≢ name.now → F.file files.new n ≡ F.file files.old n }
        ensures faults { Counts (F.faults files.old) (F.faults files.new) result }
    {
        match files.append(name, self.room.bytes()) {
            Ok(()) => {
                self.room.clear();
                Ok(())
            }
            Err(Failed) => Err(Failed),
        }
    }

    /// Adds bytes that may be more than the buffer holds, where nothing waits.
    #[tactic(auto, unfolding(avm_num::specs::Room::left))]
    fn put_empty<F: Files>(&mut self, files: &mut F, name: &str, bytes: &[u8]) -> Result<(), Failed>
        requires { self.old.room.bytes ≡ [] }
        ensures adds { OnOk result (Adds bytes.now self.old.room.bytes self.new.room.bytes (F.file files.old name.now) (F.file files.new name.now)) }
        ensures others { (n : List ℕ) → n ≢ name.now → F.file files.new n ≡ F.file files.old n }
        ensures faults { Counts (F.faults files.old) (F.faults files.new) result }
    {
        if bytes.len() > ROOM {
            return match files.append(name, bytes) {
                Ok(()) => Ok(()),
                Err(Failed) => Err(Failed),
            };
        }
        self.room.put(bytes);
        Ok(())
    }

    /// Adds bytes.
    #[tactic(auto, unfolding(avm_num::specs::Room::left))]
    pub fn put<F: Files>(&mut self, files: &mut F, name: &str, bytes: &[u8]) -> Result<(), Failed>
        ensures adds { OnOk result (Adds bytes.now self.old.room.bytes self.new.room.bytes (F.file files.old name.now) (F.file files.new name.now)) }
        ensures others { (n : List ℕ) → n ≢ name.now → F.file files.new n ≡ F.file files.old n }
        ensures faults { Counts (F.faults files.old) (F.faults files.new) result }
    {
        let waiting = self.room.bytes().len();
        if bytes.len() <= ROOM && waiting <= ROOM - bytes.len() {
            self.room.put(bytes);
            return Ok(());
        }
        match self.flush(files, name) {
            Ok(()) => self.put_empty(files, name, bytes),
            Err(Failed) => Err(Failed),
        }
    }

    /// Adds an entry's frame.
    pub fn put_entry<F: Files>(
        &mut self,
        files: &mut F,
        name: &str,
        frame: &Frame<'_>,
    ) -> Result<(), Failed>
        requires { length frame.now.content.now < 2 ^ 32 }
        ensures adds { OnOk result (Adds (frame_bytes (frame_view frame.now)) self.old.room.bytes self.new.room.bytes (F.file files.old name.now) (F.file files.new name.now)) }
        ensures others { (n : List ℕ) → n ≢ name.now → F.file files.new n ≡ F.file files.old n }
        ensures faults { Counts (F.faults files.old) (F.faults files.new) result }
    {
        let front = frame_front(frame);
        match self.put(files, name, &front) {
            Ok(()) => self.put(files, name, frame.content),
            Err(Failed) => Err(Failed),
        }
    }
}
