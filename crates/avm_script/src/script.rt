// A script, read whole.
ghost use Rattle.std.specs.Prelude.{◌≡◌, Some, None, Ok, Err, IfOk, OnOk, false, true, []};
ghost use Rattle.avm_script.specs.Listed.{script_in, IsFresh};
ghost use Rattle.avm_script.specs.Script.{script_at};
ghost use Rattle.avm_script.specs.Sofar.{Sofar, step};
ghost use Rattle.avm_script.specs.Lines.{line_view, Fits};

use crate::ReadFault;
use crate::cut::cut;
use crate::line::{Line, read_line};
use avm_num::NoMemory;
use avm_outside::ListFeed;
use std::alloc::Global;
use std::marker::Model;

/// The events, clock values and end of a script.
#[derive(Drop)]
pub struct Script {
    list: ListFeed,
}

impl Model for Script {
    ghost use Rattle.avm_script.specs.Listed.{script_in, IsFresh};
    ghost use Rattle.avm_script.specs.Script.{ScriptData};

    ghost Value = { ScriptData };

    ghost view = { λ s. script_in s.list };

    ghost invariant = { λ s. IsFresh s.list };
}

// What was read so far.
#[derive(Drop)]
struct Reading {
    list: ListFeed,
    last: u64,
    ended: bool,
    ghost fresh: { IsFresh list },
}

impl Reading {
    ghost use Rattle.avm_script.specs.Readings.{sofar};

    fn new(alloc: Global) -> Result<Reading, NoMemory>
        ensures { IfOk result (λ r. sofar r ≡ record { script = record { events = []; clocks = []; ending = 0 }; last = 0; ended = false }) }
    {
        let list = ListFeed::new(alloc, Vec::new(alloc))?;
        Ok(Reading {
            list,
            last: 0,
            ended: false,
        })
    }

    // One more line. False where it may not come here.
    fn take(&mut self, line: Line) -> Result<bool, NoMemory>
        requires { Fits line }
        ensures taken { result ≡ Ok true → step (sofar self.old) (line_view line) ≡ Some (sofar self.new) }
        ensures refused { result ≡ Ok false → step (sofar self.old) (line_view line) ≡ None }
    {
        if self.ended {
            return Ok(matches!(line, Line::Passed));
        }
        match line {
            Line::Passed => {}
            Line::Clock(value) => self.list.push_clock(value)?,
            Line::At(at, event, bytes) => {
                if at < self.last {
                    return Ok(false);
                }
                self.list.push(at, event, &bytes)?;
                self.last = at;
            }
            Line::End(count) => {
                if count < self.last {
                    return Ok(false);
                }
                self.list.set_end(count);
                self.ended = true;
            }
        }
        Ok(true)
    }
}

impl Script {
    /// Reads a script. Refused exactly where the bytes are none.
    pub fn read(alloc: Global, bytes: &[u8]) -> Result<Script, ReadFault>
        ensures ok { IfOk result (λ s. script_at bytes.now ≡ Some s) }
        ensures refused { result ≡ Err ReadFault.Refused → script_at bytes.now ≡ None }
    {
        let mut reading = Reading::new(alloc)?;
        let mut rest = bytes;
        while let Some((text, behind)) = cut(rest, b'\n') {
            let Some(line) = read_line(alloc, text)? else {
                return Err(ReadFault::Refused);
            };
            if !reading.take(line)? {
                return Err(ReadFault::Refused);
            }
            rest = behind;
        }
        if !rest.is_empty() {
            return Err(ReadFault::Refused);
        }
        if !reading.ended {
            return Err(ReadFault::Refused);
        }
        Ok(Script { list: reading.list })
    }

    pub(crate) fn into_list(self) -> ListFeed
        ensures script { script_in result ≡ self }
        ensures fresh { IsFresh result }
    {
        self.list
    }
}
