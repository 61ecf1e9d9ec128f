// A schedule, read whole.
ghost use Rattle.std.specs.Prelude.{◌≡◌, Some, None, Ok, Err, IfOk, OnOk, false, true, [], map};
ghost use Rattle.world_schedule.specs.Read.{event_in, line_in, node_in};
ghost use Rattle.world_schedule.specs.Readings.{sofar};
ghost use Rattle.world_schedule.specs.Schedule.{lines_at, schedule_at};
ghost use Rattle.world_schedule.specs.Sofar.{step};

use crate::cut::cut;
use crate::event_line::EventLine;
use crate::line::{Line, read_line};
use crate::node_line::NodeLine;
use crate::whole::Schedule;
use avm_num::NoMemory;
use avm_script::ReadFault;
use std::alloc::Global;

// What was read so far.
#[derive(Drop)]
struct Reading {
    nodes: Vec<NodeLine>,
    events: Vec<EventLine>,
    begun: bool,
}

impl Reading {
    fn new(alloc: Global) -> Reading
        ensures { sofar result ≡ record { schedule = record { nodes = []; events = [] }; begun = false } }
    {
        Reading {
            nodes: Vec::new(alloc),
            events: Vec::new(alloc),
            begun: false,
        }
    }

    // One more line. False where it may not come here.
    fn take(&mut self, line: Line) -> Result<bool, NoMemory>
        ensures taken { result ≡ Ok true → step (sofar self.old) (line_in line) ≡ Some (sofar self.new) }
        ensures refused { result ≡ Ok false → step (sofar self.old) (line_in line) ≡ None }
    {
        match line {
            Line::Passed => {}
            Line::Node(node) => {
                if self.begun {
                    return Ok(false);
                }
                if self.nodes.push(node).is_err() {
                    return Err(NoMemory);
                }
            }
            Line::Event(event) => {
                if self.events.push(event).is_err() {
                    return Err(NoMemory);
                }
                self.begun = true;
            }
        }
        Ok(true)
    }
}

// Reads the lines.
fn read_lines(alloc: Global, bytes: &[u8]) -> Result<Reading, ReadFault>
    ensures ok { IfOk result (λ r. lines_at bytes.now ≡ Some (sofar r).schedule) }
    ensures refused { result ≡ Err ReadFault.Refused → lines_at bytes.now ≡ None }
{
    let mut reading = Reading::new(alloc);
    let mut rest = bytes;
    while let Some((text, behind)) = cut(rest, b'\n') {
        let Some(line) = read_line(alloc, text)? else {
            return Err(ReadFault::Refused);
        };
        if !reading.take(line)? {
            return Err(ReadFault::Refused);
        }
        rest = behind;
    }
    if !rest.is_empty() {
        return Err(ReadFault::Refused);
    }
    Ok(reading)
}

impl Schedule {
    /// Reads a schedule. Refused exactly where the bytes are none.
    #[tactic(auto, unfolding(crate::specs::Schedule::schedule_at))]
    pub fn read(alloc: Global, bytes: &[u8]) -> Result<Schedule, ReadFault>
        ensures ok { IfOk result (λ s. schedule_at bytes.now ≡ Some (record { nodes = map node_in s.nodes.items; events = map event_in s.events.items })) }
        ensures refused { result ≡ Err ReadFault.Refused → schedule_at bytes.now ≡ None }
    {
        if bytes.len() > 1 << 24 {
            return Err(ReadFault::Refused);
        }
        let reading = read_lines(alloc, bytes)?;
        let nodes = reading.nodes;
        if nodes.is_empty() || nodes.len() > 4 {
            return Err(ReadFault::Refused);
        }
        Ok(Schedule {
            nodes,
            events: reading.events,
        })
    }
}
