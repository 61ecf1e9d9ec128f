// A schedule.
ghost use Rattle.std.specs.Prelude.{◌≤◌, length};

use crate::event_line::EventLine;
use crate::node_line::NodeLine;

/// The nodes, of which there are at most four, and the events of a schedule.
#[derive(Drop)]
pub struct Schedule {
    pub nodes: Vec<NodeLine>,
    pub events: Vec<EventLine>,
    pub ghost few: { length nodes.items ≤ 4 },
}
