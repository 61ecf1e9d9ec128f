//! What is released once a batch is saved.

ghost use Rattle.std.specs.Prelude.{◌≡◌, ◌≤◌, OnOk, OnErr};
ghost use Rattle.avm_outside.specs.Outlet.{all_added};
ghost use Rattle.avm_outside.specs.Outside.{Counts};
ghost use Rattle.record_parts.specs.Ends.{CutsAmong};
ghost use Rattle.record_parts.specs.Outs.{line_pieces};

use avm_outside::{Failed, Outlet};
use guest_machine::Line;

/// Releases a line, where there is one.
pub fn release_line<O: Outlet>(outlet: &mut O, line: &Line) -> Result<(), Failed>
    requires short { line.now.len ≤ 128 }
    ensures released { OnOk result (O.held outlet.new ≡ all_added O.adding (line_pieces line.now) (O.held outlet.old)) }
    ensures failed { OnErr result (CutsAmong O.adding O.tearing (line_pieces line.now) (O.held outlet.old) (O.held outlet.new)) }
    ensures loan { O.loan outlet.new ≡ O.loan outlet.old }
    ensures faults { Counts (O.faults outlet.old) (O.faults outlet.new) result }
{
    if line.len == 0 {
        return Ok(());
    }
    outlet.console(&line.bytes[..line.len as usize])
}
