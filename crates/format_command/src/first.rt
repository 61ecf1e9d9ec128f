// A new store of a key and a machine.
ghost use Rattle.std.specs.Prelude.{◌≡◌};
ghost use Rattle.lms_signer.specs.Views.{key_data};
ghost use Rattle.format_command.specs.Booted.{IsStart};
ghost use Rattle.format_command.specs.First.{CountsDisk, Makes, first_journal};

use crate::End;
use crate::inputs::Start;
use crate::making::make_first;
use avm_num::Room;
use avm_outside::Disk;
use command_parts::Fault;
use lms_signer::Signer;
use snap_state::{head_len, put_head, state_root};
use std::alloc::Global;

/// Makes the store in which the machine boots, under the public key.
pub fn make_store<D: Disk>(alloc: Global, disk: &mut D, start: &Start) -> Result<End, Fault>
    requires start { IsStart start.now }
    ensures makes { Makes (first_journal (key_data start.now.key) start.now.boot.machine.state) (D.seen disk.old) (D.seen disk.new) (D.may_leave disk.new) result }
    ensures faults { CountsDisk (D.faults disk.old) (D.faults disk.new) result }
{
    let signer = Signer::new(alloc, start.key)?;
    let public = signer.public();
    let mut head = Room::new(alloc, 1 << 14)?;
    let machine = &start.boot.machine;
    head_len(machine);
    put_head(&mut head, machine);
    let root = state_root(machine, &start.boot.pages);
    let pages = machine.ram().bytes();
    make_first(alloc, disk, &public, head.bytes(), pages, &root)
}
