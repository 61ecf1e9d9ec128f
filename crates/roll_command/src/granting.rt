// Binds a key in the roll of a disk.
ghost use Rattle.std.specs.Prelude.{◌≡◌, ◌<◌, ◌^◌, ◌≤◌, IfOk, IfErr};
ghost use Rattle.hss_model.specs.Roll.{most_of};
ghost use Rattle.format_command.specs.First.{CountsDisk};
ghost use Rattle.roll_command.specs.Granting.{WhereTold, GrantAnswers, Stands, IsRollRefusal};

use avm_outside::Disk;
use command_parts::Fault;
use hss_command::End;
use lms_hss::{Granted, Roll, RollFault};

/// Opens the roll of a disk, and binds a key in it: the right to sign the key at its leaf, or why there is none.
pub fn grant<D: Disk>(
    disk: &mut D,
    top: &[u8; 60],
    bottom: &[u8; 56],
) -> Result<Result<Granted, End>, Fault>
    ensures answers { IfOk result (λ a. WhereTold (D.seen disk.old) (D.seen disk.new) (GrantAnswers top.now bottom.now (D.may_leave disk.new) a)) }
    ensures granted { IfOk result (λ a. IfOk a (λ g. (g.bottom ≡ bottom.now) × (g.leaf < most_of top.now))) }
    ensures refused { IfOk result (λ a. IfErr a IsRollRefusal) }
    ensures stands { WhereTold (D.seen disk.old) (D.seen disk.new) (Stands bottom.now) }
    ensures faults { CountsDisk (D.faults disk.old) (D.faults disk.new) result }
    ensures cause { IfErr result (λ e. e ≡ Fault.Disk) }
{
    let mut roll = match Roll::attach(disk) {
        Ok(roll) => roll,
        Err(RollFault::DiskFault) => return Err(Fault::Disk),
        Err(_) => return Ok(Err(End::RefusedNoStore)),
    };
    let key = roll.key();
    if key[..] != top[..] {
        return Ok(Err(End::RefusedKey));
    }
    match roll.enroll(disk, bottom) {
        Ok(granted) => Ok(Ok(granted)),
        Err(RollFault::DiskFault) => Err(Fault::Disk),
        Err(_) => Ok(Err(End::RefusedLeaves)),
    }
}
