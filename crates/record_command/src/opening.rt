// The store is opened for the private key.
ghost use Rattle.std.specs.Prelude.{◌≡◌, [], None, IfOk, IfErr, IfSome, IsErr, Ok, Err};
ghost use Rattle.avm_model.specs.Keys.{HasTypes};
ghost use Rattle.lms_signer.specs.Views.{key_data};
ghost use Rattle.rebut_pass.specs.Reads.{OnlyReads};
ghost use Rattle.recorder.specs.Recorder.{desk_of, stop_of};
ghost use Rattle.record_command.specs.Counts.{DiskCounts};
ghost use Rattle.record_command.specs.Stores.{IsOfStore, IsStoreRefusal, OpenAnswers, refusal_of};

use crate::End;
use avm_outside::Disk;
use command_parts::Fault;
use lms_signer::{KeyFile, Signer};
use recorder::{RecordFault, Recorder};
use std::alloc::Global;

// Why a store can't be opened, as an end.
fn refusal(fault: RecordFault) -> Result<End, Fault>
    ensures { result ≡ refusal_of fault }
{
    match fault {
        RecordFault::NoMemory => Err(Fault::NoMemory),
        RecordFault::DiskFault => Err(Fault::Disk),
        RecordFault::NoStore => Ok(End::RefusedNoStore),
        RecordFault::Damaged(place) => Ok(End::RefusedDamaged(place)),
        RecordFault::Retired(_) => Ok(End::RefusedRetired),
        RecordFault::KeyMismatch => Ok(End::RefusedKey),
        RecordFault::Unreplayed(number) => Ok(End::RefusedJournal(number)),
    }
}

// Whether that is an end.
fn refused(fault: RecordFault) -> Result<Result<Recorder, End>, Fault>
    ensures end { IfOk result (λ r. IfErr r (λ e. refusal_of fault ≡ Ok e)) }
    ensures no_recorder { IfOk result (λ r. IsErr r) }
    ensures fault { IfErr result (λ e. refusal_of fault ≡ Err e) }
{
    match refusal(fault) {
        Ok(end) => Ok(Err(end)),
        Err(fault) => Err(fault),
    }
}

/// Opens a store with a private key: the recorder, or the end that says why there is none. No byte of the disk changes.
pub fn open_store<D: Disk>(
    alloc: Global,
    disk: &mut D,
    key: KeyFile,
) -> Result<Result<Recorder, End>, Fault>
    requires types { HasTypes (key_data key) }
    ensures answers { IfSome (D.seen disk.old) (λ was. OpenAnswers (key_data key) (D.may_leave disk.new) was result) }
    ensures open { IfOk result (λ r. IfOk r (λ r. stop_of r ≡ None)) }
    ensures empty { IfOk result (λ r. IfOk r (λ r. (desk_of r).store.batch.parts ≡ [])) }
    ensures key { IfOk result (λ r. IfOk r (λ r. (desk_of r).press.key ≡ key_data key)) }
    ensures refused { IfOk result (λ r. IfErr r IsStoreRefusal) }
    ensures cause { IfErr result IsOfStore }
    ensures reads { OnlyReads D.seen D.may_leave D.moment D.left_since disk.old disk.new }
    ensures faults { DiskCounts (D.faults disk.old) (D.faults disk.new) result }
{
    let Ok(signer) = Signer::new(alloc, key) else {
        return Err(Fault::NoMemory);
    };
    match Recorder::attach(alloc, disk, signer) {
        Ok(recorder) => Ok(Ok(recorder)),
        Err(fault) => refused(fault),
    }
}
