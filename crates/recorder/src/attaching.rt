//! A recorder is opened on the disk of a store.

ghost use Rattle.std.specs.Prelude.{◌≡◌, [], None, IfOk, IfSome};
ghost use Rattle.avm_model.specs.Keys.{HasTypes};
ghost use Rattle.rebut_pass.specs.Reads.{OnlyReads};
ghost use Rattle.record_open.specs.Counts.{OpenCounts};
ghost use Rattle.record_open.specs.Opening.{AttachAnswers};
ghost use Rattle.recorder.specs.Opened.{desk_result};
ghost use Rattle.recorder.specs.Recorder.{desk_of, stop_of};

use crate::recorder::Recorder;
use avm_outside::Disk;
use lms_signer::Signer;
use record_open::{RecordFault, attach};
use record_ready::is_steady;
use std::alloc::Global;

impl Recorder {
    /// Opens a store: the machine is made of the journal's last good keep, or else of its header, and the entries behind that
    /// are replayed. Nothing is released, and no byte of the disk changes. All memory is taken here. The signer has the types
    /// of a private key file, as `Signer::new` asks for them; a refusal drops it.
    ///
    /// The refusals, in this order: `NoStore` where the disk holds no journal; `Damaged` where bytes of it are none; `NoStore`
    /// where its header's head isn't one; `Retired` where it has the mark; `KeyMismatch` where its key isn't the signer's;
    /// `Unreplayed` with the number of the first entry behind the base that doesn't replay. `DiskFault` comes only where the
    /// disk's count rose.
    pub fn attach<D: Disk>(
        alloc: Global,
        disk: &mut D,
        signer: Signer,
    ) -> Result<Recorder, RecordFault>
        requires types { HasTypes signer }
        ensures answers { IfSome (D.seen disk.old) (λ was. AttachAnswers signer (desk_result result) (D.may_leave disk.new) was) }
        ensures open { IfOk result (λ r. stop_of r ≡ None) }
        ensures empty { IfOk result (λ r. (desk_of r).store.batch.parts ≡ []) }
        ensures key { IfOk result (λ r. (desk_of r).press.key ≡ signer) }
        ensures reads { OnlyReads D.seen D.may_leave D.moment D.left_since disk.old disk.new }
        ensures faults { OpenCounts (D.faults disk.old) (D.faults disk.new) (desk_result result) }
    {
        let desk = match attach(alloc, disk, signer) {
            Ok(desk) => desk,
            Err(fault) => return Err(fault),
        };
        // Only a disk that tells nothing and contradicts itself leaves another machine.
        if is_steady(&desk.machine) {
            Ok(Recorder::new(desk))
        } else {
            Err(RecordFault::NoStore)
        }
    }
}
