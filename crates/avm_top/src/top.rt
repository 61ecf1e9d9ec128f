// The top call: what the words ask for is done by the command's crate.
ghost use Rattle.std.specs.Prelude.{◌≡◌, ◌≢◌, ◌⊎◌, ◌≤◌, ℕ, List, Option, None, Some, IfSome, false, map, string_bytes};
ghost use Rattle.avm_script.specs.Job.{SignedData, audit as audit_job, check as check_job, enroll as enroll_job, export as export_job, format as format_job, list as list_job, narrow as narrow_job, record_job, rebut as rebut_job, retain as retain_job, roll as roll_job, view_at as view_at_job, view_changes as view_changes_job, widen as widen_job, job_of, spare_of, store_of};
ghost use Rattle.avm_outside.specs.Moments.{LeavesOnly};
ghost use Rattle.avm_outside.specs.Outside.{Rises};
ghost use Rattle.audit_command.specs.Audit.{IsNoneOf};
ghost use Rattle.audit_command.specs.Meaning.{AuditMeans, CheckMeans, IsAcceptedLater};
ghost use Rattle.base_model.specs.Spare.{IsFree, IsSafe};
ghost use Rattle.export_command.specs.Meaning.{ExportMeans};
ghost use Rattle.export_command.specs.Outcomes.{asked};
ghost use Rattle.format_command.specs.Meaning.{FormatMeans};
ghost use Rattle.headline.specs.Headline.{HeadlineMeans};
ghost use Rattle.hss_command.specs.Narrow.{NarrowMeans};
ghost use Rattle.hss_command.specs.Widen.{WidenMeans};
ghost use Rattle.list_command.specs.Meaning.{ListMeans};
ghost use Rattle.rebut_command.specs.Meaning.{RebutMeans};
ghost use Rattle.rebut_pass.specs.Reads.{OnlyReads};
ghost use Rattle.record_command.specs.Meaning.{RecordMeans, StandsFrom};
ghost use Rattle.retain_command.specs.Meaning.{RetainMeans};
ghost use Rattle.retain_command.specs.Outcomes.{RetainEnds};
ghost use Rattle.roll_command.specs.Enroll.{EnrollMeans};
ghost use Rattle.roll_command.specs.Roll.{RollMeans};
ghost use Rattle.spare_disk.specs.Activating.{Each};
ghost use Rattle.store_retain.specs.Retaining.{IsSpareImage, IsStoreImage, IsUnmarked, RetainsTogether};
ghost use Rattle.view_command.specs.Meaning.{ViewMeans};
ghost use Rattle.view_command.specs.Showing.{ShowsState, ShowsChanges};
ghost use Rattle.avm_top.specs.Jobs.{RunsAs, MeansAs, MomentsAs, WhereRetained, enroll_names, format_names, record_files, state_asked, uses_disk, uses_spare, writes_disk, written_by};

use crate::refusing::{refuse_unbuilt, refuse_words};
use audit_command::{audit, check};
use avm_outside::{Disk, Files, Sink};
use avm_script::{BadWords, Job, job};
use export_command::export;
use format_command::format;
use hss_command::{narrow, widen};
use keygen_command::{key_of, keygen};
use list_command::list;
use rebut_command::rebut;
use record_command::{RecordNames, record};
use retain_command::retain;
use roll_command::{enroll, roll};
use std::alloc::Global;
use view_command::{StateAsked, view_at, view_changes};

/// Does what the words ask for, prints its lines, and gives its status: 0 done, accepted or stands; 1 a fault was found
/// and evidence is written; 2 refused by content; 3 the words or an input file refused; 4 a fault of the outside; 5 want
/// of memory. The disk is the store of the job, the spare the one that a store is moved into.
pub fn avm<F: Files, D: Disk, E: Disk, S: Sink>(
    alloc: Global,
    words: &[String],
    files: &mut F,
    disk: &mut D,
    spare: &mut E,
    out: &mut S,
) -> u8
    // a run of the words' command, by the files and the disk that it finds and leaves, and its lines and status
    ensures ends { RunsAs (job_of (map string_bytes words.now)) (F.file files.old) (F.file files.new) (D.seen disk.old) (D.seen disk.new) (D.may_leave disk.new) (disk.new ≡ disk.old)
        (record { files_before = F.faults files.old; files_now = F.faults files.new; disk_before = D.faults disk.old; disk_now = D.faults disk.new; out_before = S.faults out.old; out_now = S.faults out.new })
        (S.written out.old) (S.written out.new) result }
    // 4 exactly where a count rose
    ensures four { result ≡ 4 → Rises (F.faults files.old) (F.faults files.new) ⊎ (Rises (D.faults disk.old) (D.faults disk.new) ⊎ (Rises (E.faults spare.old) (E.faults spare.new) ⊎ Rises (S.faults out.old) (S.faults out.new))) }
    ensures not_four { result ≢ 4 → (F.faults files.new ≡ F.faults files.old) × (D.faults disk.new ≡ D.faults disk.old) × (E.faults spare.new ≡ E.faults spare.old) × (S.faults out.new ≡ S.faults out.old) }
    // no other file is changed
    ensures files { (n : List ℕ) → IsNoneOf (written_by (job_of (map string_bytes words.now))) n → F.file files.new n ≡ F.file files.old n }
    // what 0 and 1 mean
    ensures audit { (segment : List ℕ) (image : Option (List ℕ)) (signed : Option SignedData) → Some (audit_job segment image signed) ≡ job_of (map string_bytes words.now) → AuditMeans segment image signed (F.file files.old) (F.file files.new) (S.written out.old) (S.written out.new) result }
    // the program's claim: what an audit's 0 and 1 mean, with `check` by anybody and `rebut` by the owner of a store
    ensures headline { (segment : List ℕ) (signed : Option SignedData) → Some (audit_job segment None signed) ≡ job_of (map string_bytes words.now) → HeadlineMeans segment signed (F.file files.old) (F.file files.new) result }
    ensures check { (key evidence : List ℕ) → Some (check_job key evidence) ≡ job_of (map string_bytes words.now) → CheckMeans key evidence (F.file files.old) result }
    ensures format { (store key config image : List ℕ) → Some (format_job store key config image) ≡ job_of (map string_bytes words.now) → FormatMeans (format_names key config image) (F.file files.old) (D.seen disk.old) (D.seen disk.new) (D.may_leave disk.new) result }
    ensures record { (store key script packets console auths : List ℕ) → Some (record_job store key script packets console auths) ≡ job_of (map string_bytes words.now) → RecordMeans (record_files key script packets console auths) (F.file files.old) (F.file files.new) (D.seen disk.old) (D.seen disk.new) (D.may_leave disk.new) (S.written out.old) (S.written out.new) result }
    // a crash at any moment of a recording leaves an image that stands for a journal of a run of the script
    ensures recorded { (store key script packets console auths : List ℕ) → Some (record_job store key script packets console auths) ≡ job_of (map string_bytes words.now)
        → IfSome (D.seen disk.old) (λ was. (t : ℕ) (c : List ℕ) → t ≤ D.moment disk.old → D.left_since disk.new t c → D.left_since disk.old t c ⊎ StandsFrom (record_files key script packets console auths) (F.file files.old) was c) }
    ensures list { (store : List ℕ) → Some (list_job store) ≡ job_of (map string_bytes words.now) → ListMeans (D.seen disk.old) (S.written out.old) (S.written out.new) result }
    ensures export { (store : List ℕ) (from to : ℕ) (segment : List ℕ) → Some (export_job store from to segment) ≡ job_of (map string_bytes words.now) → ExportMeans (asked from to segment) (D.seen disk.old) (F.file files.old) (F.file files.new) result }
    ensures rebut { (store evidence : List ℕ) → Some (rebut_job store evidence) ≡ job_of (map string_bytes words.now) → RebutMeans (F.file files.old evidence) (D.seen disk.old) (S.written out.old) (S.written out.new) result }
    ensures view { (segment : List ℕ) (count from shown : ℕ) → Some (view_at_job segment count from shown) ≡ job_of (map string_bytes words.now) → ViewMeans (ShowsState (state_asked count from shown)) (F.file files.old segment) (S.written out.old) (S.written out.new) result }
    ensures changes { (segment : List ℕ) (at : ℕ) → Some (view_changes_job segment at) ≡ job_of (map string_bytes words.now) → ViewMeans (ShowsChanges at) (F.file files.old segment) (S.written out.old) (S.written out.new) result }
    // a store moved to the spare: the line and the status, and what they say of both disks
    ensures retain { (store into : List ℕ) (at : ℕ) → Some (retain_job store into at) ≡ job_of (map string_bytes words.now) → RetainEnds at (record { was = D.seen disk.old; now = D.seen disk.new; images = D.may_leave disk.new }) (record { was = E.seen spare.old; now = E.seen spare.new; images = E.may_leave spare.new })
        (record { reads = OnlyReads D.seen D.may_leave D.moment D.left_since disk.old disk.new; quiet = spare.new ≡ spare.old; same = E.seen spare.new ≡ E.seen spare.old })
        (record { disk_before = D.faults disk.old; disk_now = D.faults disk.new; spare_before = E.faults spare.old; spare_now = E.faults spare.new; out_before = S.faults out.old; out_now = S.faults out.new })
        (S.written out.old) (S.written out.new) result }
    ensures retained { (store into : List ℕ) (at : ℕ) → Some (retain_job store into at) ≡ job_of (map string_bytes words.now) → RetainMeans at (record { was = D.seen disk.old; now = D.seen disk.new; images = D.may_leave disk.new }) (record { was = E.seen spare.old; now = E.seen spare.new; images = E.may_leave spare.new }) result }
    // at any moment of it at most one of the two opens; and what a crash then leaves of each
    ensures together { (store into : List ℕ) (at : ℕ) → Some (retain_job store into at) ≡ job_of (map string_bytes words.now) → IfSome (D.seen disk.old) (λ was. IfSome (E.seen spare.old) (λ other. ((c e : List ℕ) → D.may_leave disk.old c → E.may_leave spare.old e → IsSafe c e) → (IsUnmarked was → Each (E.may_leave spare.old) IsFree)
        → RetainsTogether D.moment D.left_since D.may_leave E.moment E.left_since E.may_leave disk.old disk.new spare.old spare.new IsSafe)) }
    ensures moved { (store into : List ℕ) (at : ℕ) → Some (retain_job store into at) ≡ job_of (map string_bytes words.now) → IfSome (D.seen disk.old) (λ was. LeavesOnly D.moment D.left_since disk.old disk.new (IsStoreImage at was (D.may_leave disk.old))) }
    ensures kept { (store into : List ℕ) (at : ℕ) → Some (retain_job store into at) ≡ job_of (map string_bytes words.now) → IfSome (D.seen disk.old) (λ was. IfSome (E.seen spare.old) (λ other. (IsUnmarked was → Each (E.may_leave spare.old) IsFree) → LeavesOnly E.moment E.left_since spare.old spare.new (IsSpareImage at was (E.may_leave spare.old)))) }
    ensures roll { (store key : List ℕ) → Some (roll_job store key) ≡ job_of (map string_bytes words.now) → RollMeans (F.file files.old key) (D.seen disk.old) (D.seen disk.new) (D.may_leave disk.new) result }
    ensures enroll { (store key public endorse : List ℕ) → Some (enroll_job store key public endorse) ≡ job_of (map string_bytes words.now) → EnrollMeans (enroll_names key public endorse) (F.file files.old) (F.file files.new) (D.seen disk.old) (D.seen disk.new) (D.may_leave disk.new) result }
    ensures widen { (endorse auths into : List ℕ) → Some (widen_job endorse auths into) ≡ job_of (map string_bytes words.now) → WidenMeans endorse auths into (F.file files.old) (F.file files.new) result }
    ensures narrow { (key auths public into : List ℕ) → Some (narrow_job key auths public into) ≡ job_of (map string_bytes words.now) → NarrowMeans key auths public into (F.file files.old) (F.file files.new) result }
    // what an audit writes, a check of its key accepts
    ensures evidence { (segment : List ℕ) (image : Option (List ℕ)) (names : SignedData) → Some (audit_job segment image (Some names)) ≡ job_of (map string_bytes words.now) → result ≡ 1 → IsAcceptedLater names (F.file files.old) (F.file files.new) }
    // no call on the disk without a store in the words, and none on the spare without one
    ensures disk { store_of (map string_bytes words.now) ≡ None → disk.new ≡ disk.old }
    ensures spare { spare_of (map string_bytes words.now) ≡ None → spare.new ≡ spare.old }
    // only a job that makes a store or a roll, records on one, retires one, or binds a key in one, changes what is on the disk, or what a crash may leave or might have left
    ensures same { writes_disk (job_of (map string_bytes words.now)) ≡ false → D.seen disk.new ≡ D.seen disk.old }
    ensures crash { writes_disk (job_of (map string_bytes words.now)) ≡ false → (c : List ℕ) → D.may_leave disk.new c → D.may_leave disk.old c }
    ensures moments { writes_disk (job_of (map string_bytes words.now)) ≡ false → (t : ℕ) (c : List ℕ) → t ≤ D.moment disk.old → D.left_since disk.new t c → D.left_since disk.old t c }
{
    act(alloc, words, files, disk, spare, out)
}

// Does the job.
fn act<F: Files, D: Disk, E: Disk, S: Sink>(
    alloc: Global,
    words: &[String],
    files: &mut F,
    disk: &mut D,
    spare: &mut E,
    out: &mut S,
) -> u8
    ensures ends { RunsAs (job_of (map string_bytes words.now)) (F.file files.old) (F.file files.new) (D.seen disk.old) (D.seen disk.new) (D.may_leave disk.new) (disk.new ≡ disk.old)
        (record { files_before = F.faults files.old; files_now = F.faults files.new; disk_before = D.faults disk.old; disk_now = D.faults disk.new; out_before = S.faults out.old; out_now = S.faults out.new })
        (S.written out.old) (S.written out.new) result }
    ensures means { MeansAs (job_of (map string_bytes words.now)) (F.file files.old) (F.file files.new) (D.seen disk.old) (D.seen disk.new) (D.may_leave disk.new) (S.written out.old) (S.written out.new) result }
    ensures retain { WhereRetained (job_of (map string_bytes words.now)) (λ at. RetainEnds at (record { was = D.seen disk.old; now = D.seen disk.new; images = D.may_leave disk.new }) (record { was = E.seen spare.old; now = E.seen spare.new; images = E.may_leave spare.new })
        (record { reads = OnlyReads D.seen D.may_leave D.moment D.left_since disk.old disk.new; quiet = spare.new ≡ spare.old; same = E.seen spare.new ≡ E.seen spare.old })
        (record { disk_before = D.faults disk.old; disk_now = D.faults disk.new; spare_before = E.faults spare.old; spare_now = E.faults spare.new; out_before = S.faults out.old; out_now = S.faults out.new })
        (S.written out.old) (S.written out.new) result) }
    ensures retained { WhereRetained (job_of (map string_bytes words.now)) (λ at. RetainMeans at (record { was = D.seen disk.old; now = D.seen disk.new; images = D.may_leave disk.new }) (record { was = E.seen spare.old; now = E.seen spare.new; images = E.may_leave spare.new }) result) }
    ensures together { WhereRetained (job_of (map string_bytes words.now)) (λ at. IfSome (D.seen disk.old) (λ was. IfSome (E.seen spare.old) (λ other. ((c e : List ℕ) → D.may_leave disk.old c → E.may_leave spare.old e → IsSafe c e) → (IsUnmarked was → Each (E.may_leave spare.old) IsFree)
        → RetainsTogether D.moment D.left_since D.may_leave E.moment E.left_since E.may_leave disk.old disk.new spare.old spare.new IsSafe))) }
    ensures moved { WhereRetained (job_of (map string_bytes words.now)) (λ at. IfSome (D.seen disk.old) (λ was. LeavesOnly D.moment D.left_since disk.old disk.new (IsStoreImage at was (D.may_leave disk.old)))) }
    ensures kept { WhereRetained (job_of (map string_bytes words.now)) (λ at. IfSome (D.seen disk.old) (λ was. IfSome (E.seen spare.old) (λ other. (IsUnmarked was → Each (E.may_leave spare.old) IsFree) → LeavesOnly E.moment E.left_since spare.old spare.new (IsSpareImage at was (E.may_leave spare.old))))) }
    ensures left { MomentsAs (job_of (map string_bytes words.now)) (F.file files.old) (D.seen disk.old) (D.moment disk.old) (D.left_since disk.old) (D.left_since disk.new) }
    ensures four { result ≡ 4 → Rises (F.faults files.old) (F.faults files.new) ⊎ (Rises (D.faults disk.old) (D.faults disk.new) ⊎ (Rises (E.faults spare.old) (E.faults spare.new) ⊎ Rises (S.faults out.old) (S.faults out.new))) }
    ensures not_four { result ≢ 4 → (F.faults files.new ≡ F.faults files.old) × (D.faults disk.new ≡ D.faults disk.old) × (E.faults spare.new ≡ E.faults spare.old) × (S.faults out.new ≡ S.faults out.old) }
    ensures files { (n : List ℕ) → IsNoneOf (written_by (job_of (map string_bytes words.now))) n → F.file files.new n ≡ F.file files.old n }
    ensures quiet { uses_disk (job_of (map string_bytes words.now)) ≡ false → disk.new ≡ disk.old }
    ensures spare_quiet { uses_spare (job_of (map string_bytes words.now)) ≡ false → spare.new ≡ spare.old }
    ensures same { writes_disk (job_of (map string_bytes words.now)) ≡ false → D.seen disk.new ≡ D.seen disk.old }
    ensures crash { writes_disk (job_of (map string_bytes words.now)) ≡ false → (c : List ℕ) → D.may_leave disk.new c → D.may_leave disk.old c }
    ensures moments { writes_disk (job_of (map string_bytes words.now)) ≡ false → (t : ℕ) (c : List ℕ) → t ≤ D.moment disk.old → D.left_since disk.new t c → D.left_since disk.old t c }
{
    match job(words) {
        Err(BadWords) => refuse_words(out),
        Ok(
            Job::Keygen {
                height,
                w,
                id,
                seed,
                key,
                public,
            },
        ) => keygen(alloc, files, key_of(height, w, id, seed), key, public, out),
        Ok(
            Job::Format {
                store: _,
                key,
                config,
                image,
            },
        ) => format(alloc, files, key, config, image, disk, out),
        Ok(
            Job::Record {
                store: _,
                key,
                script,
                packets,
                console,
                auths,
            },
        ) => {
            let names = RecordNames {
                key,
                script,
                packets,
                console,
                auths,
            };
            record(alloc, files, disk, names, out)
        }
        Ok(Job::List { store: _ }) => list(alloc, disk, out),
        Ok(
            Job::Export {
                store: _,
                from,
                to,
                segment,
            },
        ) => export(alloc, files, disk, from, to, segment, out),
        Ok(Job::Rebut { store: _, evidence }) => rebut(alloc, disk, files, evidence, out),
        Ok(
            Job::Audit {
                segment,
                image,
                signed,
            },
        ) => audit(alloc, files, segment, image, signed, out),
        Ok(Job::Check { key, evidence }) => check(alloc, files, key, evidence, out),
        Ok(
            Job::ViewAt {
                segment,
                count,
                from,
                words,
            },
        ) => {
            let asked = StateAsked { count, from, words };
            view_at(alloc, files, segment, &asked, out)
        }
        Ok(Job::ViewChanges { segment, at }) => view_changes(alloc, files, segment, at, out),
        Ok(
            Job::Retain {
                store: _,
                into: _,
                at,
            },
        ) => retain(alloc, disk, at, spare, out),
        Ok(Job::Roll { store: _, key }) => roll(alloc, files, disk, key, out),
        Ok(
            Job::Enroll {
                store: _,
                key,
                public,
                endorse,
            },
        ) => enroll(alloc, files, disk, key, public, endorse, out),
        Ok(
            Job::Widen {
                endorse,
                auths,
                out: into,
            },
        ) => widen(alloc, files, endorse, auths, into, out),
        Ok(
            Job::Narrow {
                key,
                auths,
                public,
                out: into,
            },
        ) => narrow(alloc, files, key, auths, public, into, out),
        Ok(_) => refuse_unbuilt(out),
    }
}
