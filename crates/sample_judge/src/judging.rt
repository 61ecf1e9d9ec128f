//! The judgement.

ghost use Rattle.std.specs.Prelude.{◌≡◌, ◌==◌, ◌&&◌, ◌∷◌, [], List, ℕ, None, IfOk, map, string_bytes};
ghost use Rattle.avm_model.specs.Keys.{HasTypes};
ghost use Rattle.avm_outside.specs.MemDisks.{disk_bytes};
ghost use Rattle.export_model.specs.Exports.{Answer, IsExport};
ghost use Rattle.honest_model.specs.Keeps.{last_of};
ghost use Rattle.lms_signer.specs.Views.{key_data};
ghost use Rattle.record_model.specs.Recorded.{Run};
ghost use Rattle.recorder.specs.Recorder.{stop_of};
ghost use Rattle.sample_lines.specs.Judging.{FirstEnds, JudgedTo, SecondEnds, Subject, first_lines, journal, middle as middle_of, seed_line as seed_text};
ghost use Rattle.sample_model.specs.Start.{own_key};
ghost use Rattle.sample_node.specs.Node.{IsLeft};
ghost use Rattle.sample_judge.specs.Ends.{Ends, IsCase, Says, numbers_text};

use crate::auths::{auths_for, seal_of};
use crate::convicting::judge_cheat;
use crate::ending::{Ending, add};
use crate::lines::{numbers_line, seed_line, segment_line};
use crate::numbers::read_numbers;
use crate::segments::segment;
use auditor::audit;
use avm_num::NoMemory;
use avm_outside::MemDisk;
use lms_signer::KeyFile;
use lms_tree::LmsKey;
use sample_node::Node;
use std::alloc::Global;

/// Judges the second segment, and then the cheat of the first.
fn judge_second(
    alloc: Global,
    key: &LmsKey,
    disk: &mut MemDisk,
    seal: &[u8],
    middle: u64,
    last: u64,
    first: &[u8],
    lines: Vec<String>,
) -> Result<Ending, NoMemory>
    requires { key.now.lms ≡ 6 }
    ensures { (x : Subject) (said : List (List ℕ)) → IsCase x key.now (disk_bytes disk.old) seal.now middle last → Says (map string_bytes lines.items) said
        → IfOk result (Ends (λ e. (second : Answer) × IsExport (journal x) (middle_of x) (last_of (journal x)) second × SecondEnds x said first.now second e)) }
{
    let mut lines = lines;
    let found = segment(alloc, disk, middle, last)?;
    let Some(bytes) = found else {
        return Ok(Ending { lines, status: 2 });
    };
    let verdict = audit(
        alloc,
        &key.public(),
        &bytes,
        auths_for(seal, last, middle, last),
    )?;
    add(&mut lines, segment_line(alloc, 2, verdict))?;
    judge_cheat(alloc, key, disk, first, lines)
}

/// Judges the first segment, and then the second.
fn judge_first(
    alloc: Global,
    key: &LmsKey,
    disk: &mut MemDisk,
    seal: &[u8],
    middle: u64,
    last: u64,
    lines: Vec<String>,
) -> Result<Ending, NoMemory>
    requires { key.now.lms ≡ 6 }
    ensures { (x : Subject) → IsCase x key.now (disk_bytes disk.old) seal.now middle last → Says (map string_bytes lines.items) (first_lines x)
        → IfOk result (Ends (λ e. (first : Answer) × IsExport (journal x) 1 (middle_of x) first × FirstEnds x first e)) }
{
    let mut lines = lines;
    let found = segment(alloc, disk, 1, middle)?;
    let Some(bytes) = found else {
        return Ok(Ending { lines, status: 2 });
    };
    let verdict = audit(
        alloc,
        &key.public(),
        &bytes,
        auths_for(seal, last, 1, middle),
    )?;
    add(&mut lines, segment_line(alloc, 1, verdict))?;
    judge_second(alloc, key, disk, seal, middle, last, &bytes, lines)
}

/// The first two lines.
fn begun(
    alloc: Global,
    seed: u64,
    last: u64,
    snaps: u64,
    used: u64,
    steps: u64,
) -> Result<Vec<String>, NoMemory>
    ensures { IfOk result (λ v. Says (map string_bytes v.items) (seed_text seed ∷ numbers_text last snaps used steps ∷ [])) }
{
    let mut lines = Vec::new(alloc);
    add(&mut lines, seed_line(alloc, seed))?;
    add(&mut lines, numbers_line(alloc, last, snaps, used, steps))?;
    Ok(lines)
}

/// Whether these are the numbers of a whole conversation: how many SNAP entries there are, and how many leaves are used.
fn are_full(snaps: u64, used: u64) -> bool
    ensures { result ≡ (snaps == 3 && used == 301) }
{
    snaps == 3 && used == 301
}

/// Judges what the run of a sample has left: the first node, whose key this is.
pub fn judge(alloc: Global, seed: u64, key: &KeyFile, node: Node) -> Result<Ending, NoMemory>
    requires key { key_data key.now ≡ own_key seed }
    requires running { stop_of node.recorder ≡ None }
    ensures { (last : Run) → IsLeft node last → IfOk result (Ends (JudgedTo (record { seed = seed; last = last }))) }
{
    let Node {
        recorder,
        disk,
        outlet,
        ..
    } = node;
    let mut disk = disk;
    let numbers = read_numbers(alloc, &mut disk)?;
    let last = recorder.last();
    let used = recorder.bound();
    let lines = begun(
        alloc,
        seed,
        last,
        numbers.snaps,
        used,
        recorder.machine().count(),
    )?;
    if !are_full(numbers.snaps, used) {
        return Ok(Ending { lines, status: 2 });
    }
    let Ok(key) = LmsKey::make(alloc, key.lms, key.ots, key.id, key.seed) else {
        return Err(NoMemory);
    };
    let seal = seal_of(&outlet);
    judge_first(alloc, &key, &mut disk, seal, numbers.first, last, lines)
}
