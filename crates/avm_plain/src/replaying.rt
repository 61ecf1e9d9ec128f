//! The run of the machine over its inputs, and whether a log is a front of it.

ghost use Rattle.std.specs.Prelude.{◌≡◌, ◌≤◌, ◌++◌, ◌∷◌, [], IfOk, IsTrue, ◌↔◌, map, drop, length};
ghost use Rattle.avm_model.specs.Rerun.{rerun as rerun_lem, NotTaken, Replays};
ghost use Rattle.avm_model.specs.Timed.{takes, inputs as inputs_lem, last_count as last_count_lem};
ghost use Rattle.avm_plain.specs.Step.{output_of};
ghost use Rattle.avm_plain.specs.Replay.{plain, given_of, entry_of, entries_in, stamped as stamped_lem};
ghost use Rattle.avm_plain.specs.Part.{Advancing, Opens};

use crate::entries::{Entry, Given, Made, same_entry};
use crate::state::{Output, State, Stepped, can_step};
use crate::stepping::step;
use crate::taking::{refusal, take};
use std::alloc::{AllocError, Global};

/// A part of a run: its entries, the state after it, and how many inputs it took.
#[derive(Drop)]
pub struct Part {
    pub entries: Vec<Entry>,
    pub state: State,
    pub took: usize,
}

/// The state after an input, where it has the state's count and is not refused.
#[tactic(auto, unfolding(crate::specs::Replay::take_of))]
fn taken(alloc: Global, state: &State, given: &Given) -> Result<Option<State>, AllocError>
    ensures { IfOk result (λ t. t ≡ takes plain state.now (given_of given.now)) }
{
    if given.count != state.count || refusal(state, &given.input).is_some() {
        return Ok(None);
    }
    Ok(Some(take(alloc, state, &given.input)?))
}

/// The outputs of a step as entries, with the count after it.
fn stamped(alloc: Global, count: u64, outs: Vec<Output>) -> Result<Vec<Entry>, AllocError>
    ensures { IfOk result (λ v. map entry_of v.items ≡ stamped_lem count (map output_of outs.items)) }
{
    let mut entries = Vec::new(alloc);
    for output in outs {
        entries.push(Entry::Output(Made { count, output }))?;
    }
    Ok(entries)
}

/// Rules 2 and 3: below `end` a step is made where the state can make one, and its outputs come next; else the run ends.
fn advance_step(
    alloc: Global,
    state: &State,
    inputs: &[Given],
    end: u64,
) -> Result<Option<Part>, AllocError>
    requires { NotTaken plain state.now (map given_of inputs.now) }
    ensures { IfOk result (λ p. Advancing state.now (map given_of inputs.now) end p) }
{
    if state.count >= end || !can_step(state) {
        return Ok(None);
    }
    let Stepped { state: next, outs } = step(alloc, state)?;
    let entries = stamped(alloc, next.count, outs)?;
    Ok(Some(Part {
        entries,
        state: next,
        took: 0,
    }))
}

fn one_entry(alloc: Global, entry: Entry) -> Result<Vec<Entry>, AllocError>
    ensures { IfOk result (λ v. v.items ≡ entry ∷ []) }
{
    let mut entries = Vec::new(alloc);
    entries.push(entry)?;
    Ok(entries)
}

/// Rule 1: the next input is taken where it can be; else the other rules apply.
fn advance(
    alloc: Global,
    state: &State,
    inputs: &[Given],
    end: u64,
) -> Result<Option<Part>, AllocError>
    ensures { IfOk result (λ p. Advancing state.now (map given_of inputs.now) end p) }
{
    let Some((first, _)) = inputs.split_first() else {
        return advance_step(alloc, state, inputs, end);
    };
    let Some(next) = taken(alloc, state, first)? else {
        return advance_step(alloc, state, inputs, end);
    };
    Ok(Some(Part {
        entries: one_entry(alloc, Entry::Input(first.copy(alloc)?))?,
        state: next,
        took: 1,
    }))
}

/// The inputs behind the first `n`.
fn behind(inputs: &[Given], n: usize) -> &[Given]
    requires inside { n ≤ length inputs.now }
    requires few { n ≤ 1 }
    ensures { result.now ≡ drop n inputs.now }
{
    &inputs[n..]
}

/// The entries of the run from the state over the inputs, while the count is below `end`.
pub fn rerun(
    alloc: Global,
    state: &State,
    inputs: &[Given],
    end: u64,
) -> Result<Vec<Entry>, AllocError>
    ensures { IfOk result (λ v. map entry_of v.items ≡ entries_in (rerun_lem plain state.now (map given_of inputs.now) end)) }
{
    let mut state = state.copy(alloc)?;
    let mut rest = inputs;
    let mut entries = Vec::new(alloc);
    while let Some(part) = advance(alloc, &state, rest, end)? {
        let Part {
            entries: mut more,
            state: next,
            took,
        } = part;
        entries.append(&mut more)?;
        rest = behind(rest, took);
        state = next;
    }
    Ok(entries)
}

/// The inputs among the entries, in order.
fn inputs(alloc: Global, entries: &[Entry]) -> Result<Vec<Given>, AllocError>
    ensures { IfOk result (λ v. map given_of v.items ≡ inputs_lem (map entry_of entries.now)) }
{
    let mut inputs = Vec::new(alloc);
    for entry in entries {
        if let Entry::Input(given) = entry {
            inputs.push(given.copy(alloc)?)?;
        }
    }
    Ok(inputs)
}

/// The count of the last entry, or 0 where there is none.
fn last_count(entries: &[Entry]) -> u64
    ensures { result ≡ last_count_lem plain 0 (map entry_of entries.now) }
{
    let mut count = 0;
    for entry in entries {
        count = match entry {
            Entry::Input(given) => given.count,
            Entry::Output(made) => made.count,
        };
    }
    count
}

/// Whether the entries are the first of a run's.
pub fn is_front(entries: &[Entry], run: &[Entry]) -> bool
    ensures { IsTrue result ↔ Opens (map entry_of entries.now) (map entry_of run.now) }
{
    for (i, entry) in entries.iter().enumerate() {
        if i >= run.len() || !same_entry(entry, &run[i]) {
            return false;
        }
    }
    true
}

/// Whether the entries replay from the state: they are the first of the run over their own inputs.
pub fn replays(alloc: Global, state: &State, entries: &[Entry]) -> Result<bool, AllocError>
    ensures { IfOk result (λ b. IsTrue b ↔ Replays plain state.now (map entry_of entries.now)) }
{
    let inputs = inputs(alloc, entries)?;
    let run = rerun(alloc, state, inputs.as_slice(), last_count(entries))?;
    Ok(is_front(entries, run.as_slice()))
}
