//! The whole run.

ghost use Rattle.std.specs.Prelude.{◌≡◌, None, IfOk, OnOk};
ghost use Rattle.record_model.specs.Recorded.{Run};
ghost use Rattle.recorder.specs.Recorder.{desk_of, stop_of};
ghost use Rattle.sample_model.specs.Talk.{Talk as TalkOf};
ghost use Rattle.sample_node.specs.Node.{IsNode, SealEnds, sender_in};
ghost use Rattle.sample_talk.specs.Talking.{IsTalk};
ghost use Rattle.sample_run.specs.Running.{Converses, IsSampled};

use crate::opening::open;
use avm_num::NoMemory;
use lms_signer::KeyFile;
use sample_node::{Node, Progress};
use sample_other::Other;
use sample_parts::{draw_image, draw_key, generator};
use sample_talk::Talk;
use std::alloc::Global;

/// How many clock values a u64 has: the k-th is 1000 times k.
const MOST_CLOCKS: u64 = u64::MAX / 1000;

/// What a run has left: the first node, and its key.
#[derive(Drop)]
pub struct Sampled {
    pub node: Node,
    pub key: KeyFile,
}

/// Seals a run that has ended.
fn finish(node: &mut Node) -> Result<(), NoMemory>
    requires { (r : Run) × IsNode node.old r }
    ensures ends { (r : Run) → IsNode node.old r → SealEnds (sender_in node.old) node.new r result }
    ensures key { (desk_of node.new.recorder).press.key ≡ (desk_of node.old.recorder).press.key }
    ensures running { OnOk result (stop_of node.new.recorder ≡ None) }
{
    if node.seal()? {
        return Ok(());
    }
    Err(NoMemory)
}

/// Exchanges until the run has ended, and then a seal. A run that is stopped where a batch can't be saved leaves a disk whose reading
/// no clause tells, so nothing is told of it.
fn converse(talk: &mut Talk) -> Result<(), NoMemory>
    requires { (m : TalkOf) × IsTalk 1 talk.old m }
    ensures { (m : TalkOf) → IsTalk 1 talk.old m → OnOk result (Converses (sender_in talk.old.node) m talk.new) }
{
    let mut k = 1;
    'talks: while k < MOST_CLOCKS {
        let next = k + 1;
        match talk.exchange(next)? {
            Progress::GoesOn => k = next,
            Progress::Ended => return finish(&mut talk.node),
            Progress::Stopped => return Err(NoMemory),
        }
    }
    Err(NoMemory)
}

/// The run of a sample.
pub fn run(alloc: Global, seed: u64) -> Result<Sampled, NoMemory>
    ensures { IfOk result (IsSampled seed) }
{
    let mut words = generator(seed);
    let Ok(key) = draw_key(alloc, &mut words) else {
        return Err(NoMemory);
    };
    let Ok(peer) = draw_key(alloc, &mut words) else {
        return Err(NoMemory);
    };
    let Ok(image) = draw_image(alloc, &mut words) else {
        return Err(NoMemory);
    };
    let other = Other::new(alloc, &peer, words)?;
    let mut talk = open(alloc, &key, other, &image)?;
    converse(&mut talk)?;
    Ok(Sampled {
        node: talk.node,
        key,
    })
}
