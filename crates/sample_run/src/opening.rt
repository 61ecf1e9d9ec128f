//! Both nodes before their first exchange.

ghost use Rattle.std.specs.Prelude.{◌≡◌, ◌∷◌, [], None, IfOk, OnOk};
ghost use Rattle.avm_model.specs.Keys.{HasTypes};
ghost use Rattle.avm_outside.specs.MemDisks.{disk_bytes};
ghost use Rattle.avm_outside.specs.MemFeed.{feed_agenda};
ghost use Rattle.journal_model.specs.Journal.{Is, JournalData, journal_of};
ghost use Rattle.lms_signer.specs.Views.{key_data};
ghost use Rattle.recorder.specs.Recorder.{desk_of};
ghost use Rattle.sample_model.specs.Other.{next_said};
ghost use Rattle.sample_model.specs.Talk.{agenda};
ghost use Rattle.sample_other.specs.Saying.{IsWithin};
ghost use Rattle.sample_run.specs.Opened.{IsOpen, OpensTalk};
ghost use Rattle.sample_run.specs.Stores.{inputs};

use crate::store::new_store;
use avm_num::NoMemory;
use avm_outside::{ListFeed, MemDisk, MemOutlet};
use lms_signer::{KeyFile, Signer};
use recorder::Recorder;
use sample_node::Node;
use sample_other::Other;
use sample_talk::Talk;
use std::alloc::Global;

/// The recorder of a store, with its key.
fn attach(alloc: Global, disk: &mut MemDisk, key: &KeyFile) -> Result<Recorder, NoMemory>
    requires { HasTypes (key_data key.now) }
    ensures opens { (j : JournalData) → journal_of (disk_bytes disk.old) ≡ Is j → IfOk result (IsOpen j disk.new) }
    ensures key { IfOk result (λ r. (desk_of r).press.key ≡ key_data key.now) }
{
    let signer = Signer::new(alloc, *key)?;
    match Recorder::attach(alloc, disk, signer) {
        Ok(recorder) => Ok(recorder),
        Err(_) => Err(NoMemory),
    }
}

/// The feed of the first node, with what the other one says first.
fn first_feed(alloc: Global, other: &mut Other) -> Result<ListFeed, NoMemory>
    requires { IsWithin 2 other.old }
    ensures agenda { IfOk result (λ f. feed_agenda f ≡ agenda (next_said other.old).events (1000 ∷ [])) }
    ensures side { OnOk result (other.new ≡ (next_said other.old).side) }
    ensures within { OnOk result (IsWithin 1 other.new) }
{
    let mut feed = ListFeed::new(alloc, Vec::new(alloc))?;
    feed.set_end(1 << 40);
    feed.push_clock(1000)?;
    other.say_next(&mut feed)?;
    Ok(feed)
}

/// Both nodes, the first with a new store of its key and its image.
pub fn open(alloc: Global, key: &KeyFile, other: Other, image: &[u8]) -> Result<Talk, NoMemory>
    requires key { HasTypes (key_data key.now) }
    requires within { IsWithin 2 other }
    ensures { IfOk result (λ t. OpensTalk (key_data key.now) other image.now t) }
{
    let mut other = other;
    let mut disk = new_store(alloc, key, &other.public(), image)?;
    let recorder = attach(alloc, &mut disk, key)?;
    let feed = first_feed(alloc, &mut other)?;
    let outlet = MemOutlet::new(alloc, Vec::new(alloc))?;
    Ok(Talk {
        node: Node {
            recorder,
            disk,
            feed,
            outlet,
        },
        other,
        heard: 0,
    })
}
