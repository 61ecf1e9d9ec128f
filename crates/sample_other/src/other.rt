//! The other node: what it says to what it hears.

ghost use Rattle.std.specs.Prelude.{◌≡◌, ◌≤◌, ◌<◌, ◌∷◌, [], length, IfOk, OnOk};
ghost use Rattle.avm_model.specs.Keys.{HasTypes, public_of};
ghost use Rattle.avm_outside.specs.Feed.{console, packet, timed};
ghost use Rattle.lms_signer.specs.Views.{key_data};
ghost use Rattle.sample_model.specs.Other.{hear, message, next_said, receipt};
ghost use Rattle.sample_parts.specs.PeerLog.{new_log};
ghost use Rattle.sample_other.specs.Saying.{Adds, IsWithin, SaidAs};

use avm_num::NoMemory;
use avm_outside::{Due, ListFeed};
use lms_signer::KeyFile;
use log_entry::is_data;
use rand_chacha::ChaCha20Rng;
use sample_parts::{Peer, draw_message};
use std::alloc::Global;
use std::marker::Model;

/// How many messages it sends.
const MESSAGES: u64 = 150;

/// The other node, with the generator behind the messages that it has drawn, and how many answers it has received.
#[derive(Drop)]
pub struct Other {
    alloc: Global,
    peer: Peer,
    words: ChaCha20Rng,
    answers: u64,
}

impl Model for Other {
    ghost use Rattle.sample_model.specs.Other.{Side};

    ghost Value = { Side };

    ghost view = { λ o. record { log = o.peer.log; words = o.words; answers = o.answers } };
}

/// Adds a packet that is due at once.
fn push_packet(feed: &mut ListFeed, bytes: &[u8]) -> Result<(), NoMemory>
    requires some { 0 < length bytes.now }
    requires few { length bytes.now ≤ 20000 }
    ensures added { OnOk result (Adds (timed 0 (packet bytes.now) ∷ []) feed.old feed.new) }
{
    feed.push(0, Due::Packet(bytes.len()), bytes)
}

/// Adds console input that is due at once.
fn push_console(feed: &mut ListFeed, bytes: &[u8]) -> Result<(), NoMemory>
    requires some { 0 < length bytes.now }
    requires few { length bytes.now ≤ 256 }
    ensures added { OnOk result (Adds (timed 0 (console bytes.now) ∷ []) feed.old feed.new) }
{
    feed.push(0, Due::Console(bytes.len()), bytes)
}

impl Other {
    /// The node of a key, whose messages are drawn from here on.
    pub fn new(alloc: Global, key: &KeyFile, words: ChaCha20Rng) -> Result<Other, NoMemory>
        requires { HasTypes (key_data key.now) }
        ensures { IfOk result (λ o. o ≡ record { log = new_log (key_data key.now); words = words; answers = 0 }) }
    {
        let peer = Peer::new(alloc, key)?;
        Ok(Other {
            alloc,
            peer,
            words,
            answers: 0,
        })
    }

    /// Sends the message of a number.
    fn send(&mut self, number: u64, feed: &mut ListFeed) -> Result<(), NoMemory>
        requires { IsWithin 2 self.old }
        ensures said { OnOk result (SaidAs (message self.old number) self.new feed.old feed.new) }
        ensures within { OnOk result (IsWithin 1 self.new) }
    {
        let Ok(payload) = draw_message(self.alloc, &mut self.words) else {
            return Err(NoMemory);
        };
        self.peer.send(number, &payload);
        push_packet(feed, self.peer.packet())
    }

    /// Sends its next message; behind the answer to the last one it halts the first node.
    pub fn say_next(&mut self, feed: &mut ListFeed) -> Result<(), NoMemory>
        requires { IsWithin 2 self.old }
        ensures said { OnOk result (SaidAs (next_said self.old) self.new feed.old feed.new) }
        ensures within { OnOk result (IsWithin 1 self.new) }
    {
        if self.answers < MESSAGES {
            return self.send(self.answers + 1, feed);
        }
        push_console(feed, &[4])
    }

    /// Acknowledges an answer, and greets behind each tenth.
    fn acknowledge(&mut self, answer: &[u8], feed: &mut ListFeed) -> Result<(), NoMemory>
        requires within { IsWithin 1 self.old }
        requires more { self.old.answers < 150 }
        requires few { length answer.now ≤ 10421 }
        ensures said { OnOk result (SaidAs (receipt self.old answer.now) self.new feed.old feed.new) }
        ensures within { OnOk result (IsWithin 2 self.new) }
    {
        self.peer.answer(answer);
        self.answers += 1;
        push_packet(feed, self.peer.packet())?;
        if self.answers % 10 == 0 {
            push_console(feed, b"ok\n")?;
        }
        Ok(())
    }

    /// Hears a packet: up to the answer of its last message it acknowledges each message, and goes on.
    pub fn hear(&mut self, bytes: &[u8], feed: &mut ListFeed) -> Result<(), NoMemory>
        requires { IsWithin 1 self.old }
        ensures said { OnOk result (SaidAs (hear self.old bytes.now) self.new feed.old feed.new) }
        ensures within { OnOk result (IsWithin 1 self.new) }
    {
        if self.answers >= MESSAGES || !is_data(bytes) {
            return Ok(());
        }
        self.acknowledge(bytes, feed)?;
        self.say_next(feed)
    }

    /// Its public key.
    pub fn public(&self) -> [u8; 56]
        ensures { result ≡ public_of self.now.log.key }
    {
        self.peer.public()
    }
}
