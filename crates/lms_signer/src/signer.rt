ghost use Rattle.std.specs.Prelude.{◌≡◌, ◌≤◌, ◌<◌, ◌+◌, ◌^◌, true, length, IfOk};
ghost use Rattle.avm_num.specs.Room.{with_bytes, left};
ghost use Rattle.avm_model.specs.Auth.{signed_text_of};
ghost use Rattle.avm_model.specs.Keys.{HasTypes, public_of};
ghost use Rattle.avm_model.specs.LmsTypes.{height_of};
ghost use Rattle.avm_model.specs.LmsValid.{valid};
ghost use Rattle.jrnl_store.specs.Kept.{ticket_view};
ghost use Rattle.lms_signer.specs.Signing.{ticket_signature};
ghost use Rattle.lms_signer.specs.Views.{key_data};

use crate::KeyFile;
use avm_auth::signed_text;
use avm_num::{NoMemory, Room};
use jrnl_store::Ticket;
use lms_tree::LmsKey;
use std::alloc::Global;
use std::marker::Model;

/// A private key that signs, seen as its data. It keeps all nodes of its tree.
#[derive(Drop)]
pub struct Signer {
    key: LmsKey,
}

impl Model for Signer {
    ghost use Rattle.avm_model.specs.Keys.{KeyData};

    ghost Value = { KeyData };

    ghost view = { λ s. s.key };
}

impl Signer {
    /// The signer of a key with the types of a private key file. It takes memory for all nodes of the tree, which it computes.
    pub fn new(alloc: Global, key: KeyFile) -> Result<Signer, NoMemory>
        requires { HasTypes (key_data key) }
        ensures { IfOk result (λ s. s ≡ key_data key) }
    {
        match LmsKey::make(alloc, key.lms, key.ots, key.id, key.seed) {
            Ok(key) => Ok(Signer { key }),
            Err(_) => Err(NoMemory),
        }
    }

    /// The public key (RFC 8554, section 5.3).
    pub fn public(&self) -> [u8; 56]
        ensures { result ≡ public_of self.now }
    {
        self.key.public()
    }

    /// Appends the signature of a ticket's number and hash at the ticket's leaf (docs/FORMATS.md, "Authenticators"): the same
    /// bytes each time, since the private key alone decides them, and valid under the public key. It needs a leaf of the key,
    /// and room for the longest signature.
    pub fn sign(&self, ticket: &Ticket, out: &mut Room)
        requires leaf { (ticket_view ticket.now).leaf < 2 ^ height_of self.now.lms }
        requires room { 9324 ≤ left out.old }
        ensures value { out.new ≡ with_bytes out.old (ticket_signature self.now (ticket_view ticket.now)) }
        ensures short { length (ticket_signature self.now (ticket_view ticket.now)) ≤ 9324 }
        ensures valid { valid (public_of self.now) (signed_text_of (ticket_view ticket.now).seq (ticket_view ticket.now).hash) (ticket_signature self.now (ticket_view ticket.now)) ≡ true }
    {
        self.key.signature_len();
        let text = signed_text(ticket.seq(), &ticket.hash());
        self.key.sign(ticket.leaf(), &text, out);
    }
}
