ghost use Rattle.std.specs.Prelude.{◌≡◌, ◌≤◌, length, option_map, IfSome, IfNone, List};
ghost use Rattle.std.specs.Iterator.{YieldsFirstBy, item_count};
ghost use Rattle.avm_num.specs.Walk.{items_of, behind_of, is_nil};
ghost use Rattle.avm_model.specs.Auth.{AuthData, auth_at, auths_at, IsAuths};
ghost use Rattle.avm_auth.specs.Views.{auth_view};

use crate::auth::{Auth, read_auth};
use avm_num::View;
use std::marker::Model;

/// The authenticators that stand one after another at the front of bytes.
#[derive(Drop)]
pub struct Auths<'a> {
    view: View<'a>,
}

impl<'a> Model for Auths<'a> {
    ghost use Rattle.std.specs.Prelude.{List};
    ghost use Rattle.avm_num.specs.Walk.{items_of};
    ghost use Rattle.avm_model.specs.Auth.{AuthData, auth_at};

    ghost Value = { List AuthData };

    ghost view = { λ a. items_of auth_at a.view };
}

impl<'a> Auths<'a> {
    fn new(bytes: &'a [u8]) -> Auths<'a>
        ensures { result ≡ items_of auth_at bytes.now }
    {
        Auths {
            view: View::new(bytes),
        }
    }

    /// The same authenticators from here on.
    pub fn again(&self) -> Auths<'a>
        ensures { result ≡ self.now }
    {
        Auths {
            view: View::new(self.view.rest()),
        }
    }
}

impl<'a> Iterator for Auths<'a> {
    type Item = Auth<'a>;

    ghost next_gives = { YieldsFirstBy auth_view (λ s. s) };

    ghost remaining = { item_count (λ s. s) };

    fn next(&mut self) -> Option<Auth<'a>> {
        read_auth(&mut self.view)
    }
}

/// Whether only authenticators stand in the bytes.
#[tactic(auto, using(crate::proofs::AuthLaws::auth_behind_none))]
fn are_auths(bytes: &[u8]) -> bool
    ensures { result ≡ is_nil (behind_of auth_at bytes.now) }
{
    let mut view = View::new(bytes);
    while let Some(_auth) = read_auth(&mut view) {}
    view.rest().is_empty()
}

/// The authenticators of a file, or none where it has anything else. A file has at most 2^24 bytes: its caller judges
/// that.
pub fn read_auths<'a>(bytes: &'a [u8]) -> Option<Auths<'a>>
    ensures found { IfSome result (λ a. IsAuths bytes.now a) }
    ensures none { IfNone result ((auths : List AuthData) → IsAuths bytes.now auths → ⊥) }
    ensures bound { IfSome result (λ a. length a ≤ length bytes.now) }
    ensures exact { option_map (λ a. a) result ≡ auths_at bytes.now }
{
    let _bytes = View::new(bytes).rest();
    if are_auths(bytes) {
        Some(Auths::new(bytes))
    } else {
        None
    }
}
