// A file of authenticators under two keys.
ghost use Rattle.std.specs.Prelude.{◌≡◌, ◌≤◌, length, option_map, IfSome};
ghost use Rattle.std.specs.Iterator.{YieldsFirstBy, item_count};
ghost use Rattle.avm_num.specs.Walk.{all_at, items_of, behind_of, is_nil};
ghost use Rattle.avm_auth.specs.Views.{auth_view};
ghost use Rattle.hss_model.specs.HssFile.{hss_auth_at};
ghost use Rattle.hss_auths.specs.Lengths.{size_with};

use crate::reading::read_hss_auth;
use avm_auth::Auth;
use avm_num::View;
use std::marker::Model;

/// The authenticators that stand one after another at the front of bytes.
#[derive(Drop)]
pub struct HssAuths<'a> {
    view: View<'a>,
}

impl<'a> Model for HssAuths<'a> {
    ghost use Rattle.std.specs.Prelude.{List};
    ghost use Rattle.avm_num.specs.Walk.{items_of};
    ghost use Rattle.avm_model.specs.Auth.{AuthData};
    ghost use Rattle.hss_model.specs.HssFile.{hss_auth_at};

    ghost Value = { List AuthData };

    ghost view = { λ a. items_of hss_auth_at a.view };
}

impl<'a> HssAuths<'a> {
    fn new(bytes: &'a [u8]) -> HssAuths<'a>
        ensures { result ≡ items_of hss_auth_at bytes.now }
    {
        HssAuths {
            view: View::new(bytes),
        }
    }

    /// The same authenticators from here on.
    pub fn again(&self) -> HssAuths<'a>
        ensures { result ≡ self.now }
    {
        HssAuths {
            view: View::new(self.view.rest()),
        }
    }
}

impl<'a> Iterator for HssAuths<'a> {
    type Item = Auth<'a>;

    ghost next_gives = { YieldsFirstBy auth_view (λ s. s) };

    ghost remaining = { item_count (λ s. s) };

    fn next(&mut self) -> Option<Auth<'a>> {
        read_hss_auth(&mut self.view)
    }
}

/// Whether only authenticators stand in the bytes.
#[tactic(auto, using(crate::proofs::HssAuthLaws::auth_behind_none))]
fn are_auths(bytes: &[u8]) -> bool
    ensures { result ≡ is_nil (behind_of hss_auth_at bytes.now) }
{
    let mut view = View::new(bytes);
    while let Some(_auth) = read_hss_auth(&mut view) {}
    view.rest().is_empty()
}

/// The authenticators of a file, or none where it has anything else.
pub fn read_hss_auths<'a>(bytes: &'a [u8]) -> Option<HssAuths<'a>>
    ensures exact { option_map (λ a. a) result ≡ all_at hss_auth_at bytes.now }
    ensures sized { IfSome result (λ a. size_with 0 a ≡ length bytes.now) }
{
    let _bytes = View::new(bytes).rest();
    if are_auths(bytes) {
        Some(HssAuths::new(bytes))
    } else {
        None
    }
}
