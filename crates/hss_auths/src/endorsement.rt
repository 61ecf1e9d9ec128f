// An endorsement: a bottom key, and the top key's signature of it.
ghost use Rattle.std.specs.Prelude.{◌≡◌, ◌≤◌, length, option_map, IfSome};
ghost use Rattle.std.specs.Str.{bytes_eq};
ghost use Rattle.avm_num.specs.Walk.{is_nil};
ghost use Rattle.hss_model.specs.HssFile.{endorsement_of, endorsement_mark};
ghost use Rattle.hss_auths.specs.Views.{endorsement_view};

use avm_num::View;

/// The top key's signature of a bottom key, and that key.
#[derive(Clone, Copy)]
pub struct Endorsement<'a> {
    pub upper: &'a [u8],
    pub bottom: &'a [u8],
}

fn is_mark(bytes: &[u8]) -> bool
    ensures { result ≡ bytes_eq bytes.now endorsement_mark }
{
    bytes[..] == [65, 86, 77, 78]
}

fn is_empty(view: &View<'_>) -> bool
    ensures { result ≡ is_nil view.now }
{
    view.rest().is_empty()
}

/// The endorsement that the bytes are, or none.
#[tactic(auto, unfolding(hss_model::specs::HssFile::endorsement_of, avm_model::specs::Parts::signature_at))]
pub fn read_endorsement<'a>(bytes: &'a [u8]) -> Option<Endorsement<'a>>
    ensures exact { option_map endorsement_view result ≡ endorsement_of bytes.now }
    ensures fits { IfSome result (λ e. (length e.upper.now ≤ 9324) × (length e.bottom.now ≡ 56)) }
{
    let mut view = View::new(bytes);
    let mark = view.take(4)?;
    let len = view.take_u32()?;
    let upper = view.take(len as usize)?;
    if upper.len() > 9324 {
        return None;
    }
    let bottom = view.take(56)?;
    if !is_mark(mark) {
        return None;
    }
    if !is_empty(&view) {
        return None;
    }
    Some(Endorsement { upper, bottom })
}
