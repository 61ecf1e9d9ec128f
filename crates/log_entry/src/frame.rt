ghost use Rattle.std.specs.Prelude.{◌≡◌, ◌≤◌, ◌++◌, ℕ, List, length, IfSome, IfNone};
ghost use Rattle.avm_num.specs.Bytes.{Takes};
ghost use Rattle.avm_model.specs.Frame.{FrameData, FitsFrame, frame_at, frame_bytes};
ghost use Rattle.log_entry.specs.Limits.{longest_content};
ghost use Rattle.log_entry.specs.Views.{frame_view};

use crate::parts::take_ordinal;
use crate::reading::form;
use avm_num::View;

/// An entry as it stands in a log: its number, its kind and the bytes of its content.
#[derive(Clone, Copy)]
pub struct Frame<'a> {
    pub seq: u64,
    pub kind: u8,
    pub content: &'a [u8],
}

#[tactic(auto, unfolding(avm_model::specs::Frame::frame_at))]
fn next_frame<'a>(view: &mut View<'a>) -> Option<Frame<'a>>
    ensures { Takes frame_view result view.old view.new (frame_at view.old) }
{
    let mut rest = View::new(view.rest());
    let seq = take_ordinal(&mut rest)?;
    let kind = rest.take_u8()?;
    let len = rest.take_u32()?;
    let content = rest.take(len as usize)?;
    if form(kind, content).is_none() {
        return None;
    }
    *view = rest;
    Some(Frame { seq, kind, content })
}

/// The frame at the front, or none where no frame stands there; then the view is left as it was.
pub fn read_frame<'a>(view: &mut View<'a>) -> Option<Frame<'a>>
    ensures found { IfSome result (λ f. FitsFrame (frame_view f) × (view.old ≡ frame_bytes (frame_view f) ++ view.new)) }
    ensures none { IfNone result ((f : FrameData) (rest : List ℕ) → FitsFrame f → view.old ≡ frame_bytes f ++ rest → ⊥) }
    ensures left { IfNone result (view.new ≡ view.old) }
    ensures few { IfSome result (λ f. length f.content.now ≤ longest_content) }
    ensures exact { Takes frame_view result view.old view.new (frame_at view.old) }
{
    let _bytes = view.rest();
    next_frame(view)
}
