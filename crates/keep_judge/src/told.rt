//! What an entry tells of the state behind it.

ghost use Rattle.std.specs.Prelude.{◌≡◌, option_map};
ghost use Rattle.avm_model.specs.Content.{content_at};
ghost use Rattle.keep_judge.specs.Good.{told_in, told_view};

use log_entry::{Content, Frame, content};

/// A count and the root of the state there.
#[derive(Clone, Copy)]
pub struct Told {
    pub count: u64,
    pub root: [u8; 32],
}

/// The count and the root of a BOOT or a SNAP.
pub fn told_by(frame: &Frame<'_>) -> Option<Told>
    ensures { option_map told_view result ≡ told_in (content_at frame.now.kind frame.now.content.now) }
{
    match content(frame) {
        Some(Content::Boot { count, root }) => Some(Told { count, root }),
        Some(Content::Snap { count, root }) => Some(Told { count, root }),
        _ => None,
    }
}
