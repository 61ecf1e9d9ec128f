ghost use Rattle.std.specs.Prelude.{◌≡◌};
ghost use Rattle.std.specs.Iterator.{YieldsFirstBy, item_count};
ghost use Rattle.avm_num.specs.Bytes.{Takes};
ghost use Rattle.avm_model.specs.Frame.{frame_at, frames_of};
ghost use Rattle.log_entry.specs.Views.{frame_view};

use crate::frame::{Frame, read_frame};
use avm_num::View;
use std::marker::Model;

/// The frames that stand one after another at the front of bytes. It ends where no frame stands next.
#[derive(Drop)]
pub struct Frames<'a> {
    view: View<'a>,
}

impl<'a> Model for Frames<'a> {
    ghost use Rattle.std.specs.Prelude.{List, ℕ};

    ghost Value = { List ℕ };

    ghost view = { λ f. f.view };
}

impl<'a> Frames<'a> {
    /// The frames at the front of these bytes.
    pub fn new(bytes: &'a [u8]) -> Frames<'a>
        ensures { result ≡ bytes.now }
    {
        Frames {
            view: View::new(bytes),
        }
    }

    /// The bytes behind the frames given so far.
    pub fn rest(&self) -> &'a [u8]
        ensures { result.now ≡ self.now }
    {
        self.view.rest()
    }
}

impl<'a> Iterator for Frames<'a> {
    type Item = Frame<'a>;

    // What stands next is given, and the bytes behind it are left: so `rest` is known too.
    ghost next_gives = { λ s r t. YieldsFirstBy frame_view frames_of s r t × Takes frame_view r s t (frame_at s) };

    ghost remaining = { item_count frames_of };

    fn next(&mut self) -> Option<Frame<'a>> {
        read_frame(&mut self.view)
    }
}
