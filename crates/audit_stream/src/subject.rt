//! What is judged, once the head has come.

ghost use Rattle.std.specs.Prelude.{◌≡◌, ◌+◌, ◌*◌, ◌<◌, [], ℕ, List, IsSome, length};
ghost use Rattle.avm_model.specs.Content.{content_at};
ghost use Rattle.log_entry.specs.Views.{frame_view};
ghost use Rattle.seg_file.specs.Coming.{Coming, with_frame, with_page};

use crate::course::Course;
use crate::matching::Matching;
use log_entry::Frame;

/// What is kept of authenticators and of entries: the first number and the last, the first authenticator that doesn't
/// verify, the first double where all do, each one's mark, and the replay.
#[derive(Drop)]
pub struct Subject<'a> {
    pub first: u64,
    pub last: u64,
    pub bad: Option<u32>,
    pub double: Option<(u32, u32)>,
    pub matching: Matching<'a>,
    pub course: Course,
}

impl<'a> Subject<'a> {
    ghost use Rattle.audit_stream.specs.Subject.{IsSubject};

    /// One page more.
    pub fn page(&mut self, i: u32, page: &[u8; 4096])
        ensures { (key auths : List ℕ) (c : Coming) (is : IsSubject self.old key auths c) → i < is.head.front.pages → length c.pages ≡ 4096 * i → c.frames ≡ []
            → IsSubject self.new key auths (with_page c page.now) }
    {
        self.course.page(i, page);
    }

    /// One entry more.
    pub fn entry(&mut self, frame: &Frame<'_>)
        requires form { IsSome (content_at frame.now.kind frame.now.content.now) }
        ensures goes { (key auths : List ℕ) (c : Coming) (is : IsSubject self.old key auths c) → frame.now.seq ≡ is.front.start + length c.frames → length c.pages ≡ 4096 * is.head.front.pages
            → IsSubject self.new key auths (with_frame c (frame_view frame.now)) }
    {
        self.last = frame.seq;
        self.matching.entry(frame);
        self.course.entry(frame);
    }
}
