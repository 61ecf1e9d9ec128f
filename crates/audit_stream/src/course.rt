//! The snapshot, and the replay of the entries behind the first.

ghost use Rattle.std.specs.Prelude.{◌≡◌, ◌++◌, ◌∷◌, [], ◌*◌, ◌<◌, List, ℕ, Some, None, IsSome, length};
ghost use Rattle.avm_model.specs.Content.{content_at};
ghost use Rattle.avm_model.specs.Frame.{FrameData};
ghost use Rattle.avm_model.specs.Head.{HeadData};
ghost use Rattle.log_entry.specs.Views.{frame_view};
ghost use Rattle.audit_stream.specs.Judged.{Judged};
ghost use Rattle.replayer.specs.Replaying.{Replaying};

use crate::loading::Loading;
use log_entry::Frame;
use replayer::Replay;

/// The snapshot until the first entry comes, and then the replay of those behind it.
#[derive(Drop)]
pub struct Course {
    pub loading: Option<Loading>,
    pub replay: Option<Replay>,
    pub committed: bool,
    pub fault: Option<u64>,
}

/// Judges the next entry: the number of the fault, if it is one.
fn judge(replay: &mut Option<Replay>, frame: &Frame<'_>) -> Option<u64>
    requires { IsSome (content_at frame.now.kind frame.now.content.now) }
    ensures { (r : Replaying) → replay.old ≡ Some r → r.fault ≡ None → Judged r (frame_view frame.now) result replay.new }
{
    match replay {
        Some(replay) => match replay.entry(frame) {
            Ok(()) => None,
            Err(fault) => Some(fault.seq),
        },
        None => None,
    }
}

impl Course {
    ghost use Rattle.audit_stream.specs.Course.{IsCourse};

    /// The first entry: it is compared with the snapshot, and the replay begins.
    fn begin(&mut self, frame: &Frame<'_>)
        ensures { IsSome self.old.loading → (h : HeadData) (pages : List ℕ) (fs : List FrameData) → length pages ≡ 4096 * h.front.pages → IsCourse self.old h pages fs
            → IsCourse self.new h pages (fs ++ frame_view frame.now ∷ []) }
    {
        let Some(loading) = self.loading.take() else {
            return;
        };
        let (replay, committed) = loading.begin(frame);
        self.replay = Some(replay);
        self.committed = committed;
    }

    /// One entry more.
    pub fn entry(&mut self, frame: &Frame<'_>)
        requires form { IsSome (content_at frame.now.kind frame.now.content.now) }
        ensures goes { (h : HeadData) (pages : List ℕ) (fs : List FrameData) → length pages ≡ 4096 * h.front.pages → IsCourse self.old h pages fs
            → IsCourse self.new h pages (fs ++ frame_view frame.now ∷ []) }
    {
        if self.loading.is_some() {
            self.begin(frame);
            return;
        }
        if self.fault.is_none() {
            self.fault = judge(&mut self.replay, frame);
        }
    }

    /// One page more.
    pub fn page(&mut self, i: u32, page: &[u8; 4096])
        ensures goes { (h : HeadData) (pages : List ℕ) → i < h.front.pages → length pages ≡ 4096 * i → IsCourse self.old h pages [] → IsCourse self.new h (pages ++ page.now) [] }
    {
        if let Some(loading) = &mut self.loading {
            loading.page(i, page);
        }
    }
}
