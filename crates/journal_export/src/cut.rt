//! Which of a journal's entries belong to a segment.

ghost use Rattle.std.specs.Prelude.{◌≡◌, ◌==◌, ◌&&◌, not, [], List, ℕ};
ghost use Rattle.avm_model.specs.Frame.{FrameData};
ghost use Rattle.journal_export.specs.Cuts.{Cuts, IsCut};

/// The entries of the numbers `from` to `to`: whether the first has come, and one behind the last.
#[derive(Clone, Copy)]
pub struct Cut {
    pub from: u64,
    pub to: u64,
    pub begun: bool,
    pub past: bool,
}

impl Cut {
    /// In front of a journal's first entry.
    pub fn new(from: u64, to: u64) -> Cut
        ensures from { result.from ≡ from }
        ensures to { result.to ≡ to }
        ensures cut { (h : List ℕ) → IsCut h [] result }
    {
        Cut {
            from,
            to,
            begun: false,
            past: false,
        }
    }

    /// Whether an entry of this number stands in front of the first.
    fn is_before(&self, seq: u64) -> bool
        ensures { result ≡ (not self.now.begun && not (seq == self.now.from)) }
    {
        !self.begun && seq != self.from
    }

    /// Whether the next entry is one of them, by its number.
    pub fn takes(&mut self, seq: u64) -> bool
        ensures { (f : FrameData) → f.seq ≡ seq → Cuts self.old f result self.new }
    {
        if self.past {
            return false;
        }
        let early = self.is_before(seq);
        if early {
            return false;
        }
        self.begun = true;
        if seq > self.to {
            self.past = true;
            return false;
        }
        true
    }
}
