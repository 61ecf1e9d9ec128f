// The stated disk: one sequence of bytes, of which a crash leaves what the last sync made durable, and anything in the
// ranges that were written since.
ghost use Rattle.std.specs.Prelude.{◌≡◌, ◌+◌, ◌-◌, ◌^◌, ◌≤◌, ℕ, List, ◌++◌, length, take, drop, min, Option, option_map, IfOk, IfSome, OnOk, OnErr};
ghost use Rattle.avm_num.specs.Bytes.{IsBytes};
ghost use Rattle.avm_outside.specs.Outside.{Counts, BothTold};
ghost use Rattle.avm_outside.specs.Disk.{Torn, Follows, Only, Elapses, overwritten};

use crate::Failed;

/// One sequence of bytes.
pub trait Disk {
    /// How often a call has failed. It doesn't fall, and stays at the last value of a u64.
    ghost faults: { Self → ℕ };

    /// The bytes that a read gives, where the object tells them.
    ghost seen: { Self → Option (List ℕ) };

    /// What a crash at this moment may leave.
    ghost may_leave: { Self → List ℕ → Type 0 };

    /// The moment, as a number that doesn't fall.
    ghost moment: { Self → ℕ };

    /// What a crash at some moment from that one on might have left, during a call or between two.
    ghost left_since: { Self → ℕ → List ℕ → Type 0 };

    /// How many bytes there are.
    fn len(&mut self) -> Result<u64, Failed>
        ensures len { IfOk result (λ n. IfSome (seen self.old) (λ was. n ≡ length was)) }
        ensures same { seen self.new ≡ seen self.old }
        ensures crash { (c : List ℕ) → may_leave self.new c → may_leave self.old c }
        ensures time { Elapses (moment self.old) (moment self.new) (left_since self.old) (left_since self.new) (may_leave self.new) }
        ensures faults { Counts (faults self.old) (faults self.new) result };

    /// Copies as many bytes as stand there, up to the buffer, and gives how many.
    fn read_at(&mut self, at: u64, buf: &mut [u8]) -> Result<usize, Failed>
        ensures count { IfOk result (λ n. n ≤ length buf.old) }
        ensures bytes { IfOk result (λ n. IfSome (seen self.old) (λ was. (n ≡ min (length buf.old) (length was - at)) × (buf.new ≡ take n (drop at was) ++ drop n buf.old))) }
        ensures same { seen self.new ≡ seen self.old }
        ensures crash { (c : List ℕ) → may_leave self.new c → may_leave self.old c }
        ensures time { Elapses (moment self.old) (moment self.new) (left_since self.old) (left_since self.new) (may_leave self.new) }
        ensures faults { Counts (faults self.old) (faults self.new) result };

    /// Writes over what is there, and past the end. Until a sync a crash may leave any bytes in the range, and after a
    /// write that failed a read may give any.
    fn write_at(&mut self, at: u64, bytes: &[u8]) -> Result<(), Failed>
        requires fits { at + length bytes.now ≤ 2 ^ 31 }
        requires within { IfSome (seen self.old) (λ was. at ≤ length was) }
        ensures written { OnOk result (seen self.new ≡ option_map (overwritten at bytes.now) (seen self.old)) }
        ensures failed { OnErr result (BothTold (seen self.old) (seen self.new) (Torn at (length bytes.now))) }
        ensures crash { Follows (Torn at (length bytes.now)) (may_leave self.old) (may_leave self.new) }
        ensures time { Elapses (moment self.old) (moment self.new) (left_since self.old) (left_since self.new) (may_leave self.new) }
        ensures faults { Counts (faults self.old) (faults self.new) result };

    /// Makes durable what is there: after it a crash leaves what a read gives.
    fn sync(&mut self) -> Result<(), Failed>
        ensures durable { OnOk result (IfSome (seen self.old) (λ was. Only was (may_leave self.new))) }
        ensures same { seen self.new ≡ seen self.old }
        ensures crash { (c : List ℕ) → may_leave self.new c → may_leave self.old c }
        ensures time { Elapses (moment self.old) (moment self.new) (left_since self.old) (left_since self.new) (may_leave self.new) }
        ensures faults { Counts (faults self.old) (faults self.new) result };

    /// This moment is one of those since an earlier one.
    ghost counts_now: { (disk : Self) (t : ℕ) (c : List ℕ) → t ≤ moment disk → may_leave disk c → left_since disk t c };

    /// Since this moment there is no other.
    ghost only_now: { (disk : Self) (c : List ℕ) → left_since disk (moment disk) c → may_leave disk c };

    /// What it tells are bytes.
    ghost tells_bytes: { (disk : Self) → IfSome (seen disk) IsBytes };
}
