// Files by name.
ghost use Rattle.std.specs.Prelude.{◌≡◌, ◌≢◌, ◌⊎◌, ◌≤◌, ℕ, List, [], length, Option, option_map, IfOk, IfSome, OnOk, OnErr};
ghost use Rattle.avm_outside.specs.Outside.{Counts, BothTold};
ghost use Rattle.avm_outside.specs.Files.{Reads, appended, AppendsFront};

/// A call of the outside failed, and its object counted that.
#[derive(Clone, Copy, Debug, PartialEq, Eq)]
pub struct Failed;

/// A map from names to bytes.
pub trait Files {
    /// How often a call has failed. It doesn't fall, and stays at the last value of a u64.
    ghost faults: { Self → ℕ };

    /// The file of a name: `None` where the object doesn't tell, `Some None` where the name isn't there.
    ghost file: { Self → List ℕ → Option (Option (List ℕ)) };

    /// Copies bytes from a place of a file to the front of a buffer, and gives how many: for a buffer that isn't empty, 0
    /// exactly at the file's end or past it. None exactly where the name isn't there. Nothing is changed.
    fn read_at(&mut self, name: &str, at: u64, buf: &mut [u8]) -> Result<Option<usize>, Failed>
        ensures count { IfOk result (λ got. IfSome got (λ n. n ≤ length buf.old)) }
        ensures bytes { IfOk result (λ got. IfSome (file self.old name.now) (λ was. Reads was at buf.old buf.new got)) }
        ensures same { (n : List ℕ) → file self.new n ≡ file self.old n }
        ensures faults { Counts (faults self.old) (faults self.new) result };

    /// Makes the file of a name, or empties it. Where that fails the file is as it was, or empty.
    fn create(&mut self, name: &str) -> Result<(), Failed>
        ensures made { OnOk result (file self.new name.now ≡ option_map (λ _. Some []) (file self.old name.now)) }
        ensures failed { OnErr result ((file self.new name.now ≡ file self.old name.now) ⊎ (file self.new name.now ≡ option_map (λ _. Some []) (file self.old name.now))) }
        ensures others { (n : List ℕ) → n ≢ name.now → file self.new n ≡ file self.old n }
        ensures faults { Counts (faults self.old) (faults self.new) result };

    /// Adds bytes to the file of a name, and makes it if it isn't there. Where that fails a front of the bytes was added.
    fn append(&mut self, name: &str, bytes: &[u8]) -> Result<(), Failed>
        ensures added { OnOk result (file self.new name.now ≡ option_map (appended bytes.now) (file self.old name.now)) }
        ensures failed { OnErr result (BothTold (file self.old name.now) (file self.new name.now) (AppendsFront bytes.now)) }
        ensures others { (n : List ℕ) → n ≢ name.now → file self.new n ≡ file self.old n }
        ensures faults { Counts (faults self.old) (faults self.new) result };
}
