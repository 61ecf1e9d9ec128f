//! What the definitions of replay say, as the contracts of functions that do nothing. They hold for every machine that
//! is given as functions: `S` is its state, `I` an input and `O` an output.

ghost use Rattle.std.specs.Prelude.{◌≡◌, ℕ, ◌<◌, ◌≤◌, ◌⊎◌, ◌∷◌, ◌++◌, ◌+◌, ◌%◌, [], List, length, map, Option, Some, None};
ghost use Rattle.avm_model.specs.Timed.{Timed, IsTimed, Entry, given, made, takes};
ghost use Rattle.avm_model.specs.Rerun.{Stand, Stands, start, rerun, outputs, moved, NotTaken, Replays, IsFirstFault, IsFault};
ghost use Rattle.avm_model.specs.Judge.{judge, judge_all, settle};
ghost use Rattle.avm_model.specs.Device.{DeviceState, device_load, device_store};
ghost use Rattle.avm_model.specs.Exec.{NotMapped};
ghost use Rattle.avm_model.specs.Input.{InputState, Clock, Take};
ghost use Rattle.avm_model.specs.Machine.{State};
ghost use Rattle.avm_model.specs.Reference.{Made, timed};

/// A run: a next input that has the state's count and isn't refused is taken and is the next entry; else, where the
/// state can step and its count is below the end, a step is made and its outputs are the next entries; else the run
/// ends.
pub fn run_by_rules<S, I, O>()
    ensures input { (m : Timed S I O) → IsTimed m → (s t : S) (i : I) (is : List I) (n : ℕ) → takes m s i ≡ Some t → rerun m s (i ∷ is) n ≡ record { entry = given i; state = t; lacking = [] } ∷ rerun m t is n }
    ensures step { (m : Timed S I O) → IsTimed m → (s t : S) (os : List O) (is : List I) (n : ℕ) → NotTaken m s is → m.count s < n → m.step s ≡ Some (t, os) → rerun m s is n ≡ outputs t os ++ rerun m t is n }
    ensures end { (m : Timed S I O) (s : S) (is : List I) (n : ℕ) → NotTaken m s is → ((n ≤ m.count s) ⊎ (m.step s ≡ None)) → rerun m s is n ≡ [] }
{}

/// A front of what replays replays.
pub fn fronts_replay<S, I, O>()
    ensures { (m : Timed S I O) → IsTimed m → (s : S) (a b : List (Entry I O)) → Replays m s (a ++ b) → Replays m s a }
{}

/// Judging one entry at a time tells whether the entries replay, and where they stand.
pub fn judged_as_replayed<S, I, O>()
    ensures well { (m : Timed S I O) → IsTimed m → (s : S) (es : List (Entry I O)) (j : Stand S O) → judge_all m (start s) es ≡ Some j → Stands m s es j }
    ensures all { (m : Timed S I O) → IsTimed m → (s : S) (es : List (Entry I O)) (j : Stand S O) → Stands m s es j → judge_all m (start s) es ≡ Some j }
{}

/// The first entry that isn't judged well is the first fault, there is only one, and nothing behind it can mend it.
pub fn one_first_fault<S, I, O>()
    ensures found { (m : Timed S I O) → IsTimed m → (s : S) (before : List (Entry I O)) (e : Entry I O) (behind : List (Entry I O)) (j : Stand S O) → Stands m s before j → judge m j e ≡ None → IsFirstFault m s (before ++ e ∷ behind) (length before) }
    ensures one { (m : Timed S I O) → IsTimed m → (s : S) (es : List (Entry I O)) (a b : Option ℕ) → IsFault m s es a → IsFault m s es b → a ≡ b }
    ensures whole { (m : Timed S I O) → IsTimed m → (s : S) (es : List (Entry I O)) (k : ℕ) → IsFirstFault m s es k → Replays m s es → ⊥ }
{}

/// A log goes on with the outputs of a step, and with an input that is taken, also after steps without outputs.
pub fn recorded_replays<S, I, O>()
    ensures step { (m : Timed S I O) → IsTimed m → (s t u v : S) (es : List (Entry I O)) (k : ℕ) (o : O) (os : List O) → Stands m s es (start t) → moved m k t ≡ Some u → m.step u ≡ Some (v, o ∷ os) → Stands m s (es ++ map made (o ∷ os)) (start v) }
    ensures input { (m : Timed S I O) → IsTimed m → (s t u v : S) (es : List (Entry I O)) (k : ℕ) (i : I) → Stands m s es (start t) → moved m k t ≡ Some u → takes m u i ≡ Some v → Stands m s (es ++ given i ∷ []) (start v) }
{}

/// Where each step to a multiple of a number that steps keep has outputs, an entry costs at most that many steps.
pub fn entries_are_short<S, I, O>()
    ensures { (m : Timed S I O) → IsTimed m → (k : S → ℕ) → ((s t : S) (os : List O) → m.step s ≡ Some (t, os) → k t ≡ k s) → ((s t : S) → m.step s ≡ Some (t, []) → m.count t % k t ≡ 0 → ⊥) → (c : ℕ) (s : S) (os : List O) → 0 < k s → m.count (settle m c s os).state ≤ m.count s + k s }
{}

/// An input doesn't replay whose count is past, at or before whose count the machine gives an output first, that the
/// machine refuses, or that stands before outputs of the step at hand.
pub fn misplaced_inputs<S, I, O>()
    ensures late { (m : Timed S I O) → IsTimed m → (s : S) (es : List (Entry I O)) (j : Stand S O) (i : I) → Stands m s es j → m.input_count i < m.count j.state → Replays m s (es ++ given i ∷ []) → ⊥ }
    ensures early { (m : Timed S I O) → IsTimed m → (s : S) (es : List (Entry I O)) (j : Stand S O) (k : ℕ) (u v : S) (o : O) (os : List O) (i : I) → Stands m s es j → j.pending ≡ [] → moved m k j.state ≡ Some u → m.step u ≡ Some (v, o ∷ os) → m.count v ≤ m.input_count i → Replays m s (es ++ given i ∷ []) → ⊥ }
    ensures refused { (m : Timed S I O) → IsTimed m → (s : S) (es : List (Entry I O)) (j : Stand S O) (k : ℕ) (u : S) (i : I) → Stands m s es j → j.pending ≡ [] → moved m k j.state ≡ Some u → m.count u ≡ m.input_count i → m.take u i ≡ None → Replays m s (es ++ given i ∷ []) → ⊥ }
    ensures pending { (m : Timed S I O) → IsTimed m → (s : S) (es : List (Entry I O)) (j : Stand S O) (i : I) (o : O) (os : List O) → Stands m s es j → j.pending ≡ o ∷ os → Replays m s (es ++ given i ∷ []) → ⊥ }
{}

/// The reference machine is such a machine: a step adds 1 to the count, its outputs carry the count after it, an input
/// leaves the count, and outputs are compared field by field.
pub fn reference_is_timed()
    ensures { IsTimed timed }
{}

/// An entry costs the reference machine at most K steps, since it puts out a snapshot at each multiple of K.
pub fn reference_is_short()
    ensures { (c : ℕ) (s : State) (os : List Made) → 0 < s.snap → (settle timed c s os).state.count ≤ s.count + s.snap }
{}

/// A machine of version 1 has none of the doorbell's words, and no input changes its registers or gives it a bell. A clock value
/// rings no machine's bell.
pub fn version_one_has_no_bell()
    ensures loads { (d : DeviceState) → d.bell ≡ None → (device_load d 0x10000030 ≡ NotMapped) × (device_load d 0x10000034 ≡ NotMapped) × (device_load d 0x10000038 ≡ NotMapped) }
    ensures stores { (d : DeviceState) (value : ℕ) → d.bell ≡ None → (device_store d 0x10000030 value ≡ None) × (device_store d 0x10000034 value ≡ None) × (device_store d 0x10000038 value ≡ None) }
    ensures inputs { (s : State) (i : InputState) → s.devices.bell ≡ None → ((Take s i).hart ≡ s.hart) × ((Take s i).devices.bell ≡ None) }
    ensures clock { (s : State) (value : ℕ) → ((Take s (Clock value)).hart ≡ s.hart) × ((Take s (Clock value)).devices.bell ≡ s.devices.bell) }
{}
