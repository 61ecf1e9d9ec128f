//! What a sample is: the run of its first node, with what the other one says to it, as definitions (`specs/`); and some of it,
//! computed.
#![tactic(auto)]

ghost use Rattle.std.specs.Prelude.{◌≡◌, ◌∷◌, [], ℕ, List};
ghost use Rattle.avm_outside.specs.Feed.{Timed, console, timed, with_asked};
ghost use Rattle.rand_chacha.specs.ChaCha.{ChaCha};
ghost use Rattle.sample_model.specs.Other.{Side, farewell, greeting, hear, hear_all, next_said, says};
ghost use Rattle.sample_model.specs.Talk.{TellsTime, agenda, joined};
ghost use Rattle.sample_parts.specs.PeerLog.{PeerLog};

/// The other node greets behind each tenth answer, says nothing to what is no message, and once the last of its messages is answered
/// it halts the first node and listens no more.
pub fn worked_answers()
    ensures ninth { greeting 9 ≡ [] }
    ensures tenth { greeting 10 ≡ timed 0 (console (111 ∷ 107 ∷ 10 ∷ [])) ∷ [] }
    ensures last { greeting 150 ≡ timed 0 (console (111 ∷ 107 ∷ 10 ∷ [])) ∷ [] }
    ensures empty { (log : PeerLog) (words : ChaCha) (n : ℕ) → (hear (record { log = log; words = words; answers = 0 }) []).events ≡ [] }
    ensures over { (log : PeerLog) (words : ChaCha) (bytes : List ℕ) → hear (record { log = log; words = words; answers = 150 }) bytes ≡ says (record { log = log; words = words; answers = 150 }) [] }
    ensures farewell { (log : PeerLog) (words : ChaCha) → (next_said (record { log = log; words = words; answers = 150 })).events ≡ timed 0 (console (4 ∷ [])) ∷ [] }
    ensures silence { (b : Side) → hear_all b [] ≡ says b [] }
{}

/// What is said joins behind the events that remain, and the first clock request gets 1000.
pub fn worked_scripts()
    ensures behind { (a b : Timed) (clocks : List ℕ) → (joined (agenda (a ∷ []) clocks) (b ∷ []) clocks).events ≡ a ∷ b ∷ [] }
    ensures first_time { (events : List Timed) → TellsTime (agenda events (1000 ∷ [])) }
    ensures second_time { (events : List Timed) → TellsTime (with_asked (agenda events (1000 ∷ 2000 ∷ []))) }
{}
