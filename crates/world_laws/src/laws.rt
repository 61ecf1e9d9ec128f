//! What the definitions say, as the contracts of functions that do nothing.

ghost use Rattle.std.specs.Prelude.{◌≡◌, ◌≤◌, ◌<◌, ◌^◌, length, ℕ, List, [], None, Option, Some, slice_get};
ghost use Rattle.avm_model.specs.Device.{row_of};
ghost use Rattle.avm_model.specs.Machine.{State};
ghost use Rattle.avm_model.specs.Reference.{Made, step_of};
ghost use Rattle.avm_model.specs.declared.Peer.{Peer};
ghost use Rattle.avm_outside.specs.Outlet.{packet};
ghost use Rattle.honest_model.specs.Honest.{IsHonest};
ghost use Rattle.journal_model.specs.Journal.{with_record};
ghost use Rattle.journal_model.specs.Part.{Part};
ghost use Rattle.journal_model.specs.Standing.{StandingData};
ghost use Rattle.record_model.specs.Recording.{Recording, Act, Effect, effect, finished};
ghost use Rattle.record_model.specs.Released.{Sender};
ghost use Rattle.record_model.specs.Standing.{FitsAct, KeepsTrue};
ghost use Rattle.life_model.specs.Life.{Among};
ghost use Rattle.world_model.specs.World.{AreAgreed, IsEvent};
ghost use Rattle.world_laws.specs.Counting.{node_of, sent_in, act_shows, Sends};
ghost use Rattle.world_laws.specs.Events.{pieces_show, SignsFor, AreFit, AreSpelled, IsSound};
ghost use Rattle.world_laws.specs.Network.{Network, Station, station_node, IsNetworkStep, IsSchedule, IsAgreeing, Belongs, RowAgrees, empty_network};

/// A step of the machine sends nothing, or the next message to a peer, which its row counts. What a recorder does is an event at
/// its node: what joins its mail was shown by a packet or is sent, its rows go on counting its mail, and what it releases shows
/// what is then in its acknowledged journal.
pub fn acts_are_events()
    ensures sends { (s t : State) (os : List Made) → step_of s ≡ Some (t, os) → Sends s.devices.peers t.devices.peers (sent_in os) }
    ensures act { (who : Sender) (pages : List ℕ) (r : Recording) (act : Act) (e : Effect) → IsSound r → (e.dropped ≡ None → FitsAct r act) → effect who pages r act ≡ Some e → KeepsTrue e.recording → SignsFor who (finished who e).recording → IsEvent (act_shows act) (node_of r) (node_of (finished who e).recording) (pieces_show (finished who e).pieces) × IsSound (finished who e).recording }
{}

/// Behind a hash of 32 bytes each entry within a frame's bounds has a packet with a spelling.
pub fn packets_fit()
    ensures spelled { (who : Sender) (p : StandingData) (parts : List Part) → who.own < 2 ^ 32 → length p.hash ≡ 32 → AreFit parts → AreSpelled who p parts }
{}

/// Every schedule of recorders keeps that they agree: each has a front of what each other has sent to it, each message once, and
/// each message that it counts as acknowledged has been received, both in the other's acknowledged journal; its rows count
/// these; its journal is honest, with the unsaved batch and without it; and each packet that was released is what an entry of
/// an acknowledged journal releases.
pub fn schedules_agree()
    ensures begins { IsAgreeing empty_network }
    ensures step { (n m : Network) → IsAgreeing n → IsNetworkStep n m → IsAgreeing m }
    ensures schedule { (n m : Network) → IsAgreeing n → IsSchedule n m → IsAgreeing m }
    ensures agreed { (n : Network) (i j : ℕ) (a b : Station) → IsAgreeing n → slice_get n.stations i ≡ Some a → slice_get n.stations j ≡ Some b → AreAgreed (station_node a) (station_node b) }
    ensures honest { (n : Network) (i : ℕ) (a : Station) → IsAgreeing n → slice_get n.stations i ≡ Some a → IsHonest a.recording.journal × IsHonest (with_record a.recording.journal a.recording.batch) }
    ensures belongs { (n : Network) (peer : ℕ) (bytes : List ℕ) → IsAgreeing n → Among (packet peer bytes) n.released → Belongs n (packet peer bytes) }
    ensures rows { (n : Network) (i j : ℕ) (a b : Station) (row : Peer) → IsAgreeing n → slice_get n.stations i ≡ Some a → slice_get n.stations j ≡ Some b → row_of a.recording.machine.devices.peers b.recording.machine.devices.own ≡ Some row → RowAgrees a b row }
    ensures counts { (n : Network) (i j : ℕ) (a b : Station) (row back : Peer) → IsAgreeing n → slice_get n.stations i ≡ Some a → slice_get n.stations j ≡ Some b → row_of a.recording.machine.devices.peers b.recording.machine.devices.own ≡ Some row → row_of b.recording.machine.devices.peers a.recording.machine.devices.own ≡ Some back → row.received ≤ back.sent }
{}
