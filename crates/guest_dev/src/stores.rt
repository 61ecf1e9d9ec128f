//! Word stores to the devices.

ghost use Rattle.std.specs.Prelude.{◌≡◌, ◌≤◌, ◌<◌, ◌+◌, ◌-◌, ◌^◌, length, is_some, IfSome, All, ◌||◌, ◌++◌, ◌∷◌, []};
ghost use Rattle.avm_model.specs.Device.{sends, device_store, store_vector, store_return, try_send, Counted};
ghost use Rattle.avm_model.specs.Bell.{is_entered};
ghost use Rattle.avm_model.specs.Exec.{stored_state};
ghost use Rattle.guest_dev.specs.Shown.{stored_devices, IsSent};

use crate::devices::Devices;
use crate::rows::{count_sent, next_number, send_result};
use crate::words::put_word;
use avm_model::{Bell, Sent};

impl Devices {
    /// A word store, by the table of docs/FORMATS.md, "Devices"; false exactly where nothing can be stored there, and then
    /// nothing changes. A store to BELL_RET asks for a return, where the bell isn't idle.
    pub fn write(&mut self, addr: u32, value: u32) -> bool
        requires line { length self.old.state.line < 128 }
        requires numbers { All (λ p. p.sent < 2 ^ 62 - 1) self.old.state.peers }
        ensures answer { result ≡ is_some (device_store self.old.state addr value) }
        ensures after { self.new ≡ stored_devices self.old addr (device_store self.old.state addr value) }
        ensures line { length self.new.state.line ≤ length self.old.state.line + 1 }
        ensures numbers { Counted self.old.state.peers self.new.state.peers }
    {
        match addr {
            0x1000_0000 => self.push_byte((value % 256) as u8),
            0x1000_0010 => {}
            0x1000_001c => self.messages.pop(),
            0x1000_0020 => self.tx_peer = value,
            0x1000_0024 => self.tx_len = value,
            0x1000_0028 => self.send(),
            0x1000_0030 => return self.put_vector(value),
            0x1000_0038 => return self.ask_return(),
            0x1000_2000..0x1000_2400 if addr % 4 == 0 => {
                put_word(&mut self.window, addr as usize - 0x1000_2000, value);
            }
            _ => return false,
        }
        true
    }

    /// What a store to TX_SEND would send now. The payload is the front of the transmit window.
    pub fn sending(&self) -> Option<Sent>
        requires { All (λ p. p.sent < 2 ^ 62 - 1) self.now.state.peers }
        ensures value { result ≡ sends self.now.state }
        ensures fits { IfSome result (λ s. IsSent s) }
    {
        let (peer, len) = (self.tx_peer, self.tx_len);
        let peers = self.peers.as_slice();
        if send_result(peers, peer, len) != 0 {
            return None;
        }
        let number = next_number(peers, peer);
        Some(Sent { peer, number, len })
    }

    fn push_byte(&mut self, byte: u8)
        requires { length self.old.state.line < 128 }
        ensures { self.new ≡ record self.old { state = record self.old.state { line = self.old.state.line ++ byte ∷ [] } } }
    {
        self.line[self.line_len] = byte;
        self.line_len += 1;
    }

    fn send(&mut self)
        requires { All (λ p. p.sent < 2 ^ 62 - 1) self.old.state.peers }
        ensures value { self.new ≡ record self.old { state = try_send self.old.state } }
        ensures numbers { Counted self.old.state.peers self.new.state.peers }
    {
        let (peer, len) = (self.tx_peer, self.tx_len);
        let result = send_result(self.peers.as_slice(), peer, len);
        self.tx_result = result;
        if result != 0 {
            return;
        }
        count_sent(self.peers.as_mut_slice(), peer);
    }

    fn put_vector(&mut self, value: u32) -> bool
        ensures answer { result ≡ is_some (store_vector self.old.state value self.old.state.bell) }
        ensures after { self.new ≡ record self.old { state = stored_state self.old.state (store_vector self.old.state value self.old.state.bell) } }
    {
        let Some(bell) = self.bell else {
            return false;
        };
        self.bell = Some(Bell {
            vector: value / 4 * 4,
            saved: bell.saved,
            state: bell.state,
        });
        true
    }

    fn ask_return(&mut self) -> bool
        ensures answer { result ≡ is_some (store_return self.old.state self.old.state.bell) }
        ensures after { self.new ≡ record self.old { returns = self.old.returns || is_entered self.old.state.bell } }
    {
        let Some(bell) = self.bell else {
            return false;
        };
        if bell.state != 0 {
            self.returns = true;
        }
        true
    }
}
