//! Word loads from the devices.

ghost use Rattle.std.specs.Prelude.{◌≡◌, ◌<◌};
ghost use Rattle.avm_model.specs.Memory.{number_at};
ghost use Rattle.avm_model.specs.Device.{device_load, load_vector, load_saved, oldest, len_of, peer_of, payload_of};
ghost use Rattle.avm_model.specs.Exec.{state_after};
ghost use Rattle.guest_dev.specs.DevGot.{dev_got};

use crate::devices::Devices;
use crate::words::word_at;

/// What a word load gives.
#[derive(Clone, Copy, Debug, PartialEq, Eq)]
pub enum DevGot {
    /// A value.
    Value(u32),
    /// The clock is asked for, and none is pending.
    Asks,
    /// Nothing can be loaded there.
    Nothing,
}

impl Devices {
    /// A word load, by the table of docs/FORMATS.md, "Devices".
    pub fn read(&mut self, addr: u32) -> DevGot
        ensures value { result ≡ dev_got (device_load self.old.state addr) }
        ensures after { self.new ≡ record self.old { state = state_after self.old.state (device_load self.old.state addr) } }
        ensures line { self.new.state.line ≡ self.old.state.line }
        ensures peers { self.new.state.peers ≡ self.old.state.peers }
    {
        match addr {
            0x1000_0004 => self.read_console(),
            0x1000_0008 => self.read_clock(),
            0x1000_000c => DevGot::Value(self.latch),
            0x1000_0014 => DevGot::Value(self.oldest_len()),
            0x1000_0018 => DevGot::Value(self.oldest_peer()),
            0x1000_0020 => DevGot::Value(self.tx_peer),
            0x1000_0024 => DevGot::Value(self.tx_len),
            0x1000_002c => DevGot::Value(self.tx_result),
            0x1000_0030 => self.read_vector(),
            0x1000_0034 => self.read_saved(),
            0x1000_1000..0x1000_1400 if addr % 4 == 0 => DevGot::Value(self.received_word(
                addr as usize - 0x1000_1000,
            )),
            0x1000_2000..0x1000_2400 if addr % 4 == 0 => DevGot::Value(word_at(
                &self.window,
                addr as usize - 0x1000_2000,
            )),
            _ => DevGot::Nothing,
        }
    }

    fn read_console(&mut self) -> DevGot
        ensures value { result ≡ dev_got (device_load self.old.state 0x10000004) }
        ensures after { self.new ≡ record self.old { state = state_after self.old.state (device_load self.old.state 0x10000004) } }
    {
        match self.console.pop_front() {
            Some(byte) => DevGot::Value(byte as u32),
            None => DevGot::Value(u32::MAX),
        }
    }

    fn read_clock(&mut self) -> DevGot
        ensures value { result ≡ dev_got (device_load self.old.state 0x10000008) }
        ensures after { self.new ≡ record self.old { state = state_after self.old.state (device_load self.old.state 0x10000008) } }
    {
        let Some(value) = self.clock else {
            return DevGot::Asks;
        };
        self.clock = None;
        self.latch = (value >> 32) as u32;
        DevGot::Value((value % 0x1_0000_0000) as u32)
    }

    fn read_vector(&self) -> DevGot
        ensures { result ≡ dev_got (load_vector self.now.state self.now.state.bell) }
    {
        match self.bell {
            Some(bell) => DevGot::Value(bell.vector),
            None => DevGot::Nothing,
        }
    }

    fn read_saved(&self) -> DevGot
        ensures { result ≡ dev_got (load_saved self.now.state self.now.state.bell) }
    {
        match self.bell {
            Some(bell) => DevGot::Value(bell.saved),
            None => DevGot::Nothing,
        }
    }

    fn oldest_len(&self) -> u32
        ensures { result ≡ len_of (oldest self.now.state) }
    {
        match self.messages.get(0) {
            Some(message) => message.payload().len() as u32,
            None => u32::MAX,
        }
    }

    fn oldest_peer(&self) -> u32
        ensures { result ≡ peer_of (oldest self.now.state) }
    {
        match self.messages.get(0) {
            Some(message) => message.peer() as u32,
            None => u32::MAX,
        }
    }

    fn received_word(&self, at: usize) -> u32
        requires { at < 1024 }
        ensures { result ≡ number_at 4 (payload_of (oldest self.now.state)) at }
    {
        match self.messages.get(0) {
            Some(message) => word_at(message.payload(), at),
            None => 0,
        }
    }
}
