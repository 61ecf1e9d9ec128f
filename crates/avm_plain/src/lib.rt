//! The machine as its definitions say it, plain and slow: lists, whole numbers, a copy wherever one is simpler. Its
//! contract is the definition; what is made to be fast is compared with it.
#![tactic(auto)]

mod accesses;
mod bells;
mod board;
mod devices;
mod entries;
mod executing;
mod hart;
mod memory;
mod replaying;
mod rows;
mod state;
mod stepping;
mod taking;
mod values;
mod words;

pub use accesses::{DeviceLoad, device_load, device_store};
pub use board::{Board, BoardLoad};
pub use devices::{Devices, Message};
pub use entries::{Entry, Given, Made};
pub use executing::{Outcome, execute, run};
pub use hart::Hart;
pub use replaying::{is_front, replays, rerun};
pub use state::{Output, State, Stepped, asks, can_step};
pub use stepping::step;
pub use taking::{Input, refusal, take};
pub use values::{imm_value, is_taken, load_value, mul_value, reg_value};
pub use words::decode;
