//! Several nodes and the packets between them: each node is a store in memory with its recorder, and each step is one turn or one seal
//! of a node, with the crash that may follow it.
#![tactic(auto)]

mod gift;
mod joining;
mod node;
mod pool;
mod stepping;
mod types;
mod world;

pub use types::{Parcel, Stepped, WorldFault};
pub use world::World;
pub use world_model::{Act, Crash, Event};
