//! What `view` prints, and its status.

mod building;
mod changes;
mod running;
mod states;
