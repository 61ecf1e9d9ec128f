//! Turns and seals of a recorder, crashes and failing calls.

mod crashes;
mod failing;
mod opening;
mod rows;
mod running;
mod stores;
mod untold;
