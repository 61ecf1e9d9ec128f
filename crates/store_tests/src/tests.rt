//! Stores in memory, made and listed.

mod formats;
mod formatting;
mod lists;
mod running;
mod stores;
