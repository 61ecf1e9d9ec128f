//! Rows of `retain`, and of `record` and `list` on what it leaves.

mod refusals;
mod rows;
mod running;
mod spares;
mod stores;
