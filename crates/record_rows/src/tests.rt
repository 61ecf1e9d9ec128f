//! Rows of `record` and of `export`.

mod audits;
mod exports;
mod failing;
mod messages;
mod refusals;
mod rows;
mod running;
mod stores;
