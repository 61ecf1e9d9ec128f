//! Runs of the top call: what it prints, its status, and the file that it writes.

mod building;
mod doorbell;
mod echo;
mod entries;
mod images;
mod keys;
mod levels;
mod rows;
mod running;
mod signed;
mod stores;
mod top;
mod verdicts;
mod views;
