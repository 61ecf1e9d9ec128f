//! What a command line asks for, and what the files that it names say: words read as a job, configurations, and scripts with
//! their feeds.
#![tactic(auto)]

mod bounds;
mod commands;
mod config;
mod cut;
mod fault;
mod fields;
mod levels;
mod line;
mod options;
mod peers;
mod script;
mod script_feed;
mod types;
mod values;
mod views;
mod words;

pub use config::{Config, read_config};
pub use fault::ReadFault;
pub use script::Script;
pub use script_feed::ScriptFeed;
pub use types::{BadWords, Job, Signed};
pub use words::{job, spare_word, store_word};
