//! The outside as the program sees it: files by name, disks, sinks, feeds and outlets, each with a count of its faults and
//! with what it tells; and objects in memory that are such.
#![tactic(auto)]

mod calls;
mod disk;
mod disk_event;
mod due;
mod event;
mod feed;
mod files;
mod kept;
mod list_feed;
mod mem_disk;
mod mem_files;
mod mem_outlet;
mod mem_sink;
mod no_disk;
mod outlet;
mod sink;
mod states;

pub use disk::Disk;
pub use due::Due;
pub use feed::Feed;
pub use files::{Failed, Files};
pub use kept::write_kept;
pub use list_feed::ListFeed;
pub use mem_disk::MemDisk;
pub use mem_files::MemFiles;
pub use mem_outlet::MemOutlet;
pub use mem_sink::MemSink;
pub use no_disk::NoDisk;
pub use outlet::Outlet;
pub use sink::Sink;
