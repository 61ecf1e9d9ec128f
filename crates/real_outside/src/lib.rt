//! The outside as the system gives it: files, a file as a disk, and standard output.
#![tactic(auto)]

mod counted;
mod real_disk;
mod real_files;
mod real_sink;

pub use real_disk::RealDisk;
pub use real_files::RealFiles;
pub use real_sink::RealSink;
