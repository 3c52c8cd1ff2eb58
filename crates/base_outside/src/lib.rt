//! The edge of the program to the world: files, and sinks that take what is printed. Each is a trait
//! whose calls may fail, with a count of its faults. Both come over memory, for tests, and over the
//! system.
#![tactic(auto)]

mod counts;
mod files;
mod host;
mod mem_entry;
mod mem_file;
mod mem_files;
mod mem_sink;
mod reading;
mod sink;

pub use counts::counts_compose;
pub use files::{Failed, Files};
pub use host::{HostFiles, HostSink};
pub use mem_entry::{MemEntry, names_differ};
pub use mem_files::MemFiles;
pub use mem_sink::MemSink;
pub use reading::{ReadRefusal, read_whole};
pub use sink::Sink;
