//! The outside: what holds files and what takes output, in memory and in the system, with counted faults.
#![tactic(auto)]

mod disk;
mod entry;
mod memory;
mod output;
mod outside;
mod store_sink;
mod sure;
mod target;
mod trouble;
mod whole_files;
mod writing;

pub use disk::{DiskStore, StdSink};
pub use entry::{FileEntry, FileList};
pub use memory::{MemorySink, MemoryStore};
pub use output::Output;
pub use outside::{CreateFault, Failed, Made, OpenFault, Sink, Store, WriteFault};
pub use store_sink::StoreSink;
pub use sure::{SureSink, SureStore};
pub use trouble::{Doing, Trouble};
pub use whole_files::{ReadEnd, open_file, read_file, read_front, write_file};
pub use writing::{WriteEnd, write_all};
