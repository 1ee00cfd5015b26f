//! The outside as the compiler sees it: sources, sinks and files by their names, with counts of their faults.
//! A call that blames a device does so only where a count rose.
#![tactic(auto)]

mod files;
mod gate;
mod mem_cabinet;
mod outside;
mod refused;
mod sink;
mod source;
mod status;
mod tally;

pub use files::{FileCabinet, FileSink, FileSource, StdoutSink};
pub use gate::{Gate, OpenGate, Place};
pub use mem_cabinet::MemCabinet;
pub use outside::{Cabinet, Sink, Source};
pub use refused::{Failed, Refused};
pub use sink::{MemSink, QuietSink, write_all};
pub use source::{MemSource, QuietSource};
pub use status::Status;
