//! The outside of the programs: the words of the command line, and sources and sinks of bytes, which count their faults.
//! Functions read a source to its end, and write a whole text. An output takes a text piece by piece. There are sources
//! and sinks in memory, whose calls fail as a list says, and adapters of standard input and output.
#![tactic(auto)]

mod calls;
mod command_line;
mod mem_sink;
mod mem_source;
mod output;
mod reading;
mod sink;
mod source;
mod writing;

pub use command_line::words;
pub use mem_sink::MemSink;
pub use mem_source::MemSource;
pub use output::Output;
pub use reading::{READ_MAX, ReadAllError, fill, next_byte, read_all};
pub use sink::{Sink, StdSink};
pub use source::{Failed, Source, StdSource};
pub use writing::{WriteFault, write_text};
