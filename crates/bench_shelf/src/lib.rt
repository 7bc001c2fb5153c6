//! What a program reads and writes: a shelf of named files and a sink for text, with counts of their faults. Each stands once in
//! memory and once over the system.
#![tactic(auto)]

pub mod file_shelf;
pub mod mem_shelf;
pub mod mem_sink;
pub mod out_sink;
pub mod shelf;
pub mod sink;

pub use file_shelf::FileShelf;
pub use mem_shelf::MemShelf;
pub use mem_sink::MemSink;
pub use out_sink::OutSink;
pub use shelf::{Shelf, ShelfFault};
pub use sink::{Sink, SinkFault};
