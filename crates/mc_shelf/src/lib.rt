//! Files by name and a place for output, as traits whose meaning is stated, in memory and over the
//! system.
#![tactic(auto)]

mod ahead;
mod dir_shelf;
mod files;
mod lines;
mod measuring;
mod mem_shelf;
mod mem_sink;
mod out_sink;
mod plan;
mod reading;
mod shelf;
mod sink;
mod sure_shelf;
mod sure_sink;

pub use dir_shelf::DirShelf;
pub use lines::{LineFault, Lines};
pub use measuring::{MeasureEnd, measure};
pub use mem_shelf::MemShelf;
pub use mem_sink::MemSink;
pub use out_sink::OutSink;
pub use reading::{ReadEnd, read_file};
pub use shelf::Shelf;
pub use sink::{Failed, Sink, Stop};
pub use sure_shelf::SureShelf;
pub use sure_sink::SureSink;
