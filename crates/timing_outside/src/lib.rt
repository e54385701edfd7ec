//! The inputs and outputs of the analyser: sources of bytes, shelves that open inputs by name,
//! sinks, and the gate at which a test can hold threads.
//!
//! The ghost members of a trait state the meaning of its values: a name, the bytes that are left or
//! written if they are known, and a count of faults that never decreases. A call returns `Failed`
//! only if that count rose.
#![tactic(auto)]

mod files;
mod gate;
pub mod laws;
mod memory_shelf;
mod memory_sink;
mod memory_source;
mod plan;
mod shelf;
mod sink;
mod source;
mod steady_shelf;
mod text;

pub use files::{FileFault, FileShelf, FileSource, StdSink};
pub use gate::{Gate, NoGate};
pub use memory_shelf::MemoryShelf;
pub use memory_sink::MemorySink;
pub use memory_source::MemorySource;
pub use plan::{ReadPlan, WritePlan};
pub use shelf::{OpenFault, Shelf};
pub use sink::{Sink, put_all};
pub use source::{Failed, Source};
pub use steady_shelf::{SteadyShelf, SteadySource};
