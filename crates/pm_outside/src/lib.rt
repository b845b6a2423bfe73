//! What a run of Parmel sees of the outside: libraries that give files, and sinks that take text.
#![tactic(auto)]

mod counts;
mod gate;
mod host_library;
mod host_sink;
mod library;
mod memory_library;
mod memory_sink;
mod sink;
#[cfg(test)]
mod tests;

pub use gate::{Gate, OpenGate};
pub use host_library::HostLibrary;
pub use host_sink::HostSink;
pub use library::{FetchFault, Library};
pub use memory_library::MemoryLibrary;
pub use memory_sink::MemorySink;
pub use sink::{PutFault, Sink};
