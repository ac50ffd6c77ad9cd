//! The outside world as traits: sources, sinks, files, wires and spawners, and forms of them in memory.
#![tactic(auto)]

mod closed;
mod files;
mod giving;
mod mem_files;
mod mem_sink;
mod mem_source;
mod sink;
mod source;
mod spawner;
mod sure;
mod tally;
mod turns;
mod wire;

pub use closed::{ClosedSpawner, ClosedWire};
pub use files::{FileAnswer, Files};
pub use giving::{GaveAll, give_all};
pub use mem_files::MemFiles;
pub use mem_sink::MemSink;
pub use mem_source::MemSource;
pub use sink::{Gave, Sink};
pub use source::{Source, Took};
pub use spawner::{Spawner, Started};
pub use sure::{SureFiles, SureSink, SureSource};
pub use tally::Tally;
pub use wire::{Opened, Wire, WireGave, WireTook};
