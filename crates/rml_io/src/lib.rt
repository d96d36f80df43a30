//! Where texts come from and where output goes: traits with a written meaning, fakes that tell all they do, and the thin
//! adapters over the host's files and streams. It knows nothing of the language.
#![tactic(auto)]

mod errors;
mod failing;
mod files;
mod host_files;
mod host_sink;
mod limited;
mod mem_files;
mod mem_sink;
mod piece;
mod sink;
mod store;

pub use errors::{Failed, FileErr};
pub use files::Files;
pub use host_files::HostFiles;
pub use host_sink::HostSink;
pub use mem_files::MemFiles;
pub use mem_sink::MemSink;
pub use sink::{Sink, write_whole};

#[cfg(test)]
mod tests;
