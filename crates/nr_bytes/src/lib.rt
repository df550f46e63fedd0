//! The lowest crate: lists, bytes and texts that contracts see as lists, reading and writing of
//! Borsh fields, and what a program reads from and writes to.
#![tactic(auto)]

mod blob;
mod called;
mod compare;
mod fault;
mod file_shelf;
mod list;
mod memory_shelf;
mod memory_sink;
mod reader;
mod shelf;
mod sink;
mod stdout_sink;
mod text;
mod threads;
mod writer;

pub use blob::Blob;
pub use called::words_of;
pub use fault::BytesFault;
pub use file_shelf::{FileShelf, append_rest};
pub use list::List;
pub use memory_shelf::MemoryShelf;
pub use memory_sink::MemorySink;
pub use reader::{Reader, counted_slice, utf8};
pub use shelf::{LoadFault, Shelf};
pub use sink::{Sink, WriteFailed};
pub use stdout_sink::StdoutSink;
pub use text::Text;
pub use writer::Writer;
