//! Where the texts of a run come from and where its output goes.
//!
//! A [`Shelf`] holds texts under names, and a [`Sink`] takes bytes in pieces. Each counts the faults that
//! it has met, and the count never falls. A call answers a fault only where the count rose in that call, so
//! code that is generic over the two can't make up a fault of its own. A shelf that tells what it holds
//! gives exactly that text, and a sink that tells what it has taken gains exactly the piece that was put,
//! or after a fault a prefix of it. An object need not tell: then its count alone is promised.
//!
//! [`SureShelf`] and [`SureSink`] never fail, and [`MemoryShelf`] and [`MemorySink`] fail by a list.
//! [`FileShelf`] and [`StreamSink`] reach the outside: what a file holds or a stream took, no clause says.
//! Definitions: `specs/Faults.antt`, `specs/Shelf.antt` and `specs/Sink.antt`; what their words say in plain
//! numbers and lists are the laws of `fault_laws`, `put_laws`, `cut_laws` and `fetch_laws`. Below this crate stands the
//! standard library alone, and above it whatever reads a text or writes output.
#![tactic(auto)]

mod counts;
mod cuts;
mod file_shelf;
mod laws;
mod memory_shelf;
mod memory_sink;
mod refusals;
mod shelf;
mod sink;
mod stream_sink;
mod sure;
mod texts;

pub use cuts::Cut;
pub use file_shelf::FileShelf;
pub use laws::{cut_laws, fault_laws, fetch_laws, put_laws};
pub use memory_shelf::MemoryShelf;
pub use memory_sink::MemorySink;
pub use refusals::{Failed, Fetch, Memory};
pub use shelf::Shelf;
pub use sink::Sink;
pub use stream_sink::StreamSink;
pub use sure::{SureShelf, SureSink};
