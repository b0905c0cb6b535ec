//! The marks protocol as a pure machine: which marks and values an actor may read, and why a value that
//! is out of date is never shown as current. Each place has three words: the number of the last edit
//! that marked it, the clean word (for which mark its value was computed, and whether a worker holds
//! it), and the value. Actors are views. An editor marks each place that an edit touches and then
//! commits it; workers claim a place, put its value and finish; readers load the clean word, the value
//! and the mark, in this order.
//!
//! `Core` is the machine over one subject, one event at a time; `specs/` says what each event needs and
//! does, and what an honest state is. `laws` says what holds: an opening is honest and each event keeps a
//! state so; what a read of an honest state may show, alone and after another read; what views hand on.
//! No thread and no table is here: a crate that runs the protocol over atomic words proves that each of
//! its steps is one of these events. `View` and `Edits` are what its tokens hold in proofs.
#![tactic(auto)]

mod actors;
mod answers;
mod events;
mod judging;
mod laws;
mod machine;
mod protocol;
mod subjects;
mod views;
mod words;

pub use actors::{Edits, View};
pub use answers::{Seen, shown};
pub use events::{Event, Outcome};
pub use laws::{
    goes_stale_for_later_edits_only, hands_on, has_one_last_mark, holds_alone, keeps_honest,
    reads_in_three_loads, shows_what_is_right, stays_honest,
};
pub use protocol::Core;
pub use subjects::{Judge, Subject};
pub use words::{Clean, Finished, Half, Held, Known, Lost, Memory, Place};
