//! The marks protocol over atomic words, shared by threads. Word 0 of the table counts the committed edits, and
//! each place has three words: its mark, its clean word and its value. Each call but `open`, `meet` and
//! `close` is one atomic step. Between any two steps, whatever threads make them, the words and the views of all
//! seats are those of a state to which a list of events of `mark_core` leads from the opening one, each allowed
//! where it happens, and so of an honest state (specs/Rules.antt). Each call that loads or stores a word is one
//! event, at the end of that list as it stands then (specs/Steps.antt; `takes_one_event_a_step`). Contracts speak
//! of tables and seats by the names in specs/Tokens.antt, and of what a step makes of a seat by those in
//! specs/Doing.antt. Below stand `mark_core` and the kit's `atomic_table`.
#![tactic(auto)]

mod closing;
mod codes;
mod laws;
mod listed;
mod marks;
mod opening;
mod plays;
mod reads;
mod seats;
mod steps;
mod tables;
mod unshared;
mod work;

pub use closing::{Kept, Words};
pub use laws::{is_honest_between_steps, takes_one_event_a_step};
pub use listed::Codes;
pub use marks::Marks;
pub use seats::Seat;
pub use tables::{Doing, History, Keeps, Made, OwnStep, Past, Topic};
