//! The texts that the commands print, handed out in pieces.
//!
//! `Printer` hands a text to a function that its caller gives, piece by piece, and stops where that answers false, as
//! `text_pieces` says it. What the texts are stands in `specs/Texts.antt`: windows of values, lists of ranges, and
//! lists of edges; in `specs/Reports.antt`: what was shown of windows after a number of edits; in `specs/Changes.antt`:
//! the changes of an edit as lines of a script; and in `specs/Transcripts.antt`: a live run, with its log, its clients'
//! reports and its closing sheet. No call takes memory. That the text of a live run tells one run, whose labels and
//! clients are told by their texts, is a law (`specs/Told.antt`).
//!
//! Below stand `text_pieces`, `value_core`, `formula_syntax`, which prints formulas, `edge_patterns` and `sheet_model`;
//! above stand `live_run` and `sheet_cli`, which keeps the pieces.
#![tactic(auto)]

mod changes;
mod edges;
mod generated;
mod laws;
mod live;
mod pieces;
mod printer;
mod reports;
mod transcript;
mod windows;

pub use laws::text_laws;
pub use printer::Printer;
pub use sheet_model::Report;
pub use transcript::Transcript;
