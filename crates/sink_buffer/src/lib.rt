//! A text on its way to a sink, in pieces of a fixed size.
//!
//! A [`SinkBuffer`] takes a text piece by piece, as a printer hands it out, and puts it to a sink in full buffers of
//! 65,536 bytes; what is left it puts at the end. Its memory is taken when it is made: no call after that takes any.
//! `HasPassed` (`specs/Buffers.antt`) says what a buffer has put of the bytes that came and what it still holds, and
//! `buffer_laws` what that is in plain bytes: of all that came nothing is lost, put twice or held back for long.
//!
//! Below stand `sheet_io`, whose sinks these are, and `text_pieces`, by whose word a text is handed out in pieces
//! (`proofs/SendLemmas.antt` joins the two for the callers, and `Passes` is what they can say of it); above stands
//! `sheet_cli`.
#![tactic(auto)]

mod buffer;
mod laws;

pub use buffer::SinkBuffer;
pub use laws::buffer_laws;
