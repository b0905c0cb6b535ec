//! The program over its inputs and outputs: it reads the words of the command line, does what they ask
//! for, and ends with a status.
//!
//! `run` is all that it does. Its contract says what each status tells, what was written and what was noted.
//! Words ask for at most one thing (`specs/Words.antt`, `specs/Requests.antt`), and words and the texts that
//! they name are answered in one way, by a text or by the status and the line of a refusal, but for which
//! edges `check` lists, which legal transcript `live` writes and which shortest chain `path` shows
//! (`specs/Answers.antt`); `run_laws` says both.
//! Each command is a case of each of these definitions. What their words mean in plain bytes are further laws
//! (`specs/Laws.antt`), with rows worked out over a small sheet (`specs/Rows.antt`); `run_without_faults` shows
//! that the premises of success can be met.
//!
//! The words after a command's name are read with the kit's `clap`, once it is known that none of them is
//! written as an option; that of `live` and `gen` is taken out before. Below stand `csv_sheet` and `edit_script`, which
//! read sheets and scripts, `sheet_model`, which computes values, `edit_log`, `taco_graph` with `edge_patterns`,
//! `graph_walk` and `dep_path`, by which edges, dependents, precedents and chains are found, `sheet_undo` and
//! `sheet_fill`, which give the edits that undo one and fill a range, `play_machine`,
//! which plays scripts, `live_run`, which runs them by threads, `live_gen`, which draws both from a number,
//! `window_text`, which prints, `sink_buffer`, which hands on in full buffers, and `sheet_io`, through which all input
//! and output goes; above stands the program's `main`.
#![tactic(auto)]

mod cells;
mod check;
mod fill;
mod generated;
mod graphs;
mod laws;
mod live;
mod options;
mod output;
mod path;
mod play;
mod positions;
mod reply;
mod script;
mod sure;
mod texts;
mod top;
mod undo;
mod window;
mod words;

pub use laws::{
    check_laws, ending_laws, filled_laws, generated_laws, note_laws, path_laws, row_laws, run_laws,
    script_row_laws, status_laws, told_laws, unfetched_laws,
};
pub use script::ScriptCommand;
pub use sure::run_without_faults;
pub use top::{no_memory, run};
pub use window::WindowCommand;
pub use words::{Asked, read_words};
