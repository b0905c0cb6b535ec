//! One step of evaluation: the value of a formula from the values of the cells that it names.
//!
//! What each function means stands over the values of its parameters (`specs/Functions.antt`), and what a
//! formula means over the values of cells (`specs/Meaning.antt`). A formula that names a cell with the
//! value `#CIRC!` has that value itself, whatever else it says.
//!
//! Below stand `sheet_refs`, `value_core` and `formula_syntax`; sheets stand above.
#![tactic(auto)]

mod cells;
mod evaluation;
mod inputs;
mod items;
mod laws;
mod lines;
mod machine;
mod ranges;
mod scalars;
mod scan;
mod stack;
mod sums;
mod tally;

pub use evaluation::{eval, eval_known};
pub use inputs::{Block, Inputs, Missing};
pub use laws::eval_laws;
pub use stack::Stack;
