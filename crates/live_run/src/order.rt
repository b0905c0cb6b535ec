use sheet_model::{Board, Edit};
use sheet_refs::Range;

/// What a client is to do next.
#[derive(Drop)]
pub(crate) enum Order {
    /// An edit.
    Put(Edit),
    /// A look at a window, once all of it is computed where it is firm, with the board on which it is shown.
    Look {
        /// Whether it is firm.
        firm: bool,
        /// The window.
        window: Range,
        /// An empty board with room for the window.
        board: Board,
    },
}
