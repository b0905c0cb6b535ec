use crate::board::Board;

/// What a client was shown at one of its looks.
#[derive(Drop)]
pub struct Report {
    /// Whether all of the window was computed first.
    pub firm: bool,
    /// What was shown.
    pub board: Board,
}
