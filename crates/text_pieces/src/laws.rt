ghost use Rattle.text_pieces.specs.Pieces.{AreHandedOutInPieces};

/// What holds of all calls together by which a text is handed out: their pieces join to the text, or to a beginning of
/// it where one of them was answered false; that call was then the last one, and false is the answer.
pub fn piece_laws<F: FnMut(&[u8]) -> bool>()
    ensures { AreHandedOutInPieces F.FnMut }
{}
