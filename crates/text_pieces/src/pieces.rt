ghost use Rattle.text_pieces.specs.Pieces.{HandsOut};

/// Hands out one piece.
pub fn send<F: FnMut(&[u8]) -> bool>(piece: &[u8], to: &mut F) -> bool
    requires callable { F.IsAlwaysCallable to.old }
    ensures sent { HandsOut F.FnMut to.old piece.now result to.new }
    ensures callable { F.IsAlwaysCallable to.new }
{
    to(piece)
}
