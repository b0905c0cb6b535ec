// What a generated run comes to.
ghost use Rattle.std.specs.Prelude.{[], ◌∷◌, ◌++◌, codes, is_ok};
ghost use Rattle.std.specs.Fmt.{signed_decimal};
ghost use Rattle.text_pieces.specs.Pieces.{HandsOut};
ghost use Rattle.window_text.specs.Texts.{generated_text};

use crate::edges::send_count;
use crate::pieces::{Stopped, send_bytes};
use itoa::Buffer;

/// Hands out the lines of a generated run.
pub(crate) fn send_generated<F: FnMut(&[u8]) -> bool>(
    number: u32,
    edits: u64,
    sum: i128,
    to: &mut F,
) -> Result<(), Stopped>
    requires callable { F.IsAlwaysCallable to.old }
    ensures sent { HandsOut F.FnMut to.old (generated_text number edits sum) (is_ok result) to.new }
{
    send_count(b"gen", u64::from(number), to)?;
    send_bytes(b"cells 7000\n", to)?;
    send_count(b"edits", edits, to)?;
    send_sum(sum, to)
}

// Hands out the line of a sum.
fn send_sum<F: FnMut(&[u8]) -> bool>(sum: i128, to: &mut F) -> Result<(), Stopped>
    requires callable { F.IsAlwaysCallable to.old }
    ensures sent { HandsOut F.FnMut to.old
        (codes "sum " ++ (signed_decimal sum ++ 10 ∷ [])) (is_ok result) to.new }
    ensures callable { F.IsAlwaysCallable to.new }
{
    send_bytes(b"sum ", to)?;
    send_bytes(Buffer::new().format(sum).as_bytes(), to)?;
    send_bytes(b"\n", to)
}
