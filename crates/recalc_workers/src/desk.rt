ghost use Rattle.std.specs.Prelude.{◌≡◌, false, IfOk};
ghost use Rattle.recalc_workers.specs.Seats.{HoldsNothing};

use crate::hands::Hand;
use crate::inputs::InputList;
use formula_eval::Stack;
use mark_core::Subject;
use mark_words::Seat;
use sheet_refs::Memory;
use std::alloc::Global;

/// Where one worker computes: its seat at the words, its hand at the jobs, and room for evaluation. Between calls its
/// seat holds no place.
#[derive(Drop)]
pub struct Desk<S: Subject> {
    pub(crate) seat: Seat<S>,
    pub(crate) hand: Hand,
    pub(crate) stack: Stack,
    pub(crate) inputs: InputList,
    /// Whether a thread that worked here wanted memory.
    pub(crate) wants_memory: bool,
    ghost free: { HoldsNothing seat },
}

impl<S: Subject> Desk<S> {
    ghost use Rattle.recalc_workers.specs.Desks.{seat_of, hand_of};

    /// A desk with this seat and this hand, and with room for every formula and for the words of 1,024 inputs.
    pub fn new(alloc: Global, seat: Seat<S>, hand: Hand) -> Result<Desk<S>, Memory>
        requires { HoldsNothing seat }
        ensures seat { IfOk result (λ desk. seat_of desk ≡ seat) }
        ensures hand { IfOk result (λ desk. hand_of desk ≡ hand) }
    {
        let stack = Stack::new(alloc)?;
        let inputs = InputList::new(alloc)?;
        Ok(Desk {
            seat,
            hand,
            stack,
            inputs,
            wants_memory: false,
        })
    }
}
