ghost use Rattle.std.specs.Prelude.{◌≡◌, ◌⊎◌};
ghost use Rattle.sheet_io.specs.Sure.{sure_holds};
ghost use Rattle.sheet_cli.specs.Answers.{Answer, IsAccepted, Owes, status_of};
ghost use Rattle.sheet_cli.specs.Words.{bytes_of};

use crate::top::run;
use recalc_workers::Gate;
use sheet_io::{Sink, SureShelf, SureSink};
use std::alloc::Global;
use std::sync::Wait;
use std::thread::Threads;

/// `run` over texts in memory and an output that never fails. The result is 0 or 7 where the words ask for
/// what is in order, and for all words the status of whatever they and the texts are answered, or 7.
pub fn run_without_faults<R: Threads + Wait + Sync, N: Sink, G: Gate + Sync>(
    rt: &R,
    alloc: Global,
    words: &[String],
    shelf: &mut SureShelf,
    out: &mut SureSink,
    notes: &mut N,
    gate: &G,
) -> u8
    ensures accepted { IsAccepted (bytes_of words.now) (sure_holds shelf.old)
        → (result ≡ 0) ⊎ (result ≡ 7) }
    ensures answered { (answer : Answer) → Owes (bytes_of words.now) (sure_holds shelf.old) answer
        → (result ≡ status_of answer) ⊎ (result ≡ 7) }
{
    run(rt, alloc, words, shelf, out, notes, gate)
}
