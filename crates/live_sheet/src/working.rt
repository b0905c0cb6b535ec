use crate::crossing::{entries_cross, subject_crosses};
use crate::desk::Desk;
use crate::live::Live;
use crate::naming::Naming;
use crate::office::LiveOffice;
use recalc_workers::{Gate, Turn, turn};
use std::sync::Wait;

impl<N: Naming> Live<N> {
    ghost use Rattle.live_sheet.specs.Worked.{ComesWithCause, KeepsSeat, UsesJobs};

    /// One turn of a worker at a desk: it takes a job, and computes its cell if that is due. Each answer comes only
    /// with its cause, in what the desk's seat noted in this call and in the lists of its hand. The seat loses nothing
    /// that it knew, and holds no place afterwards.
    ///
    /// The desk keeps what stands in some cells. The lock is taken where the cell isn't one of these, or an edit came
    /// since: then the desk gets it for the cell and for those behind it that edits touched. It is taken too where the
    /// desk can't tell that a cell isn't on a cycle. It isn't held while the turn reads, computes, claims and puts.
    pub fn work<R: Wait, T: Gate>(&self, rt: &R, desk: &mut Desk<N>, gate: &T) -> Turn
        ensures keeps { KeepsSeat desk.old desk.new }
        ensures jobs { UsesJobs N.opening desk.old desk.new result }
        ensures cause { ComesWithCause N.opening desk.old desk.new result }
    {
        entries_cross();
        subject_crosses();
        let mut office = LiveOffice {
            live: self,
            store: &desk.store,
        };
        turn(
            rt,
            &mut desk.desk,
            &self.marks,
            &self.jobs,
            &mut office,
            gate,
        )
    }
}
