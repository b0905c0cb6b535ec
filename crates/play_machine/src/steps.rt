ghost use Rattle.std.specs.Prelude.{◌≡◌, ◌<◌, [], length, All, IfOk, IfSome, IsTrue, OnOk};
ghost use Rattle.sheet_model.specs.KeptValues.{KeepsValuesOf};
ghost use Rattle.sheet_model.specs.Boards.{IsFull};
ghost use Rattle.play_machine.specs.Machine.{ArePlayed};
ghost use Rattle.play_machine.specs.Playing.{AreFit, IsCommandOfSheet, TellsReports, is_put, machine_of};
ghost use Rattle.play_machine.specs.Waiting.{AreKept};

use crate::machine::Player;
use edit_log::Book;
use edit_script::{Command, Step};
use graph_walk::Graph;
use sheet_model::Report;
use sheet_refs::Memory;
use std::alloc::Global;

impl<G: Graph> Player<G> {
    // Does what a step asks for, and adds its report, where it makes one.
    fn follow(&mut self, step: &Step, reports: &mut Vec<Report>) -> Result<(), Memory>
        requires fit { IsCommandOfSheet self.old.book.sheet step.now.command }
        requires few { IsTrue (is_put step.now.command) → length self.old.book.log < 1048576 }
        requires kept { AreKept self.old.book.sheet self.old.cells }
        requires values { IfSome self.old.values (KeepsValuesOf self.old.book.sheet) }
        ensures follows { OnOk result (TellsReports (machine_of self.old.book self.old.cells.marks.items)
            (machine_of self.new.book self.new.cells.marks.items) step.now
            reports.old.items reports.new.items) }
        ensures kept { OnOk result (AreKept self.new.book.sheet self.new.cells) }
        ensures values { OnOk result (IfSome self.new.values (KeepsValuesOf self.new.book.sheet)) }
    {
        match &step.command {
            Command::Put(edit) => {
                self.put(step.client, edit)?;
                Ok(())
            }
            Command::Look(window) => {
                let report = self.look(false, *window)?;
                reports.push(report)?;
                Ok(())
            }
            Command::Firm(window) => {
                self.cells.clear(self.book.sheet().sizes());
                let report = self.look(true, *window)?;
                reports.push(report)?;
                Ok(())
            }
            Command::Work(turns) => {
                self.cells.work(self.book.sheet(), *turns)?;
                Ok(())
            }
        }
    }
}

/// Plays steps over a book without entries: the reports of their looks, in order.
///
/// An edit takes the time of the walk of the graph over the dependents of its cells. A look computes the values that it
/// shows and those to which they lead, as far as none was computed since the last edit that touched its cell; the first
/// one that shows a value looks once at each cell of the sheet. A firm look, and work of as many turns as there are
/// marks, take all marks away: cell by cell where few cells were touched since this was done, and else in one pass over
/// the sheet.
///
/// The first shorter work since then looks at each cell of the sheet, and so does the first one since edits have
/// touched more cells than the sheet has. Between these, turns look at the cells in the references of a marked cell
/// twice at most, and at those of one that an edit touches twice more. For these a list of the ranges of each waiting
/// formula is kept.
pub fn play<G: Graph>(
    alloc: Global,
    book: Book<G>,
    steps: &[Step],
) -> Result<(Book<G>, Vec<Report>), Memory>
where
    G: Drop,
    requires fresh { book.log ≡ [] }
    requires fit { AreFit book.sheet steps.now }
    ensures reports { IfOk result (λ played. ArePlayed book.sheet steps.now played.1.items) }
    ensures full { IfOk result (λ played. All (λ report. IsFull report.board) played.1.items) }
    ensures labels { IfOk result (λ played. played.0.sheet.labels ≡ book.sheet.labels) }
{
    let mut player = Player::new(alloc, book)?;
    let mut reports = Vec::new(alloc);
    for step in steps {
        player.follow(step, &mut reports)?;
    }
    let Player { book, .. } = player;
    Ok((book, reports))
}
