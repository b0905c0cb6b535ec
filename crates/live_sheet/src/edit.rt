ghost use Rattle.std.specs.Prelude.{◌≡◌, length, Err, IfOk, IfErr, OnErr};
ghost use Rattle.edit_log.specs.Refusals.{IsFirstOutside};
ghost use Rattle.sheet_refs.specs.Cells.{Position};
ghost use Rattle.sheet_model.specs.Edits.{HaveLabels};
ghost use Rattle.live_sheet.specs.Edited.{HasCommitted, IsRefusal};
ghost use Rattle.live_sheet.specs.declared.committed.EditRefused.TheVariants as refusal;

use crate::committed::{Committed, EditRefused};
use crate::live::Live;
use crate::naming::Naming;
use crate::pass::Pass;
use sheet_model::Edit;
use std::sync::Wait;

impl<N: Naming> Live<N> {
    /// Makes an edit of the pass's client. It is answered once each cell that it touches is marked and it is committed;
    /// then the pass knows the log up to it. The lock is held for this alone. After it a job is offered for each of the
    /// cells, row by row; once one finds the queue full, it and all that are left are dropped.
    ///
    /// An edit is refused where a cell of it is outside the sheet, with the first such cell; where the log is full,
    /// which the pass then knows; or where there is no memory. A refused edit offers nothing and leaves the pass's
    /// accepted edits; from the first mark on nothing is refused.
    pub fn edit<R: Wait>(
        &self,
        rt: &R,
        pass: &mut Pass<N>,
        edit: Edit,
    ) -> Result<Committed, EditRefused>
        requires { HaveLabels (length N.opening.labels) edit }
        ensures committed { IfOk result
            (λ done. HasCommitted N.opening edit pass.old pass.new done.number) }
        ensures refused { IfErr result (IsRefusal N.opening edit pass.old pass.new) }
        ensures offers { OnErr result (pass.new.hand ≡ pass.old.hand) }
        ensures out_of_sheet { (cell : Position) → IsFirstOutside N.opening edit cell
            → result ≡ Err (refusal.OutOfSheet cell) }
    {
        let made = self
            .locked
            .lock(rt)
            .edit(&self.marks, self.sizes(), pass, edit);
        match made {
            Ok(applied) => {
                let number = applied.number;
                self.jobs.offer_each(rt, &mut pass.hand, applied.touched);
                Ok(Committed { number })
            }
            Err(refused) => Err(refused),
        }
    }
}
