ghost use Rattle.std.specs.Prelude.{◌≡◌, ◌≤◌, ◌<◌, ◌++◌, ◌∷◌, []};
ghost use Rattle.std.specs.Prelude.{length, Err, IfOk, IfErr, OnOk, OnErr};
ghost use Rattle.std.specs.Prelude.{All, IsTrue, vec_len, vec_capacity};
ghost use Rattle.edit_log.specs.Books.{IsPreparedFor, HasApplied, IsUnchanged, client_entry};
ghost use Rattle.edit_log.specs.Touches.{AreTouched};
ghost use Rattle.sheet_refs.specs.Sizes.{is_inside};
ghost use Rattle.edit_log.specs.Refusals.{IsCause, IsFirstOutside};
ghost use Rattle.edit_log.specs.declared.refused.PrepareRefused.TheVariants as refused;
ghost use Rattle.sheet_refs.specs.Cells.{Position};
ghost use Rattle.sheet_model.specs.Edits.{HaveLabels};
ghost use Rattle.mark_core.specs.Marks.{IsPrefix};
ghost use Rattle.mark_words.specs.Tokens.{own_steps, log_of, seen_of, edits_of};
ghost use Rattle.live_sheet.specs.Edited.{IsCommitted, IsRefusal, IsRefusedAs, IsSamePass, IsToldLog};
ghost use Rattle.live_sheet.specs.declared.committed.EditRefused.TheVariants as refusal;
ghost use Rattle.live_sheet.specs.Edits.{marks_of};
ghost use Rattle.live_sheet.specs.Graphs.{live_pairs};
ghost use Rattle.live_sheet.specs.Held.{AreWordsOf};
ghost use Rattle.live_sheet.specs.Steps.{StepsAre, saw, committed};

use crate::committed::EditRefused;
use crate::crossing::{entries_cross, subject_crosses};
use crate::entering::enter;
use crate::locked::Locked;
use crate::meeting::{hear, learn};
use crate::naming::Naming;
use crate::pass::Pass;
use edit_log::{Applied, OverSheet, PrepareRefused, Prepared};
use mark_words::Marks;
use sheet_model::Edit;
use sheet_refs::Sizes;

impl<N: Naming> Locked<N> {
    /// The editor's seat takes over what the pass knows. The log has at least the entries that the pass knows, and as
    /// many as the pass has seen.
    fn hear_pass(&mut self, marks: &Marks<OverSheet>, pass: &mut Pass<N>)
        requires words { AreWordsOf N.words N.opening marks.now }
        ensures book { self.new.book ≡ self.old.book }
        ensures edits { edits_of self.new.editor ≡ edits_of self.old.editor }
        ensures steps { StepsAre (own_steps self.old.editor) (saw (length self.old.book.log) ∷ [])
            (own_steps self.new.editor) }
        ensures pass { IsSamePass pass.old pass.new }
        ensures behind { IsPrefix (log_of pass.new.seat) self.new.book.log }
        ensures seen { seen_of pass.new.seat ≤ length self.new.book.log }
        ensures room { vec_capacity pass.new.numbers ≡ vec_capacity pass.old.numbers }
    {
        entries_cross();
        subject_crosses();
        hear(marks, &mut self.editor, &mut pass.seat);
    }

    /// Makes an edit of the client ready, which changes nothing.
    fn prepare(&mut self, client: u32, edit: Edit) -> Result<Prepared, PrepareRefused>
        requires labels { HaveLabels (length N.opening.labels) edit }
        ensures prepared { IfOk result (IsPreparedFor N.opening self.new.book.log) }
        ensures entry { IfOk result (λ prepared. prepared.entry ≡ client_entry client edit) }
        ensures room { OnOk result (length edit ≤ self.new.book.spare) }
        ensures same { IsUnchanged live_pairs self.old.book self.new.book }
        ensures log { self.new.book.log ≡ self.old.book.log }
        ensures editor { self.new.editor ≡ self.old.editor }
        ensures out_of_sheet { (cell : Position) → IsFirstOutside N.opening edit cell
            → result ≡ Err (refused.OutOfSheet cell) }
        ensures why { IfErr result (IsCause N.opening self.new.book.log edit) }
    {
        let _ = self.book.length();
        self.book.prepare(client, edit)
    }

    /// Makes a prepared edit of the pass's client: marks, commits, and lets the pass know.
    fn make(
        &mut self,
        marks: &Marks<OverSheet>,
        sizes: Sizes,
        pass: &mut Pass<N>,
        prepared: Prepared,
    ) -> Applied
        requires words { AreWordsOf N.words N.opening marks.now }
        requires sizes { sizes ≡ N.opening.sizes }
        requires prepared { IsPreparedFor N.opening self.old.book.log prepared }
        requires entry { prepared.entry ≡ client_entry pass.old.client prepared.entry.edit }
        requires room { length prepared.entry.edit ≤ self.old.book.spare }
        requires space { vec_len pass.old.numbers < vec_capacity pass.old.numbers }
        requires behind { IsPrefix (log_of pass.old.seat) self.old.book.log }
        requires seen { seen_of pass.old.seat ≤ length self.old.book.log }
        ensures made { HasApplied prepared.entry self.old.book self.new.book }
        ensures steps { StepsAre (own_steps self.old.editor)
            (marks_of sizes prepared.entry prepared.number prepared.touched
            ++ committed prepared.entry prepared.number ∷ []) (own_steps self.new.editor) }
        ensures committed { IsCommitted prepared.entry.edit prepared.number self.old.book.log pass.old pass.new }
        ensures hand { pass.new.hand ≡ pass.old.hand }
        ensures number { result.number ≡ prepared.number }
        ensures touched { result.touched.items ≡ prepared.touched }
    {
        let Locked {
            book,
            editor,
            counted,
            desks: _,
            rest: _,
        } = self;
        entries_cross();
        subject_crosses();
        let applied = enter(marks, editor, book, sizes, prepared);
        counted.add(&mut pass.share, 1);
        learn(marks, &mut pass.seat, editor);
        pass.numbers.push_reserved(applied.number);
        applied
    }
}

impl<N: Naming> Locked<N> {
    /// Lets the pass know the log.
    fn tell(&mut self, marks: &Marks<OverSheet>, pass: &mut Pass<N>)
        requires words { AreWordsOf N.words N.opening marks.now }
        requires behind { IsPrefix (log_of pass.old.seat) self.old.book.log }
        ensures book { self.new.book ≡ self.old.book }
        ensures edits { edits_of self.new.editor ≡ edits_of self.old.editor }
        ensures steps { own_steps self.new.editor ≡ own_steps self.old.editor }
        ensures told { IsToldLog self.old.book.log pass.old pass.new }
    {
        entries_cross();
        subject_crosses();
        learn(marks, &mut pass.seat, &mut self.editor);
    }

    /// What a refused edit answers. Where the log is full, the pass is let know it.
    fn refuse(
        &mut self,
        marks: &Marks<OverSheet>,
        pass: &mut Pass<N>,
        refused: PrepareRefused,
    ) -> EditRefused
        requires words { AreWordsOf N.words N.opening marks.now }
        requires behind { IsPrefix (log_of pass.old.seat) self.old.book.log }
        ensures book { self.new.book ≡ self.old.book }
        ensures edits { edits_of self.new.editor ≡ edits_of self.old.editor }
        ensures steps { own_steps self.new.editor ≡ own_steps self.old.editor }
        ensures answer { IsRefusedAs self.old.book.log pass.old pass.new refused result }
    {
        match refused {
            PrepareRefused::OutOfSheet { cell } => EditRefused::OutOfSheet { cell },
            PrepareRefused::LogFull { length } => {
                self.tell(marks, pass);
                EditRefused::LogFull { length }
            }
            PrepareRefused::Memory => EditRefused::Memory,
        }
    }

    /// Makes room for the number of one more accepted edit.
    fn room(pass: &mut Pass<N>) -> Result<(), EditRefused>
        ensures same { IsSamePass pass.old pass.new }
        ensures behind { log_of pass.new.seat ≡ log_of pass.old.seat }
        ensures seen { seen_of pass.new.seat ≡ seen_of pass.old.seat }
        ensures space { OnOk result (vec_len pass.new.numbers < vec_capacity pass.new.numbers) }
        ensures refused { IfErr result (λ why. why ≡ refusal.Memory) }
    {
        match pass.numbers.reserve(1) {
            Ok(()) => Ok(()),
            Err(_) => Err(EditRefused::Memory),
        }
    }
}

impl<N: Naming> Locked<N> {
    /// Makes an edit of the pass's client, or refuses it. The cells that it touches are marked first, one after the
    /// other, and then it is committed; a refused edit marks and commits nothing. The pass then knows what the book
    /// has.
    pub(crate) fn edit(
        &mut self,
        marks: &Marks<OverSheet>,
        sizes: Sizes,
        pass: &mut Pass<N>,
        edit: Edit,
    ) -> Result<Applied, EditRefused>
        requires words { AreWordsOf N.words N.opening marks.now }
        requires sizes { sizes ≡ N.opening.sizes }
        requires labels { HaveLabels (length N.opening.labels) edit }
        ensures made { OnOk result (HasApplied (client_entry pass.old.client edit) self.old.book self.new.book) }
        ensures committed { IfOk result
            (λ applied. IsCommitted edit applied.number self.old.book.log pass.old pass.new) }
        ensures touched { IfOk result
            (λ applied. AreTouched N.opening self.old.book.log (client_entry pass.old.client edit)
            applied.touched.items) }
        ensures inside { IfOk result
            (λ applied. All (λ cell. IsTrue (is_inside N.opening.sizes cell)) applied.touched.items) }
        ensures hand { pass.new.hand ≡ pass.old.hand }
        ensures refused { IfErr result (IsRefusal N.opening edit pass.old pass.new) }
        ensures out_of_sheet { (cell : Position) → IsFirstOutside N.opening edit cell
            → result ≡ Err (refusal.OutOfSheet cell) }
        ensures book { OnErr result (IsUnchanged live_pairs self.old.book self.new.book) }
        ensures edits { OnErr result (edits_of self.new.editor ≡ edits_of self.old.editor) }
        ensures steps { OnErr result (StepsAre (own_steps self.old.editor)
            (saw (length self.old.book.log) ∷ []) (own_steps self.new.editor)) }
    {
        self.hear_pass(marks, pass);
        match self.prepare(pass.client, edit) {
            Ok(prepared) => {
                Locked::room(pass)?;
                Ok(self.make(marks, sizes, pass, prepared))
            }
            Err(refused) => Err(self.refuse(marks, pass, refused)),
        }
    }
}
