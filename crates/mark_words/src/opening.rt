#![tactic(auto)]

ghost use Rattle.std.specs.Prelude.{◌≡◌, ◌≤◌, ◌++◌, ◌∷◌, []};
ghost use Rattle.std.specs.Prelude.{Option, length, map, IfOk, OnOk};
ghost use Rattle.mark_core.specs.Runs.{IsOpening};
ghost use Rattle.mark_words.specs.Words.{opening_words};
ghost use Rattle.mark_words.specs.Opened.{HasOpened};

use crate::listed::Codes;
use crate::marks::Marks;
use crate::seats::{EditorMarks, Seat};
use crate::tables::{MarkTable, Topic};
use atomic_table::Table;
use mark_core::{Memory, Subject};
use std::alloc::{AllocError, Global};
use std::snapshot::Snapshot;

impl<S: Subject> Marks<S> {
    /// The words of a new table, and the editor's seat. Each place has the code that `opening` gives, or none: then its
    /// value is 0, computed for no mark. One step for each place. After `Memory` the subject is dropped.
    pub fn open(
        alloc: Global,
        subject: S,
        opening: &[Option<u64>],
    ) -> Result<(Marks<S>, Seat<S>), Memory>
        requires few { length opening.now ≤ 1048576 }
        requires right { IsOpening (S.places subject) (S.worth subject) opening.now }
        ensures { IfOk result (λ r. HasOpened S.places subject opening.now r.0 r.1) }
    {
        let words = first_words(alloc, opening)?;
        let marks = first_marks(alloc, opening)?;
        let topic = Topic {
            subject: Snapshot::of(&subject),
            opening: Snapshot::of(&Codes::of(&words, opening)),
        };
        let (table, seat) = MarkTable::<S>::of_words(alloc, &words, &topic)?;
        let editor_marks = Some(EditorMarks { count: 0, marks });
        Ok((Marks { table }, Seat { seat, editor_marks }))
    }
}

/// The count of commits, and the words of each place.
fn first_words(alloc: Global, opening: &[Option<u64>]) -> Result<Vec<u64>, AllocError>
    requires { length opening.now ≤ 1048576 }
    ensures { IfOk result (λ words. words.items ≡ 0 ∷ opening_words opening.now) }
{
    let mut words = Vec::with_capacity(alloc, 3 * opening.len() + 1)?;
    words.push(0)?;
    for code in opening {
        push_place(&mut words, *code)?;
    }
    Ok(words)
}

/// One more place's words.
fn push_place(words: &mut Vec<u64>, code: Option<u64>) -> Result<(), AllocError>
    ensures { OnOk result (words.new.items ≡ words.old.items ++ opening_words (code ∷ [])) }
{
    words.push(0)?;
    match code {
        None => {
            words.push(0)?;
            words.push(0)?;
        }
        Some(value) => {
            words.push(2)?;
            words.push(value)?;
        }
    }
    Ok(())
}

/// The mark of each place.
fn first_marks(alloc: Global, opening: &[Option<u64>]) -> Result<Vec<u64>, AllocError>
    ensures { IfOk result (λ marks. marks.items ≡ map (λ code. 0) opening.now) }
{
    opening.iter().map(|_| 0).collect(alloc)
}
