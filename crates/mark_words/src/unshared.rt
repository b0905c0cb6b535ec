#![tactic(auto)]

ghost use Rattle.std.specs.Prelude.{◌≡◌, ◌<◌, ◌∷◌, true, All, IfOk, IsOk};
ghost use Rattle.mark_words.specs.Closed.{HasClosed, ArePrefixes, AreLegal};
ghost use Rattle.mark_words.specs.Tokens.{IsSeatOf, is_editor, closed_places, closed_place};

use crate::closing::{Kept, Words};
use crate::codes::clean_of;
use crate::marks::Marks;
use crate::plays::{Copies, Gathers};
use crate::seats::Seat;
use mark_core::{Clean, Subject};

impl<S: Subject> Words<S> {
    /// The mark of the place.
    pub fn mark(&self, place: u32) -> u64
        requires { place < closed_places self.now }
        ensures { result ≡ (closed_place self.now place).mark }
    {
        self.closed.word(3 * place as usize + 1)
    }

    /// The clean word of the place.
    pub fn clean(&self, place: u32) -> Clean
        requires { place < closed_places self.now }
        ensures { result ≡ (closed_place self.now place).clean }
    {
        clean_of(self.closed.word(3 * place as usize + 2))
    }

    /// The value of the place.
    pub fn value(&self, place: u32) -> u64
        requires { place < closed_places self.now }
        ensures { result ≡ (closed_place self.now place).value }
    {
        self.closed.word(3 * place as usize + 3)
    }
}

impl<S: Subject> Marks<S> {
    /// The words as they stand, with the seats handed in. One step for each seat. It takes no memory, so it always
    /// answers Ok. The Err is for a closing that takes some: it would hand all back, with no seat joined.
    pub fn close(self, editor: Seat<S>, others: Vec<Seat<S>>) -> Result<Words<S>, Kept<S>>
        requires table { IsSeatOf self editor }
        requires editor { is_editor editor ≡ true }
        requires tables { All (λ other. IsSeatOf self other) others.items }
        ensures ok { IsOk result }
        ensures closed { IfOk result
            (λ words. HasClosed S.places S.worth S.touches self editor others.items words) }
        ensures prefixes { IfOk result (λ words. ArePrefixes others.items words) }
        ensures legal { IfOk result
            (λ _. AreLegal S.worth S.touches self editor (editor ∷ others.items)) }
    {
        let Marks { table } = self;
        let Seat {
            seat: mut all,
            editor_marks,
        } = editor;
        let Some(own) = editor_marks else {
            unreachable!()
        };
        let places = own.marks.len();
        let witness = table.shared.split_seat::<Copies>(&mut all);
        let mut others = others;
        while let Some(other) = others.pop() {
            let Seat {
                seat,
                editor_marks: _,
            } = other;
            table.shared.join_seat::<Gathers>(&mut all, seat);
        }
        let closed = table.close_with(all);
        Ok(Words {
            closed,
            places,
            witness,
        })
    }
}
