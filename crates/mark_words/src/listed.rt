ghost use Rattle.std.specs.Prelude.{List, Option, ℕ};
ghost use Rattle.mark_words.specs.Words.{codes_of_words};

use std::marker::Model;
use std::snapshot::Snapshot;

/// The code that each place opened with, or none, as clauses read them in the words that a table opens with. It takes
/// no memory.
#[derive(Drop)]
pub struct Codes {
    words: Snapshot<Vec<u64>>,
}

impl Model for Codes {
    ghost Value = { List (Option ℕ) };

    ghost view = { λ codes. codes_of_words codes.words.value.items };
}

impl Codes {
    ghost use Rattle.std.specs.Prelude.{◌≡◌, ◌∷◌};
    ghost use Rattle.mark_words.specs.Words.{opening_words};

    /// The codes of a list, from the words that a table opens with for them.
    pub(crate) fn of(words: &Vec<u64>, _codes: &[Option<u64>]) -> Codes
        requires { words.now.items ≡ 0 ∷ opening_words _codes.now }
        ensures { result ≡ _codes.now }
    {
        Codes {
            words: Snapshot::of(words),
        }
    }
}
