ghost use Rattle.std.specs.Prelude.{◌≡◌, length, IfSome};
ghost use Rattle.sheet_refs.specs.Sizes.{cell_count};
ghost use Rattle.formula_eval.specs.Inputs.{IsCode};
ghost use Rattle.sheet_model.specs.Words.{AreWords, IsCodeWord, known_code, value_prop};
ghost use Rattle.std.proofs.Props.{props};

use formula_eval::{Block, Inputs};
use sheet_refs::{Cell, Range, Sizes};
use value_core::CodeWord;

/// The values that a walk knows, as an evaluation takes them.
#[derive(Clone, Copy)]
pub(crate) struct Known<'a> {
    sizes: Sizes,
    words: &'a [u64],
    ghost count: { length words.now ≡ cell_count sizes },
    ghost coded: { AreWords words.now } by { Prim.hlevel (props, value_prop) },
}

impl<'a> Known<'a> {
    /// These words, which are those of the cells of a rectangle of these sizes.
    pub(crate) fn new(sizes: Sizes, words: &'a [u64]) -> Known<'a>
        requires count { length words.now ≡ cell_count sizes }
        requires coded { AreWords words.now }
        ensures sizes { result.sizes ≡ sizes }
        ensures words { result.words.now ≡ words.now }
    {
        Known { sizes, words }
    }
}

impl<'a> Inputs for Known<'a> {
    ghost use Rattle.sheet_model.specs.Words.{known_codes};

    ghost sizes = { λ known. known.sizes };

    ghost codes = { λ known. known_codes known.sizes known.words.now };

    fn rows(&self) -> u32 {
        self.sizes.rows
    }

    fn cols(&self) -> u32 {
        self.sizes.cols
    }

    fn get(&self, cell: Cell) -> Option<u64> {
        code_of_word(self.words[self.sizes.place(cell)])
    }

    fn block(&self, range: Range) -> Option<Block<'_>> {
        let head = self.sizes.place(range.head());
        let words = &self.words[head..];
        let step = self.sizes.cols as usize;
        Some(Block { words, step })
    }
}

// The code that a word is, where it is one.
fn code_of_word(word: u64) -> Option<u64>
    requires { IsCodeWord word }
    ensures held { result ≡ known_code word }
    ensures code { IfSome result IsCode }
{
    if CodeWord::new(word).is_spare() {
        return None;
    }
    Some(word)
}
