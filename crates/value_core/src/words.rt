ghost use Rattle.std.specs.Prelude.{◌≡◌, ◌≤◌, ◌==◌, ◌↔◌};
ghost use Rattle.value_core.specs.declared.value.ErrorKind.TheVariants.{Circ};
ghost use Rattle.value_core.specs.declared.value.Value.TheVariants.{Error};
ghost use Rattle.value_core.specs.Codes.{IsNumberWord, is_spare, number_of_word};
ghost use Rattle.value_core.specs.Values.{code_of};

use crate::codes::SHIFT;
use std::marker::Model;

/// A word that tells what is known of a cell: the code of its value, or one of two words that no value has as its code.
/// Each of its tests looks at the bits alone and takes the same few steps for any word.
#[derive(Clone, Copy, Debug, PartialEq, Eq)]
pub struct CodeWord {
    word: u64,
}

impl Model for CodeWord {
    ghost use Rattle.std.specs.Prelude.{ℕ, ◌<◌, ◌^◌};

    ghost Value = { ℕ };

    ghost view = { λ w. w.word };

    ghost invariant = { λ w. w.word < 2 ^ 64 };

    ghost inverse = { λ n. record { word = n } };
}

impl CodeWord {
    /// The word of a cell that wasn't looked at. No value has it as its code.
    pub const UNSEEN: CodeWord = CodeWord { word: 5 };

    /// The word of a cell that waits for the value of another one. No value has it as its code.
    pub const OPEN: CodeWord = CodeWord { word: 6 };

    /// The code of `#CIRC!`.
    pub const CIRCULAR: CodeWord = CodeWord { word: 59 };

    /// This word.
    #[inline(always)]
    pub fn new(word: u64) -> CodeWord
        ensures { result ≡ word }
    {
        CodeWord { word }
    }

    /// The word itself.
    #[inline(always)]
    pub fn get(self) -> u64
        ensures { result ≡ self }
    {
        self.word
    }

    /// Whether it is the word of a cell that wasn't looked at or waits for another one, and so the code of no value.
    #[inline(always)]
    pub fn is_spare(self) -> bool
        ensures { result ≡ is_spare self }
    {
        self.word == CodeWord::UNSEEN.word || self.word == CodeWord::OPEN.word
    }

    /// Whether it is the code of `#CIRC!`.
    #[inline(always)]
    pub fn is_circular(self) -> bool
        ensures { result ≡ (self == code_of (Error Circ)) }
    {
        self.word == CodeWord::CIRCULAR.word
    }

    /// 0 where it has the kind of a number, from 1 to 7 where it has that of another value or of none. A sum of them
    /// tells whether all of many words are those of numbers, and no word decides which way a loop goes.
    #[inline(always)]
    pub fn off_number(self) -> u64
        ensures number { result ≡ 0 ↔ IsNumberWord self }
        ensures small { result ≤ 7 }
    {
        (self.word % 8 + 7) % 8
    }

    /// The number for which it stands where it has the kind of one; of no meaning elsewhere.
    #[inline(always)]
    pub fn number(self) -> i64
        ensures { result ≡ number_of_word self }
    {
        (self.word / 8) as i64 - SHIFT
    }
}
