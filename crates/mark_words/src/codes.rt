#![tactic(auto)]

ghost use Rattle.std.specs.Prelude.{◌≡◌, ◌<◌, ◌^◌};
ghost use Rattle.mark_words.specs.Words.{clean_at, word_of_clean};

use mark_core::Clean;

/// The clean word that a word stands for.
pub(crate) fn clean_of(word: u64) -> Clean
    ensures { result ≡ clean_at word }
{
    Clean {
        upto: word / 2,
        held: word % 2 == 1,
    }
}

/// The word that stands for a clean word.
pub(crate) fn word_of(clean: Clean) -> u64
    requires { clean.upto < 2 ^ 63 }
    ensures { result ≡ word_of_clean clean }
{
    if clean.held {
        2 * clean.upto + 1
    } else {
        2 * clean.upto
    }
}
