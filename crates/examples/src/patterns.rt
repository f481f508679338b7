// Patterns, and a word rearranged.
ghost use Rattle.std.specs.Prelude.{◌≡◌};
ghost use Rattle.examples.specs.Words.{pattern_words, rearranged_word};

use words::patterns::Pattern;
use words::turns::{rearranged, turn};

// R(3,10), E(3,10), E(7,10), R(1,1) and E(1,1).
pub(crate) fn patterns() -> [Option<u64>; 5]
    ensures { result ≡ pattern_words }
{
    [
        Pattern::R.word(3, 10),
        Pattern::E.word(3, 10),
        Pattern::E.word(7, 10),
        Pattern::R.word(1, 1),
        Pattern::E.word(1, 1),
    ]
}

// By how many places 11001, bit 0 first, is turned to be rearranged, and the word that this gives.
pub(crate) fn turned() -> (u32, Option<u64>)
    ensures { result ≡ rearranged_word }
{
    (turn(0b1_0011, 5), rearranged(0b1_0011, 5))
}
