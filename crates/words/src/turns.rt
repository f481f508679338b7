// A word turned left, going round its k bits, and the turn that rearranges it. The word and k are two parameters and no struct:
// each may be any number, so a struct would keep no fact of them, and whoever calls has them apart.
ghost use Rattle.std.specs.Prelude.{◌≡◌, ℕ, ◌<◌, ◌≤◌, MatchOption};
ghost use Rattle.words.specs.Turns.{falls_at, turn_of, Rearranges, Turned};

use crate::bits::{bit_at, word_of};

// Bit `place` is 0, and the bit before it, going round, is 1.
fn falls(word: u64, k: u32, place: u32) -> bool
    requires { place < k }
    ensures { result ≡ falls_at word k place }
{
    let before = if place == 0 { k - 1 } else { place - 1 };
    bit_at(word, place) == 0 && bit_at(word, before) == 1
}

// By how many places a word of k bits is turned to be rearranged.
pub fn turn(word: u64, k: u32) -> u32
    ensures is { result ≡ turn_of word k }
    ensures rearranges { Rearranges word k result }
{
    (0..k).find(|place| falls(word, k, *place)).unwrap_or(0)
}

// The word of k bits turned left by any number of places; none unless 1 ≤ k ≤ 64.
pub fn turned(word: u64, k: u32, by: u32) -> Option<u64>
    ensures { MatchOption result ((1 ≤ k) × (k ≤ 64) → ⊥) (λ w. (1 ≤ k) × (k ≤ 64) × Turned word k by w) }
{
    if k < 1 || k > 64 {
        return None;
    }
    let by = by % k;
    Some(word_of(k, |place| bit_at(word, (place + by) % k)))
}

// The word of k bits turned left by its turn; none unless 1 ≤ k ≤ 64.
pub fn rearranged(word: u64, k: u32) -> Option<u64>
    ensures { MatchOption result ((1 ≤ k) × (k ≤ 64) → ⊥) (λ w. (1 ≤ k) × (k ≤ 64) × Turned word k (turn_of word k) w) }
{
    turned(word, k, turn(word, k))
}

#[cfg(test)]
mod tests {
    use crate::patterns::Pattern;
    use crate::quota::Quota;
    use crate::turns::{rearranged, turn};

    // Words are written with bit 0 last here: R(3,10) is 0000000111, bit 0 first.
    #[test]
    fn worked_examples(rt: HostRuntime) {
        assert_eq!(rt; Pattern::R.word(3, 10), Some(0b11_1000_0000));
        assert_eq!(rt; Pattern::E.word(3, 10), Some(0b10_0100_1000));
        assert_eq!(rt; Pattern::E.word(5, 10), Some(0b10_1010_1010));
        assert_eq!(rt; Pattern::E.word(7, 10), Some(0b11_1011_0110));
        assert_eq!(rt; Pattern::R.word(1, 1), Some(1));
        assert_eq!(rt; Pattern::E.word(1, 1), Some(1));
        assert_eq!(rt; Pattern::R.word(1, 65), None);
        assert_eq!(rt;
            Quota::new(5, 10).map(|quota| Pattern::E.word_for(quota)),
            Some(0b10_1010_1010)
        );
        assert_eq!(rt; Quota::new(2, 1), None);
        assert_eq!(rt; turn(0b1_0011, 5), 2);
        assert_eq!(rt; rearranged(0b1_0011, 5), Some(0b1_1100));
    }
}
