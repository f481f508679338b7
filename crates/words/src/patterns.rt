// The two ready-made patterns: words told by m and k alone, with m ones of k bits.
ghost use Rattle.std.specs.Prelude.{◌≡◌, ℕ, ◌<◌, ◌≤◌, MatchOption};
ghost use Rattle.words.specs.Patterns.{Window, pattern_bit, Follows};

use crate::bits::word_of;
use crate::quota::Quota;

#[derive(Clone, Copy, PartialEq, Eq, Debug)]
pub enum Pattern {
    // the ones last
    R,
    // the zeros spread evenly
    E,
}

impl Pattern {
    // The pattern's word with m ones of k bits; none unless 1 ≤ m ≤ k ≤ 64.
    pub fn word(self, m: u32, k: u32) -> Option<u64>
        ensures { MatchOption result (Window m k → ⊥) (λ w. Window m k × Follows self m k w) }
    {
        Quota::new(m, k).map(|quota| self.word_for(quota))
    }

    // The pattern's word with the quota's ones and bits.
    pub fn word_for(self, quota: Quota) -> u64
        ensures { Follows self quota.m quota.k result }
    {
        word_of(quota.k, |place| self.bit(quota, place))
    }

    fn bit(self, quota: Quota, place: u32) -> u64
        requires { place < quota.k }
        ensures { result ≡ pattern_bit self quota.m quota.k place }
    {
        let zeros = quota.k - quota.m;
        match self {
            Pattern::R => u64::from(place >= zeros),
            Pattern::E if zeros == 0 => 1,
            Pattern::E => {
                let count = (place * zeros + (quota.k - 1)) / quota.k;
                u64::from(place != count * quota.k / zeros)
            }
        }
    }
}
