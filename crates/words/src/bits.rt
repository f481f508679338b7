// The bits of a word: bit j is worth 2^j.
ghost use Rattle.std.specs.Prelude.{◌≡◌, ℕ, ◌^◌, ◌<◌, ◌≤◌};
ghost use Rattle.words.specs.Bits.{bit, ones};

// The bit at a place, 0 or 1; it is 0 past the word's end.
pub fn bit_at(word: u64, place: u32) -> u64
    ensures { result ≡ bit word place }
{
    if place < 64 { (word >> place) % 2 } else { 0 }
}

// How many of the first k bits are 1.
pub fn count_ones(word: u64, k: u32) -> u32
    ensures { result ≡ ones k word }
{
    (0..k).map(|place| bit_at(word, place) as u32).sum()
}

// The word of k bits whose bit at each place is the one that is told for it.
pub(crate) fn word_of<F: Fn(u32) -> u64>(k: u32, told: F) -> u64
    requires few { k ≤ 64 }
    requires callable { (place : ℕ) → place < k → F.pre told place }
    requires small { (place value : ℕ) → place < k → F.post told place value → value ≤ 1 }
    ensures bits { (place : ℕ) → place < k → F.post told place (bit result place) }
    ensures narrow { result < 2 ^ k }
{
    let mut word = 0;
    for place in 0..k {
        word += told(place) << place;
    }
    word
}
