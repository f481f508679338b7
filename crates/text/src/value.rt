// The values that fields write.
ghost use Rattle.std.specs.Prelude.{◌≡◌, ℕ, ◌^◌, ◌<◌, ◌≤◌, true, false, Bool, List, length, MatchOption};
ghost use Rattle.words.specs.Bits.{ones};
ghost use Rattle.tasks.specs.Bytes.{every};
ghost use Rattle.tasks.specs.Named.{name_bytes};
ghost use Rattle.text.specs.Forms.{binary, is_name, is_technique, is_number, is_pattern};
ghost use Rattle.text.specs.Values.{technique_of, number_of, bits_of, fits, field_word, SaysPattern};

use crate::number::number;
use tasks::name::Name;
use tasks::technique::Technique;
use words::bits::count_ones;
use words::patterns::Pattern;
use words::quota::Quota;

// A value that a field writes.
pub trait FieldValue: Sized {
    // Whether bytes have its form, and whether they write a value.
    ghost has_form: { List ℕ → Bool };

    ghost says: { List ℕ → Self → Type 0 };

    // The value that bytes write; none if they are against the form.
    fn from_bytes(bytes: &[u8]) -> Option<Self>
        ensures { MatchOption result (has_form bytes.now ≡ false) (λ v. (has_form bytes.now ≡ true) × says bytes.now v) };
}

// 1 to 8 letters, digits or underscores.
impl FieldValue for Name {
    ghost has_form = { is_name };

    ghost says = { λ bs n. name_bytes n ≡ bs };

    fn from_bytes(bytes: &[u8]) -> Option<Name> {
        Name::new(bytes)
    }
}

// One of the five words.
impl FieldValue for Technique {
    ghost has_form = { is_technique };

    ghost says = { λ bs t. t ≡ technique_of bs };

    fn from_bytes(bytes: &[u8]) -> Option<Technique> {
        Technique::named(bytes)
    }
}

// 1 to 7 digits, the first not 0.
impl FieldValue for u32 {
    ghost has_form = { is_number };

    ghost says = { λ bs n. (n ≡ number_of bs) × (1 ≤ n) × (n < 10000000) };

    #[tactic(auto, using(crate::proofs::Steps::number_value))]
    fn from_bytes(bytes: &[u8]) -> Option<u32> {
        match bytes {
            [] => None,
            [b'0', ..] => None,
            _ if bytes.len() <= 7 => number(bytes),
            _ => None,
        }
    }
}

// What the field of a pattern writes: a ready-made pattern, or the bits of a word, bit 0 first.
#[derive(Clone, Copy)]
pub enum PatternValue {
    Ready(Pattern),
    Bits { count: u32, word: u64 },
}

// The byte R, the byte E, or 1 to 64 bytes 0 and 1.
impl FieldValue for PatternValue {
    ghost has_form = { is_pattern };

    ghost says = { SaysPattern };

    fn from_bytes(bytes: &[u8]) -> Option<PatternValue> {
        match bytes {
            [b'R'] => Some(PatternValue::Ready(Pattern::R)),
            [b'E'] => Some(PatternValue::Ready(Pattern::E)),
            [_first, rest @ ..] if rest.len() < 64 => Some(PatternValue::Bits {
                count: rest.len() as u32 + 1,
                word: bits_word(bytes)?,
            }),
            _ => None,
        }
    }
}

impl PatternValue {
    // The word with the quota's ones and bits that the pattern stands for; none if it has other bits.
    pub(crate) fn word(self, quota: Quota) -> Option<u64>
        ensures { (bs : List ℕ) → SaysPattern bs self → MatchOption result (fits quota.m quota.k bs ≡ false) (λ w. (fits quota.m quota.k bs ≡ true) × (w ≡ field_word quota.m quota.k bs) × (ones quota.k w ≡ quota.m) × (w < 2 ^ quota.k)) }
    {
        match self {
            PatternValue::Ready(pattern) => Some(pattern.word_for(quota)),
            PatternValue::Bits { count, word } => {
                if count == quota.k && count_ones(word, quota.k) == quota.m {
                    Some(word)
                } else {
                    None
                }
            }
        }
    }
}

// The word that bits write, bit 0 first; none where a byte is neither 0 nor 1.
fn bits_word(bytes: &[u8]) -> Option<u64>
    requires { length bytes.now ≤ 64 }
    ensures { MatchOption result (every binary bytes.now ≡ false) (λ w. (every binary bytes.now ≡ true) × (w ≡ bits_of bytes.now) × (w < 2 ^ length bytes.now)) }
{
    match bytes {
        [] => Some(0),
        [b'0', rest @ ..] => Some(2 * bits_word(rest)?),
        [b'1', rest @ ..] => Some(1 + 2 * bits_word(rest)?),
        _ => None,
    }
}
