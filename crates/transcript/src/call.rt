// The call that a line of a script says.
ghost use Rattle.std.specs.Prelude.{◌≡◌, ℕ, List, [], ◌∷◌, ◌++◌, MatchOption};
ghost use Rattle.service.specs.declared.log.Call.{Call};
ghost use Rattle.text.specs.Cuts.{count};
ghost use Rattle.text.specs.Values.{number_of};
ghost use Rattle.transcript.specs.Calls.{Numeral, Follows, Says};

use service::log::Call;
use tasks::table::Table;
use text::number;
use text::part::first_mark;

// The longest line that says a call: `release`, a space and nine digits.
const LONGEST_CALL: usize = 17;

// The number that 1 to 9 digits write.
#[tactic(auto, using(crate::proofs::Saying::number_is))]
fn number(digits: &[u8]) -> Option<u32>
    ensures { MatchOption result (Numeral digits.now → ⊥) (λ n. Numeral digits.now × (n ≡ number_of digits.now)) }
{
    if digits.is_empty() || digits.len() > 9 {
        return None;
    }
    number::number(digits)
}

// The word before the first space, and the number behind it, to the end of the line.
fn word_and_number(line: &[u8]) -> Option<(&[u8], u32)>
    ensures { MatchOption result ((word : List ℕ) (n : ℕ) → count 32 word ≡ 0 → Follows line.now (word ++ (32 ∷ [])) n → ⊥) (λ p. (count 32 p.0.now ≡ 0) × Follows line.now (p.0.now ++ (32 ∷ [])) p.1) }
{
    let space = first_mark(line, b' ')?;
    Some((&line[..space], number(&line[space + 1..])?))
}

// The call that a line, without its line feed, says; `open` opens the table.
pub fn call_on(line: &[u8], table: &Table) -> Option<Call>
    ensures { MatchOption result ((c : Call) → Says table.now line.now c → ⊥) (λ c. Says table.now line.now c × ((other : Call) → Says table.now line.now other → other ≡ c)) }
{
    if line == b"open".as_slice() {
        return Some(Call::Open { table: *table });
    }
    // Of a longer line, the space is not looked for.
    if line.len() > LONGEST_CALL {
        return None;
    }
    let (word, number) = word_and_number(line)?;
    // A chain of tests: a match on byte strings proves where a word says one value, but here, where no other call may be said
    // either, it left a goal for each byte that may differ.
    if word == b"release".as_slice() {
        Some(Call::Release { task: number })
    } else if word == b"tick".as_slice() {
        Some(Call::Tick { word: number })
    } else if word == b"counts".as_slice() {
        Some(Call::Counts { task: number })
    } else if word == b"figure".as_slice() {
        Some(Call::Figure { task: number })
    } else {
        None
    }
}
