// A table text and a script in one text, parted by a line that is just a full stop.
ghost use Rattle.std.specs.Prelude.{ℕ, List, MatchOption};
ghost use Rattle.transcript.specs.Scripts.{Parts, FirstParts};

use text::lines::Lines;

// The table text and the script, before and behind the first line that is just `.`.
pub fn split_script(text: &[u8]) -> Option<(&[u8], &[u8])>
    ensures { MatchOption result ((table script : List ℕ) → Parts text.now table script → ⊥) (λ p. FirstParts text.now p.0.now p.1.now) }
{
    for line in Lines::new(text) {
        if line.bytes == b".".as_slice() {
            let (table, rest) = text.split_at(line.place);
            let (_, script) = rest.split_at(2);
            return Some((table, script));
        }
    }
    None
}
