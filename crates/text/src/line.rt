// The line layer: nine fields, parted by commas, held to the rules of a line.
ghost use Rattle.std.specs.Prelude.{◌≡◌, ◌≤◌, true, false, ◌&&◌, ◌++◌, length, ◌==◌, nat_le, MatchResult};
ghost use Rattle.tasks.specs.Rows.{row_of};
ghost use Rattle.tasks.specs.declared.refusal.Refusal.TheVariants as refusal;
ghost use Rattle.text.specs.Cuts.{fields_in};
ghost use Rattle.text.specs.Rules.{head_rules, time_rules};
ghost use Rattle.text.specs.Reading.{row_said};
ghost use Rattle.text.specs.Layers.{part_of, Within, Held, Says, nine, HeadSays, TimesSay};

use crate::part::Part;
use crate::value::PatternValue;
use tasks::line::{Line, Times};
use tasks::name::Name;
use tasks::refusal::Refusal;
use tasks::technique::Technique;
use words::quota::Quota;

// The fields of a line, in order, and the number of the line.
#[derive(Clone, Copy)]
pub struct Fields<'a> {
    pub number: u32,
    pub name: Part<'a>,
    pub technique: Part<'a>,
    pub m: Part<'a>,
    pub k: Part<'a>,
    pub pattern: Part<'a>,
    pub bare: Part<'a>,
    pub detect: Part<'a>,
    pub correct: Part<'a>,
    pub period: Part<'a>,
}

// What the first five fields say.
#[derive(Clone, Copy)]
pub(crate) struct Head {
    pub name: Name,
    pub technique: Technique,
    pub quota: Quota,
    pub word: u64,
}

// The nine fields of the line with a number; a line with other fields is refused at its first byte.
pub fn split_fields<'a>(text: Part<'a>, number: u32) -> Result<Fields<'a>, Refusal>
    ensures { Within text.entry → Held result (length (fields_in (part_of text.entry)) == 9) (refusal.FieldCount number text.entry.place) (λ f. (fields_in (part_of text.entry) ≡ nine f) × (f.number ≡ number)) }
{
    if text.marks(b',') != 8 {
        return Err(Refusal::FieldCount {
            line: number,
            place: text.place,
        });
    }
    let (name, rest) = text.cut(b',');
    let (technique, rest) = rest.cut(b',');
    let (m, rest) = rest.cut(b',');
    let (k, rest) = rest.cut(b',');
    let (pattern, rest) = rest.cut(b',');
    let (bare, rest) = rest.cut(b',');
    let (detect, rest) = rest.cut(b',');
    let (correct, period) = rest.cut(b',');
    Ok(Fields {
        number,
        name,
        technique,
        m,
        k,
        pattern,
        bare,
        detect,
        correct,
        period,
    })
}

impl<'a> Fields<'a> {
    // The quota of m and k; where k is below m or above 64, it is refused at its field.
    fn quota(self, m: u32, k: u32) -> Result<Quota, Refusal>
        requires { 1 ≤ m }
        ensures { MatchResult result (λ q. (nat_le m k ≡ true) × (nat_le k 64 ≡ true) × (q.m ≡ m) × (q.k ≡ k)) (λ e. (e ≡ refusal.Value self.entry.number self.entry.k.place) × (nat_le m k && nat_le k 64 ≡ false)) }
    {
        Quota::new(m, k).ok_or(self.k.unlawful(self.number))
    }

    // The first five fields, each held to its form and rules from the left.
    fn head(self) -> Result<Head, Refusal>
        ensures { Says result (head_rules self.entry.number (nine self.entry)) (HeadSays self.entry) }
    {
        let line = self.number;
        let name = self.name.read(line)?;
        let technique = self.technique.read(line)?;
        let m = self.m.read(line)?;
        let k = self.k.read(line)?;
        let quota = self.quota(m, k)?;
        let pattern: PatternValue = self.pattern.read(line)?;
        let Some(word) = pattern.word(quota) else {
            return Err(self.pattern.unlawful(line));
        };
        Ok(Head {
            name,
            technique,
            quota,
            word,
        })
    }

    // The times of the versions and the period, in the same way.
    fn times(self) -> Result<(Times, u32), Refusal>
        ensures { Says result (time_rules self.entry.number (nine self.entry)) (λ t. TimesSay self.entry t.0 t.1) }
    {
        let line = self.number;
        let bare = self.bare.read(line)?;
        let detect = self.detect.read(line)?;
        self.detect.rule(bare < detect, line)?;
        let correct = self.correct.read(line)?;
        self.correct.rule(detect < correct, line)?;
        let period = self.period.read(line)?;
        self.period.rule(correct <= period, line)?;
        self.period.rule(period <= 1_000_000, line)?;
        Ok((
            Times {
                bare,
                detect,
                correct,
            },
            period,
        ))
    }

    // The line that the fields say.
    pub(crate) fn line(self) -> Result<Line, Refusal>
        ensures { Says result (head_rules self.entry.number (nine self.entry) ++ time_rules self.entry.number (nine self.entry)) (λ l. row_of l ≡ row_said (nine self.entry)) }
    {
        let h = self.head()?;
        let (times, period) = self.times()?;
        let Quota { m, k } = h.quota;
        // The rules that `new` tests were kept above, each at its field, and it is proved that there is a line.
        Ok(Line::new(h.name, h.technique, m, k, h.word, times, period).unwrap())
    }
}
