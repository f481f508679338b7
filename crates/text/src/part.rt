// Parts of a text, each with its place.
ghost use Rattle.std.specs.Prelude.{◌≡◌, ◌==◌, position, count_by};
ghost use Rattle.tasks.specs.declared.refusal.Refusal.TheVariants as refusal;
ghost use Rattle.text.specs.Layers.{part_of, Within, Held, Cut};

use crate::value::FieldValue;
use tasks::refusal::Refusal;

// Where the first mark stands.
pub fn first_mark(bytes: &[u8], mark: u8) -> Option<usize>
    ensures { result ≡ position (λ b. b == mark) bytes.now }
{
    bytes.iter().position(|byte| *byte == mark)
}

// Bytes of the text, and the place of the first. That the bytes lie within the largest text (`Within` in clauses) is no ghost
// field: a part may be made of any bytes and any place. Nor has a part the number of its line, since not all parts lie in one.
#[derive(Clone, Copy)]
pub struct Part<'a> {
    pub bytes: &'a [u8],
    pub place: usize,
}

impl<'a> Part<'a> {
    // How many of the bytes are a mark.
    pub(crate) fn marks(self, mark: u8) -> usize
        ensures { result ≡ count_by (λ b. b == mark) self.entry.bytes.now }
    {
        self.bytes.iter().filter(|byte| **byte == mark).count()
    }

    // What stands before the first mark, and what follows it; nothing follows where there is no mark.
    pub(crate) fn cut(self, mark: u8) -> (Part<'a>, Part<'a>)
        ensures { Within self.entry → Cut mark (part_of self.entry) (part_of result.0) (part_of result.1) }
    {
        let Part { bytes, place } = self;
        match first_mark(bytes, mark) {
            Some(at) => (
                Part {
                    bytes: &bytes[..at],
                    place,
                },
                Part {
                    bytes: &bytes[at + 1..],
                    place: place.saturating_add(at + 1),
                },
            ),
            None => (
                self,
                Part {
                    bytes: &[],
                    place: place.saturating_add(bytes.len()),
                },
            ),
        }
    }

    // The value that a field of the line with a number writes; a field against its form is refused at its place.
    pub fn read<T: FieldValue>(self, line: u32) -> Result<T, Refusal>
        ensures { Held result (T.has_form self.entry.bytes.now) (refusal.Form line self.entry.place) (T.says self.entry.bytes.now) }
    {
        let Part { bytes, place } = self;
        T::from_bytes(bytes).ok_or(Refusal::Form { line, place })
    }

    // The refusal of a value that is against a rule of the line with a number.
    pub(crate) fn unlawful(self, line: u32) -> Refusal
        ensures { result ≡ refusal.Value line self.entry.place }
    {
        let place = self.place;
        Refusal::Value { line, place }
    }

    // A value against a rule is refused at its field.
    pub(crate) fn rule(self, kept: bool, line: u32) -> Result<(), Refusal>
        ensures { Held result kept (refusal.Value line self.entry.place) (λ _. Unit {0}) }
    {
        if kept {
            Ok(())
        } else {
            Err(self.unlawful(line))
        }
    }
}
