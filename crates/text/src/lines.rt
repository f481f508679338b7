// The lines of a text.
ghost use Rattle.std.specs.Prelude.{◌≡◌};
ghost use Rattle.std.specs.Iterator.{YieldsFirstBy, item_count};
ghost use Rattle.text.specs.Cuts.{closed};
ghost use Rattle.text.specs.Layers.{part_of, lines_left};

use crate::part::{Part, first_mark};

// The lines of a text that are left: what stands before each line feed. What stands behind the last is no line.
#[derive(Drop)]
pub struct Lines<'a> {
    text: &'a [u8],
    start: usize,
}

impl<'a> Lines<'a> {
    // All lines of a text, from the first.
    pub fn new(text: &'a [u8]) -> Lines<'a>
        ensures { lines_left result ≡ closed 10 0 text.entry.now }
    {
        Lines { text, start: 0 }
    }
}

impl<'a> Iterator for Lines<'a> {
    type Item = Part<'a>;

    ghost next_gives = { YieldsFirstBy part_of lines_left };

    ghost remaining = { item_count lines_left };

    fn next(&mut self) -> Option<Part<'a>> {
        let place = self.start;
        let rest = self.text.get(place..)?;
        let end = first_mark(rest, b'\n')?;
        self.start = place + end + 1;
        Some(Part {
            bytes: &rest[..end],
            place,
        })
    }
}
