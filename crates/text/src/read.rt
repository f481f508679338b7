// The table layer: lines ended by line feeds, held to the lines above them.
ghost use Rattle.std.specs.Prelude.{◌≡◌, ℕ, ◌+◌, ◌<◌, ◌≤◌, ◌&&◌, [], length, Ok, Err, MatchResult, ◌==◌, nat_le};
ghost use Rattle.tasks.specs.Rows.{rows_of};
ghost use Rattle.text.specs.Cuts.{last_byte, lines_in};
ghost use Rattle.text.specs.Reading.{with_line, with_lines, reading, Reads};
ghost use Rattle.text.specs.Law.{Accepts};
ghost use Rattle.text.specs.Layers.{part_of, Within};

use crate::line::split_fields;
use crate::lines::Lines;
use crate::part::Part;
use tasks::refusal::Refusal;
use tasks::table::Table;
use tasks::tables::Unfit;

// The largest text, in bytes.
pub const LONGEST: usize = 8192;

// The most lines of a table.
pub const MOST: usize = 32;

// Adds the line that a part of the text says.
fn add<'a>(table: &mut Table, text: Part<'a>) -> Result<(), Refusal>
    requires { Within text }
    ensures { MatchResult result (λ _. with_line (rows_of table.old) (part_of text.entry) ≡ Ok (rows_of table.new)) (λ e. with_line (rows_of table.old) (part_of text.entry) ≡ Err e) }
{
    // The number of lines is tested before the line's own faults, and so not left to `push`, which tests it again and then
    // cannot find the table full.
    let count = table.lines().len();
    if count >= MOST {
        return Err(Refusal::TooManyLines { place: text.place });
    }
    let fields = split_fields(text, count as u32 + 1)?;
    let read = fields.line()?;
    match table.push(read) {
        Ok(()) => Ok(()),
        Err(Unfit::Full) => unreachable!(),
        Err(Unfit::NameUsed) => Err(Refusal::NameUsed {
            line: fields.number,
            place: fields.name.place,
        }),
        Err(Unfit::PeriodFalls) => Err(Refusal::PeriodFalls {
            line: fields.number,
            place: fields.period.place,
        }),
    }
}

// Fills a table with the lines of a text, whatever it held before.
fn fill(table: &mut Table, text: &[u8]) -> Result<(), Refusal>
    requires small { length text.now ≤ 8192 }
    requires fed { last_byte text.now ≡ 10 }
    ensures { MatchResult result (λ _. with_lines [] (lines_in text.now) ≡ Ok (rows_of table.new)) (λ e. with_lines [] (lines_in text.now) ≡ Err e) }
{
    *table = Table::new();
    for line in Lines::new(text) {
        add(table, line)?;
    }
    Ok(())
}

// At most LONGEST bytes, the last a line feed.
fn is_text(text: &[u8]) -> bool
    ensures { result ≡ (nat_le (length text.now) 8192 && last_byte text.now == 10) }
{
    text.len() <= LONGEST && matches!(text, [.., b'\n'])
}

// The rules of the text first, then the lines.
fn load(table: &mut Table, text: &[u8]) -> Result<(), Refusal>
    ensures { MatchResult result (λ _. reading text.now ≡ Ok (rows_of table.new)) (λ e. reading text.now ≡ Err e) }
{
    if !is_text(text) {
        return Err(Refusal::Text);
    }
    fill(table, text)
}

// Reads a text into a table, whatever it held before; after a refusal the table has no lines.
pub fn read(table: &mut Table, text: &[u8]) -> Result<(), Refusal>
    ensures says { Reads text.now result table.new }
    ensures accepts { Accepts text.now result table.new }
{
    let answer = load(table, text);
    if answer.is_err() {
        *table = Table::new();
    }
    answer
}
