// The answer to a table text, as a value: what the program prints.
ghost use Rattle.std.specs.Prelude.{◌≡◌, ◌++◌, IfOk, OnOk, Some};
ghost use Rattle.tasks.specs.Lines.{names};
ghost use Rattle.tasks.specs.Named.{name_bytes};
ghost use Rattle.tasks.specs.Tables.{lines_of};
ghost use Rattle.report.specs.Answer.{figure_line, figure_lines, verdict_line, refusal_line, TheAnswer};

use policies::by_line::ByLine;
use response::figures::figures;
use std::alloc::{AllocError, Global};
use std::fmt;
use tasks::name::Name;
use tasks::refusal::Refusal;
use tasks::table::Table;
use text::read::read;

// Adds the number, name and figure of a line, parted by commas.
fn add_figure_line(
    out: &mut Vec<u8>,
    number: usize,
    name: &Name,
    figure: u32,
) -> Result<(), AllocError>
    ensures { OnOk result (out.new.items ≡ out.old.items ++ figure_line number (name_bytes name.now) figure) }
{
    // In three pieces, since names are bytes here and no text, and only text has `Display`.
    let heap = *out.allocator();
    let head = format!(in heap; "{number},")?;
    let tail = format!(in heap; ",{figure}\n")?;
    out.extend_from_slice(head.as_bytes())?;
    out.extend_from_slice(name.bytes())?;
    out.extend_from_slice(tail.as_bytes())?;
    Ok(())
}

#[tactic(auto, using(crate::proofs::Lines::figure_more, crate::proofs::Lines::figure_all))]
fn figure_lines(heap: Global, table: &Table, figures: &[u32; 32]) -> Result<Vec<u8>, AllocError>
    ensures { IfOk result (λ v. v.items ≡ figure_lines 1 (names (lines_of table.now)) figures.now) }
{
    let mut out = Vec::new(heap);
    for (i, (line, figure)) in table.lines().iter().zip(figures).enumerate() {
        add_figure_line(&mut out, i + 1, &line.name, *figure)?;
    }
    Ok(out)
}

// The line of a verdict.
pub fn verdict_line(admitted: bool) -> &'static str
    ensures { result.now ≡ verdict_line admitted }
{
    if admitted { "admitted\n" } else { "rejected\n" }
}

// The line of a refusal: its number, line and place.
#[derive(Clone, Copy)]
pub struct RefusalLine(pub Refusal);

impl fmt::Display for RefusalLine {
    ghost output = { λ l. Some (refusal_line l.0) };

    fn fmt<W: fmt::Write>(&self, f: &mut fmt::Formatter<W>) -> fmt::Result {
        let (number, line, place) = self.0.told();
        write!(f, "refused,{number},{line},{place}\n")
    }
}

// The line of a refusal. Want of memory is the only error.
pub fn refused(heap: Global, refusal: Refusal) -> Result<Vec<u8>, AllocError>
    ensures { IfOk result (λ v. v.items ≡ refusal_line refusal) }
{
    let line = RefusalLine(refusal).to_string(heap)?;
    Ok(line.into_bytes())
}

// The whole answer to a text: number, name and figure of each line under the by-line policy and then the verdict,
// each in a line; or the line of the refusal. Want of memory is the only error.
pub fn report(heap: Global, text: &[u8]) -> Result<Vec<u8>, AllocError>
    ensures { IfOk result (λ v. TheAnswer text.now v.items) }
{
    let mut table = Table::new();
    let mut places = [0; 32];
    if let Err(refusal) = read(&mut table, text) {
        return refused(heap, refusal);
    }
    match figures(&ByLine {}, &table, &mut places) {
        Ok(admitted) => {
            let mut out = figure_lines(heap, &table, &places)?;
            out.extend_from_slice(verdict_line(admitted).as_bytes())?;
            Ok(out)
        }
        Err(refusal) => refused(heap, refusal),
    }
}
