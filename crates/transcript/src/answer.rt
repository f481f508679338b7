// The lines that tell what calls were answered, and how the tasks stand.
ghost use Rattle.std.specs.Prelude.{◌≡◌, ◌++◌, OnOk, OnErr, Some};
ghost use Rattle.transcript.specs.Answers.{answer_line, task_line};

use report::report::{RefusalLine, verdict_line};
use service::log::{Answer, Reply};
use std::alloc::AllocError;
use std::fmt;

// The line of an answer.
#[derive(Clone, Copy)]
pub struct AnswerLine<'a>(pub &'a Answer);

impl fmt::Display for AnswerLine<'_> {
    ghost output = { λ l. Some (answer_line l.0.now) };

    fn fmt<W: fmt::Write>(&self, f: &mut fmt::Formatter<W>) -> fmt::Result {
        match self.0 {
            Ok(Reply::Opened { admitted }) => f.write_str(verdict_line(*admitted)),
            Ok(Reply::Planned { plan }) => write!(f, "{plan}\n"),
            Ok(Reply::Ticked { task, outcome }) => write!(f, "{task},{outcome}\n"),
            Ok(Reply::Counted { releases, ends }) => write!(f, "{releases},{ends}\n"),
            Ok(Reply::Figured { figure }) => write!(f, "{figure}\n"),
            Err(refusal) => RefusalLine(*refusal).fmt(f),
        }
    }
}

// Adds the line of an answer. Want of memory is the only error, and then nothing is added. That a text is made and its bytes
// are added stands in each function that does so: two steps, and one function for them would ask for what it prints in its
// contract.
pub fn push_answer(out: &mut Vec<u8>, answer: &Answer) -> Result<(), AllocError>
    ensures ok { OnOk result (out.new.items ≡ out.old.items ++ answer_line answer.now) }
    ensures err { OnErr result (out.new.items ≡ out.old.items) }
{
    let line = AnswerLine(answer).to_string(*out.allocator())?;
    out.extend_from_slice(line.as_bytes())
}

// Adds the line of a task: its number, releases, ends and figure. Want of memory is the only error, and then nothing is added.
pub fn push_task(
    out: &mut Vec<u8>,
    number: u32,
    releases: u64,
    ends: u64,
    figure: u32,
) -> Result<(), AllocError>
    ensures ok { OnOk result (out.new.items ≡ out.old.items ++ task_line number releases ends figure) }
    ensures err { OnErr result (out.new.items ≡ out.old.items) }
{
    let line = format!(in *out.allocator(); "{number},{releases},{ends},{figure}\n")?;
    out.extend_from_slice(line.as_bytes())
}
