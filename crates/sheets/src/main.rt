// Answers many table texts, parted by lines `%%`, with their reports, parted the same way.
#![tactic(auto)]

use report::report::report;
use std::io::{Read, Write};

fn print_report(rt: &HostRuntime, text: &[u8]) -> anyhow::Result<()> {
    rt.stdout().write_all(report(rt.alloc(), text)?.as_slice())?;
    Ok(())
}

// Prints the reports of the texts in the input; a line that is just `%%` ends a text and belongs to none. A text is a
// part of the input and no copy, so where it starts is counted along.
fn print_reports(rt: &HostRuntime, input: &[u8]) -> anyhow::Result<()> {
    let mut start = 0;
    let mut end = 0;
    for line in input.split_inclusive(|byte| *byte == b'\n') {
        let next = end + line.len();
        if line == b"%%\n".as_slice() {
            print_report(rt, &input[start..end])?;
            rt.stdout().write_all(line)?;
            start = next;
        }
        end = next;
    }
    print_report(rt, &input[start..])
}

fn main(rt: HostRuntime) -> anyhow::Result<()> {
    let mut input = Vec::new(rt.alloc());
    rt.stdin().read_to_end(&mut input)?;
    print_reports(&rt, input.as_slice())
}
