// Answers a table text: reads it from standard input and prints its report.
#![tactic(auto)]

use report::report::report;
use std::io::{Read, Write};
use text::read::LONGEST;

fn main(rt: HostRuntime) -> anyhow::Result<()> {
    let mut text = Vec::new(rt.alloc());
    // `as`: a usize has no `From` to u64.
    rt.stdin().take(LONGEST as u64 + 1).read_to_end(&mut text)?;
    rt.stdout()
        .write_all(report(rt.alloc(), text.as_slice())?.as_slice())?;
    Ok(())
}
