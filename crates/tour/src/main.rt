// Follows a task table from its bytes to its verdict, and prints what each stage does.
#![tactic(auto)]

mod demands;
mod fields;
mod search;
mod show;

use std::io::Read;
use tasks::refusal::Refusal;
use tasks::table::Table;
use text::read::{LONGEST, read};

fn refused(rt: &HostRuntime, refusal: Refusal) -> anyhow::Result<()> {
    let (number, line, place) = refusal.told();
    println!(rt; "The table is refused: {number}, line {line}, place {place}.")?;
    Ok(())
}

fn main(rt: HostRuntime) -> anyhow::Result<()> {
    let mut text = Vec::new(rt.alloc());
    // `as`: a usize has no `From` to u64.
    rt.stdin().take(LONGEST as u64 + 1).read_to_end(&mut text)?;
    println!(rt; "From the bytes of a task table to its verdict, stage by stage.")?;
    fields::stage(&rt, text.as_slice())?;
    let mut table = Table::new();
    match read(&mut table, text.as_slice()) {
        Ok(()) => {
            show::stage(&rt, &table)?;
            demands::stage(&rt, &table)?;
            search::stage(&rt, &table)
        }
        Err(refusal) => refused(&rt, refusal),
    }
}
