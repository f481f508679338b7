// The third stage: what jobs in a row may cost at most.
use crate::fields::write;
use policies::by_line::ByLine;
use policies::policy::Policy;
use tasks::line::Line;
use tasks::table::Table;

fn show_line(rt: &HostRuntime, line: &Line) -> anyhow::Result<()> {
    write(rt, line.name.bytes())?;
    println!(rt; "")?;
    for jobs in [1u32, 2, 5, 10] {
        let demand = ByLine {}.demand_of(line, jobs);
        println!(rt; "  n = {jobs:>2}: at most {demand:>4} ticks")?;
    }
    Ok(())
}

pub(crate) fn stage(rt: &HostRuntime, table: &Table) -> anyhow::Result<()> {
    println!(rt; "")?;
    println!(rt;
        "3. A line's demand of n jobs is the greatest sum of n bits' costs in a row, going round its"
    )?;
    println!(rt; "   word: under SRE a 0 costs u and a 1 costs r.")?;
    for line in table.lines() {
        show_line(rt, line)?;
    }
    Ok(())
}
