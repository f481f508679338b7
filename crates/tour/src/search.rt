// The fourth stage: the search for each line's figure, and the verdict.
use crate::fields::write;
use policies::by_line::ByLine;
use policies::policy::Policy;
use report::report::verdict_line;
use response::figures::figures;
use tasks::line::Line;
use tasks::table::Table;

// What the line and the lines above ask for up to the time t, printed part by part.
fn show_load(rt: &HostRuntime, above: &[Line], line: &Line, t: u64) -> anyhow::Result<u64> {
    let mut load = ByLine {}.demand_of(line, 1);
    print!(rt; "  t = {t}: {load} for its own job")?;
    for h in above {
        let jobs = u32::try_from(t.div_ceil(u64::from(h.period))).unwrap_or(u32::MAX);
        let demand = ByLine {}.demand_of(h, jobs);
        print!(rt; ", {demand} for {jobs} of ")?;
        write(rt, h.name.bytes())?;
        load = load.saturating_add(demand);
    }
    println!(rt; "; together {load}")?;
    Ok(load)
}

fn show_search(rt: &HostRuntime, above: &[Line], line: &Line) -> anyhow::Result<()> {
    write(rt, line.name.bytes())?;
    println!(rt; "")?;
    let mut t: u64 = 1;
    for _ in 0..line.period {
        let load = show_load(rt, above, line, t)?;
        if load <= t {
            println!(rt; "  no more than {t}: t passes, and the figure is {t}")?;
            return Ok(());
        }
        if load > u64::from(line.period) {
            println!(rt; "  past the period: no t passes, and the figure is 0")?;
            return Ok(());
        }
        println!(rt; "  more than {t}: no t before {load} can pass")?;
        t = load;
    }
    Ok(())
}

fn show_verdict(rt: &HostRuntime, table: &Table) -> anyhow::Result<()> {
    println!(rt; "")?;
    println!(rt;
        "5. The verdict: a table is admitted if no figure is 0. As the proved library tells it:"
    )?;
    let mut places = [0; 32];
    match figures(&ByLine {}, table, &mut places) {
        Ok(admitted) => {
            for (line, figure) in table.lines().iter().zip(places.iter()) {
                write(rt, line.name.bytes())?;
                println!(rt; " has the figure {figure}")?;
            }
            rt.print(verdict_line(admitted))?;
        }
        Err(_) => println!(rt; "a line is declined")?,
    }
    Ok(())
}

pub(crate) fn stage(rt: &HostRuntime, table: &Table) -> anyhow::Result<()> {
    println!(rt; "")?;
    println!(rt;
        "4. A line's figure is the smallest t by which its own job and all that the lines above may"
    )?;
    println!(rt;
        "   ask for up to t are done. The search starts at 1 and goes on from t to the load at t."
    )?;
    let lines = table.lines();
    for (i, line) in lines.iter().enumerate() {
        show_search(rt, &lines[0..i], line)?;
    }
    show_verdict(rt, table)
}
