// The second stage: what each line says, and its word.
use crate::fields::write;
use tasks::job::Version;
use tasks::line::Line;
use tasks::table::Table;
use words::bits::bit_at;
use words::turns::turn;

// The word's bits, bit 0 first.
fn show_word(rt: &HostRuntime, line: &Line) -> anyhow::Result<()> {
    print!(rt; "  word ")?;
    for place in 0..line.k {
        let bit = bit_at(line.word, place);
        print!(rt; "{bit}")?;
    }
    let by = turn(line.word, line.k);
    println!(rt; ", turned left by {by} where a technique rearranges it")?;
    Ok(())
}

fn show_line(rt: &HostRuntime, line: &Line) -> anyhow::Result<()> {
    write(rt, line.name.bytes())?;
    let m = line.m;
    let k = line.k;
    let technique = line.technique;
    println!(rt;
        ": of any {k} jobs in a row, {m} must come out right, by the technique {technique}."
    )?;
    show_word(rt, line)?;
    let bare = line.time(Version::Bare);
    let detect = line.time(Version::Detect);
    let correct = line.time(Version::Correct);
    let period = line.period;
    println!(rt;
        "  bare {bare}, detecting {detect}, correcting {correct} ticks, released every {period} ticks at most"
    )?;
    Ok(())
}

pub(crate) fn stage(rt: &HostRuntime, table: &Table) -> anyhow::Result<()> {
    println!(rt; "")?;
    println!(rt;
        "2. The fields keep the rules of a line, and the lines those of a table. The pattern R puts"
    )?;
    println!(rt; "   the ones last; bit 0 is written first, and stands for the first job.")?;
    for line in table.lines() {
        show_line(rt, line)?;
    }
    Ok(())
}
