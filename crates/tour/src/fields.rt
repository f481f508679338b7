// The first stage: the text's lines and fields, each with its place.
use std::io::Write;
use text::line::{Fields, split_fields};
use text::lines::Lines;
use text::part::Part;

// Writes bytes as they are.
pub(crate) fn write(rt: &HostRuntime, bytes: &[u8]) -> anyhow::Result<()> {
    rt.stdout().write_all(bytes)?;
    Ok(())
}

fn show(rt: &HostRuntime, what: &str, part: Part<'_>) -> anyhow::Result<()> {
    let place = part.place;
    print!(rt; "  place {place:>4}  {what:<10} ")?;
    write(rt, part.bytes)?;
    println!(rt; "")?;
    Ok(())
}

fn show_fields(rt: &HostRuntime, f: Fields<'_>) -> anyhow::Result<()> {
    show(rt, "name", f.name)?;
    show(rt, "technique", f.technique)?;
    show(rt, "m", f.m)?;
    show(rt, "k", f.k)?;
    show(rt, "pattern", f.pattern)?;
    show(rt, "u", f.bare)?;
    show(rt, "d", f.detect)?;
    show(rt, "r", f.correct)?;
    show(rt, "period", f.period)
}

// A line of the text, with its number.
fn show_line(rt: &HostRuntime, number: u32, part: Part<'_>) -> anyhow::Result<()> {
    print!(rt; "Line {number}: ")?;
    write(rt, part.bytes)?;
    println!(rt; "")?;
    match split_fields(part, number) {
        Ok(f) => show_fields(rt, f),
        Err(_) => {
            println!(rt; "  this line has not nine fields")?;
            Ok(())
        }
    }
}

pub(crate) fn stage(rt: &HostRuntime, text: &[u8]) -> anyhow::Result<()> {
    let count = text.len();
    println!(rt; "")?;
    println!(rt;
        "1. The text has {count} bytes. Each line is cut at its commas into nine fields, and each"
    )?;
    println!(rt; "   field keeps the place of its first byte, so that a refusal can point at it.")?;
    for (number, line) in (1..=u32::MAX).zip(Lines::new(text)) {
        show_line(rt, number, line)?;
    }
    Ok(())
}
