// Replays a script: reads a table text, a line `.` and a call to a line, and prints the answers.
#![tactic(auto)]

use engine::engine::Engine;
use policies::by_line::ByLine;
use service::log::{Call, Entry};
use service::replay::replay;
use std::alloc::{AllocError, Global};
use std::io::{Read, Write};
use tasks::table::Table;
use text::lines::Lines;
use text::read::read;
use transcript::answer::{push_answer, push_task};
use transcript::call::call_on;
use transcript::script::split_script;

// Adds the calls of a script to the log, up to the first line that is no call; the number of that line.
fn add_calls(
    log: &mut Vec<Entry>,
    table: &Table,
    script: &[u8],
) -> Result<Option<usize>, AllocError> {
    for (number, line) in (1..=usize::MAX).zip(Lines::new(script)) {
        match call_on(line.bytes, table) {
            Some(call) => log.push(Entry::unanswered(call))?,
            None => return Ok(Some(number)),
        }
    }
    Ok(None)
}

// How the tasks stand at the end; a shut engine tells of none.
fn push_tasks(out: &mut Vec<u8>, engine: &Engine<ByLine>, table: &Table) -> Result<(), AllocError> {
    for number in 1..=table.lines().len() as u32 {
        if let (Ok((releases, ends)), Ok(figure)) = (engine.counts(number), engine.figure(number)) {
            push_task(out, number, releases, ends, figure)?;
        }
    }
    Ok(())
}

// The answers to the opening of a table and to the calls of a script, and how the tasks stand then.
fn push_replayed(out: &mut Vec<u8>, table: &Table, script: &[u8]) -> Result<(), AllocError> {
    let heap = *out.allocator();
    let mut log = Vec::new(heap);
    log.push(Entry::unanswered(Call::Open { table: *table }))?;
    let stray = add_calls(&mut log, table, script)?;
    let engine = replay(ByLine {}, &mut log);
    for entry in &log {
        push_answer(out, &entry.answer)?;
    }
    match stray {
        Some(number) => {
            let line = format!(in heap; "not a call: line {number}\n")?;
            out.extend_from_slice(line.as_bytes())
        }
        None => push_tasks(out, &engine, table),
    }
}

// The whole answer to an input.
fn answered(heap: Global, text: &[u8]) -> Result<Vec<u8>, AllocError> {
    let mut out = Vec::new(heap);
    let Some((lines, script)) = split_script(text) else {
        out.extend_from_slice(b"no calls\n")?;
        return Ok(out);
    };
    let mut table = Table::new();
    match read(&mut table, lines) {
        Ok(()) => push_replayed(&mut out, &table, script)?,
        Err(refusal) => push_answer(&mut out, &Err(refusal))?,
    }
    Ok(out)
}

fn main(rt: HostRuntime) -> anyhow::Result<()> {
    let mut text = Vec::new(rt.alloc());
    rt.stdin().read_to_end(&mut text)?;
    let answers = answered(rt.alloc(), &text)?;
    rt.stdout().write_all(&answers)?;
    Ok(())
}
