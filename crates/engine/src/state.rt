// What an engine holds: plain values.
use tasks::job::{Plan, Version};
use tasks::table::Table;

// A job that was released and has not ended.
#[derive(Clone, Copy)]
pub struct OpenJob {
    pub plan: Plan,
    // the version that runs
    pub version: Version,
    // the ticks left to it
    pub left: u32,
}

// The record of a task. `last`, which counts only once there was a release, is the number of ticks accepted before its last release, so that a tick changes one
// record at most.
#[derive(Clone, Copy)]
pub struct Task {
    pub mark: u64,
    pub releases: u64,
    pub ends: u64,
    pub last: u64,
    // none while no job is open
    pub job: Option<OpenJob>,
}

// What an opening puts in place. The figures are beside the table, as they are worked out and told: a table is read, compared and
// kept by itself, and has no place for what a policy makes of it.
#[derive(Clone, Copy)]
pub struct Setup {
    pub table: Table,
    pub figures: [u32; 32],
}

// The records stand in an array beside the setup, and not each in a line of it: either is fixed memory, and so a tick, which
// writes one record, leaves the table and its rules alone.
// No `impl Model`: what clauses see of a state, its status, has the records as a function of the tasks' numbers, and a
// model's value can hold no function.
#[derive(Clone, Copy)]
pub struct State {
    // none while the engine is shut
    pub setup: Option<Setup>,
    pub tasks: [Task; 32],
    // accepted since the engine was made
    pub ticks: u64,
}

// A task that was never released.
pub const UNUSED: Task = Task {
    mark: 0,
    releases: 0,
    ends: 0,
    last: 0,
    job: None,
};

// The most ticks that an engine accepts.
pub const MOST_TICKS: u64 = 1_000_000_000_000_000;
