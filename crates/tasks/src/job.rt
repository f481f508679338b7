// What is planned for a job, which version of its task runs, and how a job or a tick comes out.
ghost use Rattle.std.specs.Prelude.{◌≡◌, Some};
ghost use Rattle.tasks.specs.Spelled.{plan_word, ending_word, outcome_word};

use std::fmt;

#[derive(Clone, Copy, PartialEq, Eq, Debug)]
pub enum Plan {
    // U: the bare version
    Bare,
    // D: the detecting version
    Detect,
    // R: the correcting version
    Correct,
    // DR: the detecting version and, on a fault, the correcting one
    Recover,
}

impl Plan {
    // The letters that stand for it.
    pub fn word(self) -> &'static str
        ensures { result.now ≡ plan_word self }
    {
        match self {
            Plan::Bare => "U",
            Plan::Detect => "D",
            Plan::Correct => "R",
            Plan::Recover => "DR",
        }
    }
}

impl fmt::Display for Plan {
    ghost output = { λ p. Some (plan_word p) };

    fn fmt<W: fmt::Write>(&self, f: &mut fmt::Formatter<W>) -> fmt::Result {
        f.write_str(Plan::word(*self))
    }
}

// The versions that a task comes in.
#[derive(Clone, Copy, PartialEq, Eq, Debug)]
pub enum Version {
    Bare,
    Detect,
    Correct,
}

// How a job ends.
#[derive(Clone, Copy, PartialEq, Eq, Debug)]
pub enum Ending {
    // bare: nobody looked for a fault
    Blind,
    // no fault was detected
    Clean,
    // a fault was detected, and not corrected
    Bad,
    // the correcting version ended
    Sure,
}

impl Ending {
    pub fn word(self) -> &'static str
        ensures { result.now ≡ ending_word self }
    {
        match self {
            Ending::Blind => "blind",
            Ending::Clean => "clean",
            Ending::Bad => "bad",
            Ending::Sure => "sure",
        }
    }
}

impl fmt::Display for Ending {
    ghost output = { λ e. Some (ending_word e) };

    fn fmt<W: fmt::Write>(&self, f: &mut fmt::Formatter<W>) -> fmt::Result {
        f.write_str(Ending::word(*self))
    }
}

// How a tick comes out.
#[derive(Clone, Copy, PartialEq, Eq, Debug)]
pub enum Outcome {
    // no job was open
    Idle,
    // the job goes on
    On,
    // the correcting version starts after a detected fault
    Again,
    // the job ended
    Ended(Ending),
}

impl Outcome {
    pub fn word(self) -> &'static str
        ensures { result.now ≡ outcome_word self }
    {
        match self {
            Outcome::Idle => "idle",
            Outcome::On => "on",
            Outcome::Again => "again",
            Outcome::Ended(ending) => ending.word(),
        }
    }
}

impl fmt::Display for Outcome {
    ghost output = { λ o. Some (outcome_word o) };

    fn fmt<W: fmt::Write>(&self, f: &mut fmt::Formatter<W>) -> fmt::Result {
        f.write_str(Outcome::word(*self))
    }
}
