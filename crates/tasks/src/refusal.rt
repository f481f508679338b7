// Why a call is refused.
ghost use Rattle.std.specs.Prelude.{◌≡◌};
ghost use Rattle.tasks.specs.Refused.{told, told_number, told_line, told_place};

// Every cause, with the line and the place in the text where the cause has them. Lines count from 1, places
// from the text's first byte as 0.
#[derive(Clone, Copy, PartialEq, Eq, Debug)]
pub enum Refusal {
    // the text is empty, too long, or does not end in a line feed
    Text,
    // a line has not nine fields
    FieldCount { line: u32, place: usize },
    // a field is against its form
    Form { line: u32, place: usize },
    // a value is against the rules of a line
    Value { line: u32, place: usize },
    // a period is below that of the line above
    PeriodFalls { line: u32, place: usize },
    // a name is used above
    NameUsed { line: u32, place: usize },
    // there is a line 33
    TooManyLines { place: usize },
    // the policy declines a line
    Declined { line: u32 },
    // the table has no lines
    NoLines,
    // the engine is shut
    Shut,
    // the engine is open already
    AlreadyOpen,
    // no task or line has this number
    NoSuchTask,
    // the task's last release is less than its period ago
    TooEarly,
    // the task's job is still open
    JobOpen,
    // the tick word does not fit the job that it would go to
    TickWord,
    // all the ticks that an engine takes are used up
    TicksSpent,
}

impl Refusal {
    // Its number, and the line and the place in the text, 0 where the cause has none.
    pub fn told(self) -> (u32, u32, usize)
        ensures { result ≡ told self }
    {
        match self {
            Refusal::Text => (1, 0, 0),
            Refusal::FieldCount { line, place } => (2, line, place),
            Refusal::Form { line, place } => (3, line, place),
            Refusal::Value { line, place } => (4, line, place),
            Refusal::PeriodFalls { line, place } => (5, line, place),
            Refusal::NameUsed { line, place } => (6, line, place),
            Refusal::TooManyLines { place } => (7, 33, place),
            Refusal::Declined { line } => (8, line, 0),
            Refusal::NoLines => (9, 0, 0),
            Refusal::Shut => (10, 0, 0),
            Refusal::AlreadyOpen => (11, 0, 0),
            Refusal::NoSuchTask => (12, 0, 0),
            Refusal::TooEarly => (13, 0, 0),
            Refusal::JobOpen => (14, 0, 0),
            Refusal::TickWord => (15, 0, 0),
            Refusal::TicksSpent => (16, 0, 0),
        }
    }

    pub fn number(self) -> u32
        ensures { result ≡ told_number self }
    {
        self.told().0
    }

    // The line, or 0 where the cause has none.
    pub fn line(self) -> u32
        ensures { result ≡ told_line self }
    {
        self.told().1
    }

    // The place in the text, or 0 where the cause has none.
    pub fn place(self) -> usize
        ensures { result ≡ told_place self }
    {
        self.told().2
    }
}
