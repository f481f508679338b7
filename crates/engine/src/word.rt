// Tick words.
ghost use Rattle.engine.specs.Words.{Said};

use tasks::refusal::Refusal;

// What a driver says of the version that runs.
#[derive(Clone, Copy, PartialEq, Eq)]
pub(crate) enum Word {
    // it goes on
    GoesOn,
    // it has ended
    Ended,
    // it has ended, and detected a fault
    Fault,
}

impl TryFrom<u32> for Word {
    type Error = Refusal;

    ghost try_from_gives = { Said };

    fn try_from(word: u32) -> Result<Self, Refusal> {
        match word {
            0 => Ok(Word::GoesOn),
            1 => Ok(Word::Ended),
            2 => Ok(Word::Fault),
            _ => Err(Refusal::TickWord),
        }
    }
}
