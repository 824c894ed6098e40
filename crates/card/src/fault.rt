ghost use Rattle.std.specs.Prelude.{◌≡◌};
ghost use Rattle.card.specs.Faults.{line_of};

use docset::refusal::Refusal;
use std::fmt;

// What is wrong with a card, and in which line. Lines are counted from 1. Each variant holds its line itself:
// callers and tests name a fault and its line in one expression.
#[derive(Clone, Copy, PartialEq, Debug)]
pub enum CardFault {
    // The line begins with none of the five words.
    UnknownWord(usize),
    // A part of the statement is missing, or there is one too many.
    BadForm(usize),
    BadName(usize),
    BadWeight(usize),
    // A number is not decimal, or larger than 4294967295.
    BadNumber(usize),
    // A number lies outside what its statement allows.
    OutOfRange(usize),
    TooManyTopics(usize),
    // A statement that may stand once stands again.
    Twice(usize),
    // The card ends without a topic; the line is the one after its last.
    NoTopics(usize),
    // The ids of the line are refused by the set that is built over them.
    Ids(usize, Refusal),
    OutOfMemory(usize),
}

impl CardFault {
    // The line at fault.
    pub fn line(&self) -> usize
        ensures { result ≡ line_of self.now }
    {
        match self {
            CardFault::UnknownWord(line)
            | CardFault::BadForm(line)
            | CardFault::BadName(line)
            | CardFault::BadWeight(line)
            | CardFault::BadNumber(line)
            | CardFault::OutOfRange(line)
            | CardFault::TooManyTopics(line)
            | CardFault::Twice(line)
            | CardFault::NoTopics(line)
            | CardFault::Ids(line, _)
            | CardFault::OutOfMemory(line) => *line,
        }
    }
}

impl fmt::Display for CardFault {
    fn fmt<W: fmt::Write>(&self, f: &mut fmt::Formatter<W>) -> fmt::Result {
        let line = self.line();
        write!(f, "line {line}: ")?;
        match self {
            CardFault::UnknownWord(_) => write!(
                f,
                "a line begins with topic, bonus, seen, pick or at-least"
            ),
            CardFault::BadForm(_) => write!(f, "a part is missing, or there is one too many"),
            CardFault::BadName(_) => write!(f, "a name has letters, digits, - and _ only"),
            CardFault::BadWeight(_) => write!(
                f,
                "a weight is a number from 0 to 1000 with at most two decimals"
            ),
            CardFault::BadNumber(_) => write!(f, "not a whole number from 0 to 4294967295"),
            CardFault::OutOfRange(_) => write!(f, "the number is out of range"),
            CardFault::TooManyTopics(_) => write!(f, "more than 32 topics"),
            CardFault::Twice(_) => write!(f, "this may be said only once"),
            CardFault::NoTopics(_) => write!(f, "the card ends without a topic"),
            CardFault::Ids(_, refusal) => {
                let number = refusal.number();
                write!(f, "{refusal} (rule {number})")
            }
            CardFault::OutOfMemory(_) => write!(f, "out of memory"),
        }
    }
}
