ghost use Rattle.std.specs.Prelude.{◌≡◌, Some};
ghost use Rattle.docset.specs.Refusals.{number_of, place_of, words_of};

use std::fmt;

// Why a builder refuses what it was given. It is told beside what was built and is no `Err`: a refused set can still be
// used, as an empty one with hint and cost 0, and a refused combiner has the tie-breaker 0.0.
#[derive(Clone, Copy, PartialEq, Eq, Debug)]
pub enum Refusal {
    // The id at this place is not above the id before it.
    NotRising(usize),
    // The id at this place is TERMINATED or more.
    TooLarge(usize),
    // A segment has at most TERMINATED documents.
    SegmentTooLarge,
    // There are not as many words as the segment's documents need.
    WrongWordCount,
    // A bit is set for a document that the segment does not have.
    BitPastEnd,
    // A union or a threshold takes at most 32 sets.
    TooManySets,
    // A threshold asks for at least one set.
    MinimumZero,
    // A boost or a tie-breaker is infinite or not a number.
    NotFinite,
}

impl Refusal {
    // The number by which the rules and a box's service sheet know the refusal, 1 to 8.
    pub fn number(&self) -> u32
        ensures { result ≡ number_of self.now }
    {
        match self {
            Refusal::NotRising(_) => 1,
            Refusal::TooLarge(_) => 2,
            Refusal::SegmentTooLarge => 3,
            Refusal::WrongWordCount => 4,
            Refusal::BitPastEnd => 5,
            Refusal::TooManySets => 6,
            Refusal::MinimumZero => 7,
            Refusal::NotFinite => 8,
        }
    }

    // The place of the id at fault, counted from 0, where the refusal is about one.
    pub fn place(&self) -> Option<usize>
        ensures { result ≡ place_of self.now }
    {
        match self {
            Refusal::NotRising(place) | Refusal::TooLarge(place) => Some(*place),
            Refusal::SegmentTooLarge
            | Refusal::WrongWordCount
            | Refusal::BitPastEnd
            | Refusal::TooManySets
            | Refusal::MinimumZero
            | Refusal::NotFinite => None,
        }
    }
}

impl fmt::Display for Refusal {
    ghost output = { λ x. Some (words_of x) };

    fn fmt<W: fmt::Write>(&self, f: &mut fmt::Formatter<W>) -> fmt::Result {
        match self {
            Refusal::NotRising(place) => write!(
                f,
                "the id at place {place} is not above the one before it"
            ),
            Refusal::TooLarge(place) => write!(
                f,
                "the id at place {place} is larger than 2147483646"
            ),
            Refusal::SegmentTooLarge => write!(f, "a segment has at most 2147483647 documents"),
            Refusal::WrongWordCount => write!(
                f,
                "the number of words does not fit the number of documents"
            ),
            Refusal::BitPastEnd => write!(f, "a bit is set for a document past the end"),
            Refusal::TooManySets => write!(f, "more than 32 sets"),
            Refusal::MinimumZero => write!(f, "a minimum of 0 sets"),
            Refusal::NotFinite => write!(f, "a factor that is not finite"),
        }
    }
}
