ghost use Rattle.docset.specs.Calls.{Scored};

use crate::docset::DocSet;

// A document set that also tells the score of its current document.
pub trait Scorer: DocSet {
    // The current document's score, or 0.0 where there is none.
    fn score(&mut self) -> f32
        ensures { Scored (Self.DocSet.meaning self.old) (Self.DocSet.meaning self.new) result };
}
