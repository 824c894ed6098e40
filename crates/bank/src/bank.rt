ghost use Rattle.std.specs.Prelude.{◌≡◌, ◌≤◌, min, length, slice_index};
ghost use Rattle.docset.specs.Meaning.{TERM};
ghost use Rattle.docset.specs.Calls.{Told, Moved, Sought, Probed, Scored};
ghost use Rattle.docset.specs.declared.docset.SeekDangerResult.TheVariants.{SeekLowerBound};
ghost use Rattle.bank.specs.Places.{Rows, no_rows, ahead, at, Elsewhere, largest_usize};
ghost use Rattle.bank.specs.Holding.{Contained};

use docset::docset::{DocSet, SeekDangerResult, TERMINATED};
use docset::scorer::Scorer;

// Sets in a fixed order, each reached by its place, counted from 0.
//
// `rows` is what each set means and what it guesses of itself, by place.
// A call at a place keeps the promise of the set that stands there and leaves every other set as it was.
// Outside there is an empty set: it tells TERMINATED, 0.0 and 0, and nothing moves.
pub trait Bank: Drop {
    ghost rows: { Self → Rows };

    // How many sets there are, or the largest `usize` where there are more.
    fn len(&self) -> usize
        ensures counts { result ≡ min (length (rows self.now).places) largest_usize }
        ensures guessed { length (rows self.now).hints ≡ length (rows self.now).places }
        ensures priced { length (rows self.now).prices ≡ length (rows self.now).places };

    // The current document of the set at a place.
    fn doc_at(&self, place: usize) -> u32
        ensures { Told (at (rows self.now).places place) result };

    // The score of that document.
    fn score_at(&mut self, place: usize) -> f32
        ensures tells { Scored (at (rows self.old).places place) (at (rows self.new).places place) result }
        ensures others { Elsewhere place (rows self.old) (rows self.new) };

    // One set goes on to its next document.
    fn advance_at(&mut self, place: usize) -> u32
        ensures moves { Moved (at (rows self.old).places place) (at (rows self.new).places place) result }
        ensures others { Elsewhere place (rows self.old) (rows self.new) };

    // One set goes on to its first document at or past the target.
    fn seek_at(&mut self, place: usize, target: u32) -> u32
        ensures moves { Sought target (at (rows self.old).places place) (at (rows self.new).places place) result }
        ensures others { Elsewhere place (rows self.old) (rows self.new) };

    // One set is probed. Outside the bound is TERMINATED.
    fn probe_at(&mut self, place: usize, target: u32) -> SeekDangerResult
        ensures moves { Probed target (at (rows self.old).places place) (at (rows self.new).places place) result }
        ensures others { Elsewhere place (rows self.old) (rows self.new) }
        ensures outside { length (rows self.old).places ≤ place → result ≡ SeekLowerBound TERM };

    // One set's guess at the number of its documents.
    fn hint_at(&self, place: usize) -> u32
        ensures { result ≡ slice_index (rows self.now).hints place };

    // One set's guess at its work.
    fn cost_at(&self, place: usize) -> u64
        ensures { result ≡ slice_index (rows self.now).prices place };

    // Whether any of the sets lists the id. They are probed in their order up to the first that does.
    fn holds(&mut self, doc: u32) -> bool
        ensures { Contained doc (rows self.old) (rows self.new) result };
}

// The bank with no set.
#[derive(Drop)]
pub struct NoSets;

impl Bank for NoSets {
    ghost rows = { λ b. no_rows };

    fn len(&self) -> usize {
        0
    }

    fn doc_at(&self, _place: usize) -> u32 {
        TERMINATED
    }

    fn score_at(&mut self, _place: usize) -> f32 {
        0.0
    }

    fn advance_at(&mut self, _place: usize) -> u32 {
        TERMINATED
    }

    fn seek_at(&mut self, _place: usize, _target: u32) -> u32 {
        TERMINATED
    }

    fn probe_at(&mut self, _place: usize, _target: u32) -> SeekDangerResult {
        SeekDangerResult::SeekLowerBound(TERMINATED)
    }

    fn hint_at(&self, _place: usize) -> u32 {
        0
    }

    fn cost_at(&self, _place: usize) -> u64 {
        0
    }

    fn holds(&mut self, _doc: u32) -> bool {
        false
    }
}

// A set of any type at place 0, and behind it the sets of another bank. The two have different types and each call is another
// method, so each has its own test of the place.
#[derive(Drop)]
pub struct Sets<S, B> {
    first: S,
    rest: B,
}

impl<S: Scorer, B: Bank> Sets<S, B> {
    pub fn new(first: S, rest: B) -> Sets<S, B>
        ensures ahead { result.first ≡ first }
        ensures behind { result.rest ≡ rest }
    {
        Sets { first, rest }
    }
}

impl<S: Scorer, B: Bank> Bank for Sets<S, B> {
    ghost rows = { λ b. ahead (S.DocSet.meaning b.first) (S.DocSet.hint b.first) (S.DocSet.price b.first) (B.Bank.rows b.rest) };

    fn len(&self) -> usize {
        self.rest.len().saturating_add(1)
    }

    fn doc_at(&self, place: usize) -> u32 {
        if place == 0 {
            self.first.doc()
        } else {
            self.rest.doc_at(place - 1)
        }
    }

    fn score_at(&mut self, place: usize) -> f32 {
        if place == 0 {
            self.first.score()
        } else {
            self.rest.score_at(place - 1)
        }
    }

    fn advance_at(&mut self, place: usize) -> u32 {
        if place == 0 {
            self.first.advance()
        } else {
            self.rest.advance_at(place - 1)
        }
    }

    fn seek_at(&mut self, place: usize, target: u32) -> u32 {
        if place == 0 {
            self.first.seek(target)
        } else {
            self.rest.seek_at(place - 1, target)
        }
    }

    fn probe_at(&mut self, place: usize, target: u32) -> SeekDangerResult {
        if place == 0 {
            self.first.seek_danger(target)
        } else {
            self.rest.probe_at(place - 1, target)
        }
    }

    fn hint_at(&self, place: usize) -> u32 {
        if place == 0 {
            self.first.size_hint()
        } else {
            self.rest.hint_at(place - 1)
        }
    }

    fn cost_at(&self, place: usize) -> u64 {
        if place == 0 {
            self.first.cost()
        } else {
            self.rest.cost_at(place - 1)
        }
    }

    fn holds(&mut self, doc: u32) -> bool {
        self.first.seek_danger(doc) == SeekDangerResult::Found || self.rest.holds(doc)
    }
}
