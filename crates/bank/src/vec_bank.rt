ghost use Rattle.bank.specs.Places.{rows_of};

use crate::bank::Bank;
use docset::docset::{DocSet, SeekDangerResult, TERMINATED};
use docset::scorer::Scorer;

// Sets of one type, each reached in constant time.
impl<S: Scorer> Bank for Vec<S> {
    ghost rows = { λ b. rows_of S.DocSet.meaning S.DocSet.hint S.DocSet.price b.items };

    fn len(&self) -> usize {
        self.as_slice().len()
    }

    fn doc_at(&self, place: usize) -> u32 {
        self.get(place).map_or(TERMINATED, |set| set.doc())
    }

    fn score_at(&mut self, place: usize) -> f32 {
        match self.get_mut(place) {
            Some(set) => set.score(),
            None => 0.0,
        }
    }

    fn advance_at(&mut self, place: usize) -> u32 {
        match self.get_mut(place) {
            Some(set) => set.advance(),
            None => TERMINATED,
        }
    }

    fn seek_at(&mut self, place: usize, target: u32) -> u32 {
        match self.get_mut(place) {
            Some(set) => set.seek(target),
            None => TERMINATED,
        }
    }

    fn probe_at(&mut self, place: usize, target: u32) -> SeekDangerResult {
        match self.get_mut(place) {
            Some(set) => set.seek_danger(target),
            None => SeekDangerResult::SeekLowerBound(TERMINATED),
        }
    }

    fn hint_at(&self, place: usize) -> u32 {
        self.get(place).map_or(0, |set| set.size_hint())
    }

    fn cost_at(&self, place: usize) -> u64 {
        self.get(place).map_or(0, |set| set.cost())
    }

    fn holds(&mut self, doc: u32) -> bool {
        for set in self.iter_mut() {
            if set.seek_danger(doc) == SeekDangerResult::Found {
                return true;
            }
        }
        false
    }
}
