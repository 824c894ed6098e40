ghost use Rattle.std.specs.Prelude.{◌≡◌, ℕ, ◌<◌, ◌≤◌, false, List, [], slice_index_or};
ghost use Rattle.docset.specs.Meaning.{Meaning, TERM};
ghost use Rattle.docset.specs.Calls.{Told};
ghost use Rattle.combiner.specs.Estimate.{union_estimate};
ghost use Rattle.bank.specs.Places.{at};
ghost use Rattle.live.specs.Sets.{empty, lowest_of, AllSteady, AllRising};
ghost use Rattle.live.specs.Kept.{kept, chosen, capped_sum, greatest, live_at};
ghost use Rattle.live.specs.Views.{left, live_hints, live_prices, Advances, Scores, Wanted, Sent, AllSent};

use super::{Live, MOST};
use arrayvec::ArrayVec;
use bank::bank::Bank;
use combiner::score_combiner::{ScoreCombiner, reads_scores};
use combiner::size_hint::estimate_union;
use docset::docset::TERMINATED;
use std::array;

// A bank is asked by place and lends no slice of its sets, so some loops go over the places. `greatest_hint` and `greatest_cost` ask
// each another method: a common function would be longer than both.
impl<B: Bank> Live<B> {
    // Nothing is moved. A set that has ended already is not asked again.
    pub fn new(bank: B) -> Live<B>
        ensures bank { result.bank ≡ bank }
        ensures apt { AllSteady (B.Bank.rows bank).places → (k : ℕ) → k < 32 → at (left B.Bank.rows result) k ≡ at (B.Bank.rows bank).places k }
    {
        let live = array::from_fn(|place| bank.doc_at(place) != TERMINATED);
        Live { bank, live }
    }

    // A bank of which no document, score or step is ever asked.
    pub fn idle(bank: B) -> Live<B>
        ensures bank { result.bank ≡ bank }
        ensures none { (P : List Meaning) → (k : ℕ) → at (kept result.live P) k ≡ empty }
        ensures silent { (xs : List ℕ) → chosen 0 result.live xs ≡ [] }
    {
        Live {
            bank,
            live: [false; MOST],
        }
    }

    fn is_live(&self, place: usize) -> bool
        ensures { result ≡ slice_index_or self.now.live place false }
    {
        self.live.get(place) == Some(&true)
    }

    // The current document of the set at a place.
    pub fn doc_at(&self, place: usize) -> u32
        ensures told { Told (at (left B.Bank.rows self.now) place) result }
        ensures live { result < TERM → live_at self.now.live place }
    {
        if self.is_live(place) {
            self.bank.doc_at(place)
        } else {
            TERMINATED
        }
    }

    // One set goes on to its next document.
    pub fn advance_at(&mut self, place: usize) -> u32
        ensures { Advances B.Bank.rows self.old self.new place result }
    {
        if !self.is_live(place) {
            return TERMINATED;
        }
        let doc = self.bank.advance_at(place);
        if doc == TERMINATED {
            self.live[place] = false;
        }
        doc
    }

    fn score_at(&mut self, place: usize) -> f32
        ensures { Scores B.Bank.rows self.old self.new place result }
    {
        if self.is_live(place) {
            self.bank.score_at(place)
        } else {
            0.0
        }
    }

    // The score of the set at a place, if the combiner reads it. If not, the set is not asked, and the answer is 0.0.
    pub fn wanted_score<C: ScoreCombiner>(&mut self, place: usize, combiner: &C) -> f32
        ensures { Wanted (C.ScoreCombiner.taken combiner.now) B.Bank.rows self.old self.new place result }
    {
        if reads_scores(combiner) {
            self.score_at(place)
        } else {
            0.0
        }
    }

    // The lowest document that any set stands at. It is told here too that the ids of each set rise: so it is a loop, which keeps
    // what each set promises.
    pub fn lowest(&self) -> u32
        ensures an_id { result ≤ TERM }
        ensures rises { AllSteady (left B.Bank.rows self.now) → AllRising (left B.Bank.rows self.now) }
        ensures low { AllSteady (left B.Bank.rows self.now) → result ≡ lowest_of (left B.Bank.rows self.now) }
    {
        let mut low = TERMINATED;
        for place in 0..MOST {
            low = low.min(self.doc_at(place));
        }
        low
    }

    // Seeks one set, unless it stands at the target or past it.
    fn send(&mut self, place: usize, target: u32)
        ensures { Sent target B.Bank.rows self.old self.new place }
    {
        if self.doc_at(place) >= target || !self.is_live(place) {
            return;
        }
        if self.bank.seek_at(place, target) == TERMINATED {
            self.live[place] = false;
        }
    }

    // Every set goes on to its first document at or past the target.
    pub fn seek_all(&mut self, target: u32)
        ensures { AllSent target B.Bank.rows self.old self.new }
    {
        for place in 0..MOST {
            self.send(place, target);
        }
    }

    // The estimate of the union's size, from the hints of the sets that have not ended. They are gathered first, since
    // `estimate_union` takes a slice: an iterator would ask more of its callers.
    pub fn estimate(&self, num_docs: u32) -> u32
        ensures { result ≡ union_estimate (live_hints B.Bank.rows self.now) num_docs }
    {
        let mut sizes: ArrayVec<u32, MOST> = ArrayVec::new();
        for (place, live) in self.live.iter().enumerate() {
            if *live {
                sizes.push(self.bank.hint_at(place));
            }
        }
        estimate_union(sizes.as_slice(), num_docs)
    }

    // The sum of the costs of the sets that have not ended.
    pub fn total_cost(&self) -> u64
        ensures { result ≡ capped_sum (live_prices B.Bank.rows self.now) }
    {
        let mut total = 0u64;
        for (place, live) in self.live.iter().enumerate() {
            if *live {
                total = total.saturating_add(self.bank.cost_at(place));
            }
        }
        total
    }

    // The greatest hint of all sets, ended or not.
    pub fn greatest_hint(&self) -> u32
        ensures { result ≡ greatest (B.Bank.rows self.now.bank).hints }
    {
        (0..MOST)
            .map(|place| self.bank.hint_at(place))
            .max()
            .unwrap_or(0)
    }

    // The greatest cost of all sets, ended or not.
    pub fn greatest_cost(&self) -> u64
        ensures { result ≡ greatest (B.Bank.rows self.now.bank).prices }
    {
        (0..MOST)
            .map(|place| self.bank.cost_at(place))
            .max()
            .unwrap_or(0)
    }
}
