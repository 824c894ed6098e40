ghost use Rattle.std.specs.Prelude.{◌≡◌, ℕ, ◌+◌, ◌<◌, ◌≤◌, false, [], length};
ghost use Rattle.docset.specs.Meaning.{zero_score};
ghost use Rattle.bank.specs.Places.{at};
ghost use Rattle.live.specs.Sets.{empty, AllSteady};
ghost use Rattle.threshold.specs.Entries.{Tops, Ready, Taken, Gathered};
ghost use Rattle.live.specs.Views.{left};
ghost use Rattle.threshold.specs.State.{room, on, Comes};

use crate::chains::Chains;
use bank::bank::Bank;
use combiner::score_combiner::{ScoreCombiner, Tally};
use docset::docset::TERMINATED;
use heap::order::Entry;
use live::live::Live;

// The sets of a bank, and the next id of each that has not ended.
#[derive(Drop)]
pub(crate) struct Queue<B> {
    pub(crate) sets: Live<B>,
    pub(crate) chains: Chains,
}

// What is gathered for one id: how many sets list it, and their scores.
#[derive(Clone, Copy)]
pub(crate) struct Group {
    pub(crate) count: usize,
    pub(crate) tally: Tally,
}

// Where a threshold comes to stand: at TERMINATED, with the score 0.0, where no document is left. It is no Option: `DocSet` tells
// TERMINATED there, and None is kept for a threshold that stands nowhere yet.
#[derive(Clone, Copy)]
pub(crate) struct Stand {
    pub(crate) doc: u32,
    pub(crate) score: f32,
}

impl<B: Bank> Queue<B> {
    // No set of the bank is ever asked for a document, a score or a step.
    pub(crate) fn idle(bank: B) -> Queue<B>
        ensures none { (k : ℕ) → at (left B.Bank.rows result.sets) k ≡ empty }
        ensures unqueued { result.chains ≡ [] }
    {
        Queue {
            sets: Live::idle(bank),
            chains: Chains::new(),
        }
    }

    // The sets, which are at most `count`, each at its first document. A bank is asked by place.
    pub(crate) fn new(bank: B, count: usize) -> Queue<B>
        requires few { count ≤ 32 }
        requires all { length (B.Bank.rows bank).places ≤ count }
        ensures at_most { length result.chains ≤ count }
        ensures alike { AllSteady (B.Bank.rows bank).places → (k : ℕ) → at (left B.Bank.rows result.sets) k ≡ at (B.Bank.rows bank).places k }
        ensures ready { AllSteady (B.Bank.rows bank).places → Ready (left B.Bank.rows result.sets) result.chains }
    {
        let sets = Live::new(bank);
        let mut chains = Chains::new();
        for place in 0..count {
            let id = sets.doc_at(place);
            if id != TERMINATED {
                chains.push(Entry { id, place });
            }
        }
        Queue { sets, chains }
    }

    // Takes the score of the set at the top, and moves it on.
    fn take_top<C: ScoreCombiner>(&mut self, combiner: &C, top: Entry, tally: &mut Tally)
        requires { Tops self.old.chains top }
        ensures pays { room B.Bank.rows self.new < room B.Bank.rows self.old }
        ensures taken { Taken (C.ScoreCombiner.taken combiner.now) top (left B.Bank.rows self.old.sets) (left B.Bank.rows self.new.sets) self.old.chains self.new.chains tally.old tally.new }
    {
        let score = self.sets.wanted_score(top.place, combiner);
        combiner.take(tally, score);
        let id = self.sets.advance_at(top.place);
        if id == TERMINATED {
            self.chains.drop_top();
        } else {
            self.chains.replace_top(Entry { id, ..top });
        }
    }

    // Moves every set that stands at the id of the top past it, in the order of the bank.
    fn gather<C: ScoreCombiner>(&mut self, combiner: &C, lowest: Entry) -> Group
        requires { Tops self.old.chains lowest }
        ensures pays { room B.Bank.rows self.new < room B.Bank.rows self.old }
        ensures gathered { Gathered (C.ScoreCombiner.taken combiner.now) lowest.id (left B.Bank.rows self.old.sets) (left B.Bank.rows self.new.sets) self.old.chains self.new.chains result.count result.tally }
    {
        let mut tally = Tally::new();
        let mut count: usize = 0;
        while let Some(top) = self.chains.top()
            && top.id == lowest.id
        {
            self.take_top(combiner, top, &mut tally);
            count = count.saturating_add(1);
        }
        Group { count, tally }
    }

    // Goes on to the next id that at least `minimum` sets list.
    pub(crate) fn next_group<C: ScoreCombiner>(&mut self, combiner: &C, minimum: usize) -> Stand
        ensures an_id { result.doc ≤ 2147483647 }
        ensures ends { result.doc ≡ 2147483647 → self.new.chains ≡ [] }
        ensures scoreless { result.doc ≡ 2147483647 → result.score ≡ zero_score }
        ensures pays { on result.doc false + room B.Bank.rows self.new ≤ room B.Bank.rows self.old }
        ensures comes { Comes minimum (C.ScoreCombiner.taken combiner.now) (C.ScoreCombiner.told combiner.now) (left B.Bank.rows self.old.sets) (left B.Bank.rows self.new.sets) self.old.chains self.new.chains result.doc result.score }
    {
        while let Some(top) = self.chains.top() {
            let group = self.gather(combiner, top);
            if minimum <= group.count {
                let score = combiner.tell(&group.tally);
                return Stand { doc: top.id, score };
            }
        }
        Stand {
            doc: TERMINATED,
            score: 0.0,
        }
    }
}
