ghost use Rattle.std.specs.Prelude.{◌≡◌, ℕ, suc, ◌<◌, true, false, ◌||◌, [], length, None, ◌≢◌, nat_lt};
ghost use Rattle.docset.specs.Meaning.{Steady, calm};
ghost use Rattle.docset.specs.Calls.{Told, Moved, Sought};
ghost use Rattle.bank.specs.Places.{at};
ghost use Rattle.live.specs.Sets.{AllSteady, passed};
ghost use Rattle.live.specs.Lists.{threshold_list};
ghost use Rattle.threshold.specs.State.{refusal_of, left_of, threshold_meaning, guess_of, read_to, unread_of, doc_of};

use super::Disjunction;
use crate::queue::{Queue, Stand};
use bank::bank::Bank;
use combiner::score_combiner::ScoreCombiner;
use docset::docset::{DocSet, SeekDangerResult, TERMINATED};
use docset::refusal::Refusal;
use docset::scorer::Scorer;

// How many sets a threshold takes at most: as many as `Live` asks.
const MOST: usize = live::live::MOST;

impl<B: Bank, C: ScoreCombiner> Disjunction<B, C> {
    // An empty set, whose sets are never asked.
    fn refused(bank: B, combiner: C, minimum: usize) -> Disjunction<B, C>
        ensures empty { ⟦<Self as DocSet>⟧.meaning result ≡ calm [] }
        ensures guesses { (⟦<Self as DocSet>⟧.hint result ≡ 0) × (⟦<Self as DocSet>⟧.price result ≡ 0) }
    {
        Disjunction {
            queue: Queue::idle(bank),
            combiner,
            minimum,
            stand: Some(Stand {
                doc: TERMINATED,
                score: 0.0,
            }),
        }
    }

    // The documents that at least `minimum` of the sets list. More than 32 sets and a minimum of 0 are refused: then the set
    // is empty, with hint and cost 0. A minimum above the number of sets lists nothing, and nothing is read yet.
    pub fn new(bank: B, combiner: C, minimum: usize) -> (Option<Refusal>, Disjunction<B, C>)
        ensures refuses { result.0 ≡ refusal_of (length (B.Bank.rows bank).places) minimum }
        ensures empty { (refusal_of (length (B.Bank.rows bank).places) minimum ≢ None) → (⟦<Self as DocSet>⟧.meaning result.1 ≡ calm []) × (⟦<Self as DocSet>⟧.hint result.1 ≡ 0) × (⟦<Self as DocSet>⟧.price result.1 ≡ 0) }
        ensures list { refusal_of (length (B.Bank.rows bank).places) minimum ≡ None → AllSteady (B.Bank.rows bank).places → ⟦<Self as DocSet>⟧.meaning result.1 ≡ calm (threshold_list minimum (C.ScoreCombiner.taken combiner) (C.ScoreCombiner.told combiner) (B.Bank.rows bank).places) }
        ensures waits { refusal_of (length (B.Bank.rows bank).places) minimum ≡ None → unread_of result.1 ≡ nat_lt (length (B.Bank.rows bank).places) minimum }
        ensures reads { refusal_of (length (B.Bank.rows bank).places) minimum ≡ None → AllSteady (B.Bank.rows bank).places → (k : ℕ) → k < 32 → at (left_of B.Bank.rows result.1) k ≡ at (read_to (unread_of result.1) (doc_of result.1) (B.Bank.rows bank).places) k }
    {
        let count = bank.len();
        if count > MOST {
            return (
                Some(Refusal::TooManySets),
                Disjunction::refused(bank, combiner, minimum),
            );
        }
        if minimum == 0 {
            return (
                Some(Refusal::MinimumZero),
                Disjunction::refused(bank, combiner, minimum),
            );
        }
        let mut queue = Queue::new(bank, count);
        let stand = if count < minimum {
            None
        } else {
            Some(queue.next_group(&combiner, minimum))
        };
        let set = Disjunction {
            queue,
            combiner,
            minimum,
            stand,
        };
        (None, set)
    }

    // Whether a set has something left, or all are yet to be read.
    fn is_open(&self) -> bool
        ensures { result ≡ (unread_of self.now || nat_lt 0 (length self.now.queue.chains)) }
    {
        self.stand.is_none() || !self.queue.chains.is_empty()
    }
}

impl<B: Bank, C: ScoreCombiner> DocSet for Disjunction<B, C> {
    ghost meaning = { λ d. threshold_meaning B.Bank.rows C.ScoreCombiner.taken C.ScoreCombiner.told d };

    ghost hint = { λ d. guess_of (λ b. (B.Bank.rows b).hints) d };

    ghost price = { λ d. guess_of (λ b. (B.Bank.rows b).prices) d };

    fn doc(&self) -> u32
        ensures told { Told (⟦<Self as DocSet>⟧.meaning self.now) result }
        ensures stands { doc_of self.now ≡ result }
    {
        self.stand.map_or(TERMINATED, |stand| stand.doc)
    }

    // Every set is read past the document that this comes to. At the end, with nothing unread, nothing moves.
    fn advance(&mut self) -> u32
        ensures moved { Moved (⟦<Self as DocSet>⟧.meaning self.old) (⟦<Self as DocSet>⟧.meaning self.new) result }
        ensures read { unread_of self.new ≡ false }
        ensures reads { Steady (⟦<Self as DocSet>⟧.meaning self.old) → left_of B.Bank.rows self.new ≡ passed (suc result) (left_of B.Bank.rows self.old) }
        ensures stands { doc_of self.new ≡ result }
    {
        if self.stand.is_some_and(|stand| stand.doc == TERMINATED) {
            return TERMINATED;
        }
        let stand = self.queue.next_group(&self.combiner, self.minimum);
        self.stand = Some(stand);
        stand.doc
    }

    // The given body again, to promise more: every set is read past the document that this comes to, unless all are yet to be
    // read.
    fn seek(&mut self, target: u32) -> u32
        ensures sought { Sought target (⟦<Self as DocSet>⟧.meaning self.old) (⟦<Self as DocSet>⟧.meaning self.new) result }
        ensures waits { unread_of self.new ≡ unread_of self.old }
        ensures reads { Steady (⟦<Self as DocSet>⟧.meaning self.old) → left_of B.Bank.rows self.new ≡ read_to (unread_of self.old) result (left_of B.Bank.rows self.old) }
    {
        let mut doc = self.doc();
        while doc < target && doc != TERMINATED {
            doc = self.advance();
        }
        doc
    }

    fn seek_danger(&mut self, target: u32) -> SeekDangerResult {
        self.probe_by_seek(target)
    }

    // The greatest hint of all sets, while any of them has something left or all are yet to be read.
    fn size_hint(&self) -> u32 {
        if self.is_open() {
            self.queue.sets.greatest_hint()
        } else {
            0
        }
    }

    // The greatest cost of all sets, likewise.
    fn cost(&self) -> u64 {
        if self.is_open() {
            self.queue.sets.greatest_cost()
        } else {
            0
        }
    }
}

impl<B: Bank, C: ScoreCombiner> Scorer for Disjunction<B, C> {
    fn score(&mut self) -> f32 {
        self.stand.map_or(0.0, |stand| stand.score)
    }
}
