ghost use Rattle.std.specs.Prelude.{◌≡◌, ℕ, ◌<◌, ◌≤◌, [], length};
ghost use Rattle.docset.specs.Meaning.{Steady, calm, from};
ghost use Rattle.docset.specs.Calls.{Moved, Sought, Probed, Filled};
ghost use Rattle.combiner.specs.Estimate.{union_estimate};
ghost use Rattle.bank.specs.Places.{at};
ghost use Rattle.live.specs.Sets.{AllSteady, lowest_of};
ghost use Rattle.live.specs.Lists.{union_list};
ghost use Rattle.live.specs.Kept.{capped_sum};
ghost use Rattle.live.specs.Views.{awaited, live_hints, live_prices};
ghost use Rattle.refill.specs.Refills.{reach};
ghost use Rattle.refill.specs.State.{bound, union_means, Opened, Anew};
ghost use Rattle.union.specs.Builds.{union_refusal};
ghost use Rattle.union.specs.Reading.{left_of, reads_on, reads_through};

use super::BufferedUnionScorer;
use bank::bank::Bank;
use combiner::score_combiner::ScoreCombiner;
use docset::docset::{COLLECT_BLOCK_BUFFER_LEN, DocSet, SeekDangerResult, TERMINATED};
use docset::refusal::Refusal;
use docset::scorer::Scorer;
use live::live::Live;
use refill::refill::{horizon, refill};
use window::window::{HORIZON_NUM_TINYBITSETS, Window};

// How many sets a union takes at most: as many as `Live` asks.
const MOST: usize = live::live::MOST;

impl<B: Bank, C: ScoreCombiner> BufferedUnionScorer<B, C> {
    // Opens a window at the lowest id of the sets, and takes its first document. What the old window still held is dropped.
    fn open(&mut self) -> u32
        ensures opened { Opened (C.ScoreCombiner.taken self.old.combiner) (C.ScoreCombiner.told self.old.combiner) (left_of B.Bank.rows self.old) (awaited B.Bank.rows self.old.sets) (⟦<BufferedUnionScorer<B, C> as DocSet>⟧.meaning self.new) result }
        ensures stands { self.new.doc ≡ result }
        ensures docs { self.new.num_docs ≡ self.old.num_docs }
        ensures anew { Anew (left_of B.Bank.rows self.old) (left_of B.Bank.rows self.new) self.new.start result }
    {
        self.window.skip(HORIZON_NUM_TINYBITSETS);
        let low = self.sets.lowest();
        refill(&mut self.sets, &mut self.window, &self.combiner, low);
        self.start = low;
        match self.window.next() {
            // As in `advance`. A method for both would have to promise of each field that it stays.
            Some((delta, tally)) => {
                self.score = self.combiner.tell(&tally);
                self.doc = low + delta;
                self.doc
            }
            None => {
                self.score = 0.0;
                self.doc = TERMINATED;
                TERMINATED
            }
        }
    }

    // The union of the sets of a bank, in a segment of so many documents. More than 32 sets are refused: then the union is
    // empty, and nothing is asked of them. The sets are read to the end of the first window.
    pub fn build(
        bank: B,
        combiner: C,
        num_docs: u32,
    ) -> (Option<Refusal>, BufferedUnionScorer<B, C>)
        ensures refuses { result.0 ≡ union_refusal (length (B.Bank.rows bank).places) }
        ensures lists { length (B.Bank.rows bank).places ≤ 32 → AllSteady (B.Bank.rows bank).places → ⟦<BufferedUnionScorer<B, C> as DocSet>⟧.meaning result.1 ≡ calm (union_list (C.ScoreCombiner.taken combiner) (C.ScoreCombiner.told combiner) (B.Bank.rows bank).places) }
        ensures reads { length (B.Bank.rows bank).places ≤ 32 → AllSteady (B.Bank.rows bank).places → (k : ℕ) → at (left_of B.Bank.rows result.1) k ≡ calm (from (reach (lowest_of (B.Bank.rows bank).places)) (at (B.Bank.rows bank).places k).pairs) }
        ensures docs { length (B.Bank.rows bank).places ≤ 32 → result.1.num_docs ≡ num_docs }
        ensures empty { 32 < length (B.Bank.rows bank).places → ⟦<BufferedUnionScorer<B, C> as DocSet>⟧.meaning result.1 ≡ calm [] }
        ensures unread { 32 < length (B.Bank.rows bank).places → result.1.sets.bank ≡ bank }
        ensures hint { 32 < length (B.Bank.rows bank).places → ⟦<BufferedUnionScorer<B, C> as DocSet>⟧.hint result.1 ≡ 0 }
        ensures cost { 32 < length (B.Bank.rows bank).places → ⟦<BufferedUnionScorer<B, C> as DocSet>⟧.price result.1 ≡ 0 }
    {
        // One literal for each case: each is proved by what its case knows.
        let window = Window::new();
        if bank.len() > MOST {
            let sets = Live::idle(bank);
            let refused = BufferedUnionScorer {
                sets,
                combiner,
                window,
                start: 0,
                doc: TERMINATED,
                score: 0.0,
                num_docs: 0,
            };
            return (Some(Refusal::TooManySets), refused);
        }
        let sets = Live::new(bank);
        let mut scorer = BufferedUnionScorer {
            sets,
            combiner,
            window,
            start: 0,
            doc: 0,
            score: 0.0,
            num_docs,
        };
        scorer.open();
        (None, scorer)
    }

    // Goes on to a target before the end of the window. It is the body that DocSet gives a seek, with one more promise: how far the
    // sets are read.
    fn walk_to(&mut self, target: u32) -> u32
        requires { target ≤ bound self.old.start self.old.doc }
        ensures sought { Sought target (⟦<BufferedUnionScorer<B, C> as DocSet>⟧.meaning self.old) (⟦<BufferedUnionScorer<B, C> as DocSet>⟧.meaning self.new) result }
        ensures reads { reads_on B.Bank.rows self.old self.new }
        ensures docs { self.new.num_docs ≡ self.old.num_docs }
    {
        let mut doc = self.doc;
        while doc < target && doc != TERMINATED {
            doc = self.advance();
        }
        doc
    }
}

impl<B: Bank, C: ScoreCombiner> DocSet for BufferedUnionScorer<B, C> {
    ghost meaning = { λ u. union_means (C.ScoreCombiner.taken u.combiner) (C.ScoreCombiner.told u.combiner) u.start u.doc u.score u.window u.sets.live (B.Bank.rows u.sets.bank).places };

    ghost hint = { λ u. union_estimate (live_hints B.Bank.rows u.sets) u.num_docs };

    ghost price = { λ u. capped_sum (live_prices B.Bank.rows u.sets) };

    fn doc(&self) -> u32 {
        self.doc
    }

    // The next document of the window, or of a new one.
    fn advance(&mut self) -> u32
        ensures moves { Moved (⟦<Self as DocSet>⟧.meaning self.old) (⟦<Self as DocSet>⟧.meaning self.new) result }
        ensures reads { reads_on B.Bank.rows self.old self.new }
        ensures docs { self.new.num_docs ≡ self.old.num_docs }
        ensures stands { self.new.doc ≡ result }
    {
        if self.doc == TERMINATED {
            return TERMINATED;
        }
        match self.window.next() {
            Some((delta, tally)) => {
                self.score = self.combiner.tell(&tally);
                self.doc = self.start + delta;
                self.doc
            }
            None => self.open(),
        }
    }

    // Within the window the words before the target's are emptied; past it the sets are sought, and a window is opened there.
    fn seek(&mut self, target: u32) -> u32
        ensures moves { Sought target (⟦<Self as DocSet>⟧.meaning self.old) (⟦<Self as DocSet>⟧.meaning self.new) result }
        ensures reads { reads_on B.Bank.rows self.old self.new }
        ensures docs { self.new.num_docs ≡ self.old.num_docs }
    {
        if self.doc >= target || self.doc == TERMINATED {
            return self.doc;
        }
        let end = horizon(self.start);
        if target < end {
            let gap = target - self.start;
            let word = (gap / 64) as usize;
            self.window.skip(word);
            return self.walk_to(target);
        }
        self.sets.seek_all(target);
        self.open()
    }

    // As `probe_by_seek`, with one more promise. A steady union stays steady; a target that is no id moves nothing.
    fn seek_danger(&mut self, target: u32) -> SeekDangerResult
        ensures probes { Probed target (⟦<Self as DocSet>⟧.meaning self.old) (⟦<Self as DocSet>⟧.meaning self.new) result }
        ensures stays { Steady (⟦<Self as DocSet>⟧.meaning self.old) → Steady (⟦<Self as DocSet>⟧.meaning self.new) }
        ensures docs { self.new.num_docs ≡ self.old.num_docs }
    {
        if target >= TERMINATED {
            return SeekDangerResult::SeekLowerBound(TERMINATED);
        }
        let doc = self.seek(target);
        SeekDangerResult::at(doc, target)
    }

    // Writes ids straight from the window's words. A turn is a window and not a place of the buffer, so this is no loop over the buffer.
    fn fill_buffer(&mut self, buffer: &mut [u32; COLLECT_BLOCK_BUFFER_LEN]) -> usize
        ensures moves { Filled (⟦<Self as DocSet>⟧.meaning self.old) (⟦<Self as DocSet>⟧.meaning self.new) buffer.old buffer.new result }
        ensures reads { reads_through B.Bank.rows result (⟦<Self as DocSet>⟧.meaning self.old).pairs self.old self.new }
        ensures docs { self.new.num_docs ≡ self.old.num_docs }
    {
        let mut filled: usize = 0;
        let mut doc = self.doc;
        while filled < COLLECT_BLOCK_BUFFER_LEN && doc != TERMINATED {
            buffer[filled] = doc;
            let start = self.start;
            filled = self.window.drain(start, buffer, filled + 1);
            doc = self.advance();
        }
        filled
    }

    // Counts what each window holds by its bits, a window at a time.
    fn count_including_deleted(mut self) -> u32 {
        let mut count: u32 = 0;
        let mut doc = self.doc;
        while doc != TERMINATED {
            count = count.saturating_add(self.window.len() + 1);
            doc = self.open();
        }
        count
    }

    // The estimate of the union of the sets that have not ended.
    fn size_hint(&self) -> u32 {
        self.sets.estimate(self.num_docs)
    }

    // The sum of the costs of the sets that have not ended.
    fn cost(&self) -> u64 {
        self.sets.total_cost()
    }
}

impl<B: Bank, C: ScoreCombiner> Scorer for BufferedUnionScorer<B, C> {
    // At the end it is 0.0, whatever score is kept: no fact of the type ties the two.
    fn score(&mut self) -> f32 {
        if self.doc == TERMINATED {
            return 0.0;
        }
        self.score
    }
}
