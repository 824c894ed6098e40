ghost use Rattle.std.specs.Prelude.{◌≡◌, ℕ, ◌+◌, ◌*◌, ◌<◌, ◌≤◌, min, slice_index, slice_index_or, slice_set};
ghost use Rattle.combiner.specs.Cells.{none, count};
ghost use Rattle.window.specs.Slots.{blank, without, Taken, Outside};
ghost use Rattle.window.specs.Windows.{cells, Same, Put, Pops, Wiped, Drains};

use super::{HORIZON, HORIZON_NUM_TINYBITSETS, Window};
use crate::word::{count_set, first_set, pop_lowest};
use combiner::score_combiner::{ScoreCombiner, Tally};
use docset::docset::{COLLECT_BLOCK_BUFFER_LEN, TERMINATED};

impl Window {
    // A window that holds nothing.
    pub fn new() -> Self
        ensures empty { (e : ℕ) → cells result e ≡ none }
    {
        Window {
            words: [0; HORIZON_NUM_TINYBITSETS],
            tallies: [Tally::new(); HORIZON as usize],
            bucket: 0,
        }
    }

    // Takes a score into the slot's tally. A slot that the window does not have is passed over.
    pub fn insert<C: ScoreCombiner>(&mut self, delta: u32, combiner: &C, score: f32)
        ensures puts { delta < 4096 → Put (C.ScoreCombiner.taken combiner.now) (cells self.old) (cells self.new) delta score }
        ensures passes { 4096 ≤ delta → Same (cells self.old) (cells self.new) }
    {
        if delta >= HORIZON {
            return;
        }
        let i = delta as usize;
        self.words[i / 64] |= 1 << (i % 64);
        self.bucket = 0;
        combiner.take(&mut self.tallies[i], score);
    }

    // Takes out the lowest slot of the word at `bucket`, which is not empty, with its tally.
    fn pop(&mut self) -> (u32, Tally)
        requires inside { self.old.bucket < 64 }
        requires some { 0 < slice_index self.old.words self.old.bucket }
        ensures taken { Taken self.old.words self.old.bucket result.0 self.new.words }
        ensures read { result.1 ≡ slice_index_or self.old.tallies result.0 blank }
        ensures wiped { self.new.tallies ≡ without self.old.tallies result.0 }
    {
        let low = pop_lowest(&mut self.words[self.bucket]);
        let delta = self.bucket * 64 + low as usize;
        let tally = self.tallies[delta];
        self.tallies[delta] = Tally::new();
        (delta as u32, tally)
    }

    // Takes out the lowest slot, with its tally.
    pub fn next(&mut self) -> Option<(u32, Tally)>
        ensures { Pops (cells self.old) (cells self.new) result }
    {
        let Some(empty) = first_set(&self.words[self.bucket..]) else {
            // Nothing is left: the next call does not go over the empty words again.
            self.bucket = HORIZON_NUM_TINYBITSETS;
            return None;
        };
        self.bucket += empty;
        Some(self.pop())
    }

    // Empties a word's slots. An empty word has none to empty.
    fn wipe(&mut self, at: usize)
        requires { at < 64 }
        ensures words { self.new.words ≡ slice_set self.old.words at 0 }
        ensures tallies { Outside (at * 64) (at * 64 + 64) self.old.tallies self.new.tallies }
        ensures bucket { self.new.bucket ≡ self.old.bucket }
    {
        if self.words[at] != 0 {
            self.words[at] = 0;
            self.tallies[at * 64..at * 64 + 64].fill(Tally::new());
        }
    }

    // Empties the slots of the words before one, and goes on from it.
    pub fn skip(&mut self, to: usize)
        ensures wiped { Wiped (cells self.old) (cells self.new) (min to 64 * 64) }
        ensures past { (e : ℕ) → 4096 ≤ e → cells self.new e ≡ none }
    {
        let end = to.min(HORIZON_NUM_TINYBITSETS);
        for bucket in self.bucket..end {
            self.wipe(bucket);
        }
        self.bucket = self.bucket.max(end);
    }

    // Takes out slots, lowest first, and writes their ids, counted from `start`, into the buffer after the places that are
    // filled already, until it is full. Answers how many places are filled then. Where `start` is past TERMINATED, or more
    // places are said to be filled than there are, nothing is changed. It takes the whole buffer and a length, since it promises
    // something at each.
    pub fn drain(
        &mut self,
        start: u32,
        buffer: &mut [u32; COLLECT_BLOCK_BUFFER_LEN],
        filled: usize,
    ) -> usize
        ensures { Drains (cells self.old) (cells self.new) start filled buffer.old buffer.new result }
    {
        if start > TERMINATED || filled > COLLECT_BLOCK_BUFFER_LEN {
            return filled;
        }
        for place in filled..COLLECT_BLOCK_BUFFER_LEN {
            let Some((delta, _)) = self.next() else {
                return place;
            };
            buffer[place] = start + delta;
        }
        COLLECT_BLOCK_BUFFER_LEN
    }

    // How many slots hold something.
    pub fn len(&self) -> u32
        ensures { result ≡ count (cells self.now) 0 4096 }
    {
        count_set(&self.words[self.bucket..])
    }
}
