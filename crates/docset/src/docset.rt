ghost use Rattle.std.specs.Prelude.{◌≡◌, ℕ, if◌then◌else◌, nat_eq};
ghost use Rattle.docset.specs.declared.docset.SeekDangerResult.TheVariants.{Found, SeekLowerBound};
ghost use Rattle.docset.specs.Meaning.{Meaning, Steady};
ghost use Rattle.docset.specs.Calls.{Told, Moved, Sought, Probed, ProbedSteady, Filled, Counted, CountedAlive};

use crate::alive_bitset::AliveBitSet;

// What `doc` answers where no document is left. Every id is smaller.
pub const TERMINATED: u32 = 2147483647;

// How many ids one block holds.
pub const COLLECT_BLOCK_BUFFER_LEN: usize = 64;

// What a probe answers. It is no `Result`: the name and the cases are tantivy's, and a miss is no error.
#[derive(Clone, Copy, PartialEq, Eq, Debug)]
pub enum SeekDangerResult {
    // The target is listed, and is now the current document.
    Found,
    // It is not. The next listed document is not below this bound, unless the bound is TERMINATED.
    SeekLowerBound(u32),
}

impl SeekDangerResult {
    // The answer of a set that was sought to the target, and stands at this document.
    pub fn at(doc: u32, target: u32) -> SeekDangerResult
        ensures { result ≡ (if nat_eq doc target then Found else SeekLowerBound doc) }
    {
        if doc == target {
            SeekDangerResult::Found
        } else {
            SeekDangerResult::SeekLowerBound(doc)
        }
    }
}

// A list of documents in rising order, of which it hands out one after the other.
//
// `meaning` is the list of what is still to come, the current document first, with a mark: the calls of a steady set
// answer by that list, and a set stays steady until a probe misses. `hint` and `price` are what `size_hint` and `cost` answer.
// A count takes the set: the checker refuses every call after it.
//
// A set that has nothing better keeps the bodies that are given here: they go on one document at a time. `seek_danger` has none, since
// after a miss only probes are promised, and a seek cannot serve for every set; a set that is always steady calls `probe_by_seek`.
pub trait DocSet: Drop + Sized {
    ghost meaning: { Self → Meaning };

    ghost hint: { Self → ℕ };

    ghost price: { Self → ℕ };

    // The current document, or TERMINATED.
    fn doc(&self) -> u32
        ensures { Told (meaning self.now) result };

    // Goes on to the next document, and answers it.
    fn advance(&mut self) -> u32
        ensures { Moved (meaning self.old) (meaning self.new) result };

    // Goes on to the first document at or past the target, and answers it. It never goes back.
    fn seek(&mut self, target: u32) -> u32
        ensures { Sought target (meaning self.old) (meaning self.new) result }
    {
        let mut doc = self.doc();
        while doc < target && doc != TERMINATED {
            doc = self.advance();
        }
        doc
    }

    // Whether the target is listed. After a miss only probes are promised, until one finds its target.
    fn seek_danger(&mut self, target: u32) -> SeekDangerResult
        ensures { Probed target (meaning self.old) (meaning self.new) result };

    // A probe by a seek. It is promised of steady sets alone, and leaves them steady after a miss too.
    fn probe_by_seek(&mut self, target: u32) -> SeekDangerResult
        ensures probes { ProbedSteady target (meaning self.old) (meaning self.new) result }
        ensures stays { Steady (meaning self.old) → Steady (meaning self.new) }
    {
        let doc = self.doc();
        if target >= TERMINATED {
            return SeekDangerResult::SeekLowerBound(TERMINATED);
        }
        if target <= doc {
            return SeekDangerResult::at(doc, target);
        }
        let doc = self.seek(target);
        SeekDangerResult::at(doc, target)
    }

    // Writes the next documents to the front of the buffer, passes them, and answers how many there were.
    fn fill_buffer(&mut self, buffer: &mut [u32; COLLECT_BLOCK_BUFFER_LEN]) -> usize
        ensures { Filled (meaning self.old) (meaning self.new) buffer.old buffer.new result }
    {
        self.fill_by_advance(buffer)
    }

    // A block by going on one document at a time. It is the given body of `fill_buffer` under a name of its own, so that a set with a
    // `fill_buffer` of its own can still call it.
    fn fill_by_advance(&mut self, buffer: &mut [u32; COLLECT_BLOCK_BUFFER_LEN]) -> usize
        ensures { Filled (meaning self.old) (meaning self.new) buffer.old buffer.new result }
    {
        let mut doc = self.doc();
        if doc == TERMINATED {
            return 0;
        }
        for (place, id) in buffer.iter_mut().enumerate() {
            *id = doc;
            doc = self.advance();
            if doc == TERMINATED {
                return place + 1;
            }
        }
        COLLECT_BLOCK_BUFFER_LEN
    }

    // How many of the documents still listed are alive.
    fn count(mut self, alive_bitset: &AliveBitSet) -> u32
        ensures { CountedAlive alive_bitset.now.words.now (meaning self) result }
    {
        let mut alive: u32 = 0;
        let mut doc = self.doc();
        while doc != TERMINATED {
            if alive_bitset.is_alive(doc) {
                alive = alive.saturating_add(1);
            }
            doc = self.advance();
        }
        alive
    }

    // How many documents are still listed. It is the loop of `count` without the test: a common function would need a bound on this
    // trait, which a body here cannot meet.
    fn count_including_deleted(mut self) -> u32
        ensures { Counted (meaning self) result }
    {
        let mut count: u32 = 0;
        let mut doc = self.doc();
        while doc != TERMINATED {
            count = count.saturating_add(1);
            doc = self.advance();
        }
        count
    }

    // A guess at the number of documents.
    fn size_hint(&self) -> u32
        ensures { result ≡ hint self.now };

    // A guess at the work of going through all of them.
    fn cost(&self) -> u64
        ensures { result ≡ price self.now };
}
