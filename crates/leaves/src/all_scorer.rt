ghost use Rattle.std.specs.Prelude.{◌≡◌, ◌+◌, ◌≤◌, cond, if◌then◌else◌, Some, None, nat_lt, length};
ghost use Rattle.docset.specs.Meaning.{calm, ones};
ghost use Rattle.docset.specs.declared.refusal.Refusal.TheVariants.{SegmentTooLarge};
ghost use Rattle.leaves.specs.Ranges.{run};

use docset::docset::{COLLECT_BLOCK_BUFFER_LEN, DocSet, SeekDangerResult, TERMINATED};
use docset::refusal::Refusal;
use docset::scorer::Scorer;

// All documents of a segment, from `doc` on; it has ended when `doc` is `max_doc`.
#[derive(Drop)]
pub struct AllScorer {
    doc: u32,
    max_doc: u32,
    ghost within: { doc ≤ max_doc },
    ghost small: { max_doc ≤ 2147483647 },
}

impl AllScorer {
    // The ids 0 to max_doc - 1, or an empty set where a segment cannot have so many documents.
    pub fn new(max_doc: u32) -> (Option<Refusal>, AllScorer)
        ensures answer { result.0 ≡ (if nat_lt 2147483647 max_doc then Some SegmentTooLarge else None) }
        ensures over { result.1.max_doc ≡ cond (nat_lt 2147483647 max_doc) 0 max_doc }
        ensures fresh { result.1.doc ≡ 0 }
    {
        if max_doc > TERMINATED {
            return (
                Some(Refusal::SegmentTooLarge),
                AllScorer { doc: 0, max_doc: 0 },
            );
        }
        (None, AllScorer { doc: 0, max_doc })
    }
}

// Writes the numbers from `first` on.
fn write_run(buffer: &mut [u32], first: u32)
    requires { first + length buffer.old ≤ 2147483647 }
    ensures { buffer.new ≡ run first (first + length buffer.old) }
{
    for (place, id) in buffer.iter_mut().enumerate() {
        *id = first + place as u32;
    }
}

impl DocSet for AllScorer {
    ghost meaning = { λ s. calm (ones (run s.doc s.max_doc)) };

    ghost hint = { λ s. s.max_doc };

    ghost price = { λ s. s.max_doc };

    fn doc(&self) -> u32 {
        if self.doc < self.max_doc {
            self.doc
        } else {
            TERMINATED
        }
    }

    fn advance(&mut self) -> u32 {
        if self.doc < self.max_doc {
            self.doc += 1;
        }
        self.doc()
    }

    fn seek(&mut self, target: u32) -> u32 {
        // A test of its own for a target that is not ahead: by a `clamp` a run of seeks took 1.4 times the instructions.
        if target <= self.doc {
            return self.doc();
        }
        self.doc = target.min(self.max_doc);
        self.doc()
    }

    fn seek_danger(&mut self, target: u32) -> SeekDangerResult {
        self.probe_by_seek(target)
    }

    fn fill_buffer(&mut self, buffer: &mut [u32; COLLECT_BLOCK_BUFFER_LEN]) -> usize {
        let first = self.doc;
        let len = (self.max_doc - first).min(COLLECT_BLOCK_BUFFER_LEN as u32);
        write_run(&mut buffer[..len as usize], first);
        self.doc = first + len;
        len as usize
    }

    fn count_including_deleted(self) -> u32 {
        self.max_doc - self.doc
    }

    fn size_hint(&self) -> u32 {
        self.max_doc
    }

    fn cost(&self) -> u64 {
        self.max_doc as u64
    }
}

impl Scorer for AllScorer {
    // As in the other leaves, but for the test of the end, which is each leaf's own.
    fn score(&mut self) -> f32 {
        if self.doc < self.max_doc { 1.0 } else { 0.0 }
    }
}
