ghost use Rattle.std.specs.Prelude.{◌≡◌, ◌≤◌, length};
ghost use Rattle.leaves.specs.Lists.{first_large, first_flat, ids_refusal, kept_ids, listed, Small, Rises};

use docset::docset::{DocSet, SeekDangerResult, TERMINATED};
use docset::refusal::Refusal;
use docset::scorer::Scorer;

// The caller's ids, which are not copied, and how far they have been read.
#[derive(Drop)]
pub struct VecDocSet<'a> {
    doc_ids: &'a [u32],
    cursor: usize,
    ghost small: { Small doc_ids.now (length doc_ids.now) },
    ghost rises: { Rises doc_ids.now (length doc_ids.now) },
    ghost within: { cursor ≤ length doc_ids.now },
}

// The place of the first id that is too large.
fn find_large(doc_ids: &[u32]) -> Option<usize>
    ensures { result ≡ first_large doc_ids.now }
{
    doc_ids.iter().position(|id| *id >= TERMINATED)
}

// The place of the first id that is not above the one before it. A loop: as a chain with `position` its proof did not close.
fn find_flat(doc_ids: &[u32]) -> Option<usize>
    ensures { result ≡ first_flat doc_ids.now }
{
    for (place, pair) in doc_ids.windows(2).enumerate() {
        if pair[1] <= pair[0] {
            return Some(place + 1);
        }
    }
    None
}

// Why a list of ids is refused, if it is.
pub fn check_ids(doc_ids: &[u32]) -> Option<Refusal>
    ensures { result ≡ ids_refusal doc_ids.now }
{
    if let Some(place) = find_large(doc_ids) {
        return Some(Refusal::TooLarge(place));
    }
    find_flat(doc_ids).map(Refusal::NotRising)
}

impl<'a> VecDocSet<'a> {
    // A leaf over these ids, from the first on, or an empty leaf beside the reason why. It is no `Result`,
    // here and in the other builders: a set that is refused can still be used, as an empty one. There is a literal for each
    // case, which is proved by what that case knows.
    pub fn new(doc_ids: &'a [u32]) -> (Option<Refusal>, VecDocSet<'a>)
        ensures answer { result.0 ≡ ids_refusal doc_ids.now }
        ensures over { result.1.doc_ids.now ≡ kept_ids result.0 doc_ids.now }
        ensures fresh { result.1.cursor ≡ 0 }
    {
        match check_ids(doc_ids) {
            Some(refusal) => (
                Some(refusal),
                VecDocSet {
                    doc_ids: &doc_ids[0..0],
                    cursor: 0,
                },
            ),
            None => (None, VecDocSet { doc_ids, cursor: 0 }),
        }
    }
}

impl<'a> DocSet for VecDocSet<'a> {
    ghost meaning = { λ s. listed s.doc_ids.now s.cursor };

    ghost hint = { λ s. length s.doc_ids.now };

    ghost price = { λ s. length s.doc_ids.now };

    fn doc(&self) -> u32 {
        self.doc_ids.get(self.cursor).copied().unwrap_or(TERMINATED)
    }

    fn advance(&mut self) -> u32 {
        // Each way has its own answer: with one `doc()` behind both, loops over the set were slower.
        if self.cursor < self.doc_ids.len() {
            self.cursor += 1;
            self.doc()
        } else {
            TERMINATED
        }
    }

    // Its seek is the given one, id by id, as tantivy's is.
    fn seek_danger(&mut self, target: u32) -> SeekDangerResult {
        self.probe_by_seek(target)
    }

    fn count_including_deleted(self) -> u32 {
        (self.doc_ids.len() - self.cursor) as u32
    }

    fn size_hint(&self) -> u32 {
        self.doc_ids.len() as u32
    }

    fn cost(&self) -> u64 {
        self.doc_ids.len() as u64
    }
}

impl<'a> Scorer for VecDocSet<'a> {
    fn score(&mut self) -> f32 {
        if self.cursor < self.doc_ids.len() {
            1.0
        } else {
            0.0
        }
    }
}
