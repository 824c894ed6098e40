ghost use Rattle.std.specs.Prelude.{◌≡◌, ◌<◌, None};
ghost use Rattle.docset.specs.Meaning.{TERM, Steady};
ghost use Rattle.docset.specs.Calls.{Moved, Sought, Probed, Filled};
ghost use Rattle.combiner.specs.Scores.{combined};
ghost use Rattle.scored.specs.Rescored.{retold};
ghost use Rattle.scored.specs.Optional.{both, opted, LookedUp};

use combiner::score_combiner::{ScoreCombiner, combine_two};
use docset::alive_bitset::AliveBitSet;
use docset::docset::{COLLECT_BLOCK_BUFFER_LEN, DocSet, SeekDangerResult, TERMINATED};
use docset::scorer::Scorer;
use std::marker::PhantomData;

// The documents of the required set. Each score combines the required one and then, where the optional set has the
// document too, the optional one. Only `score` asks the optional set, and each other call promises that it stays as it is.
#[derive(Drop)]
pub struct RequiredOptionalScorer<R, O, C> {
    required: R,
    optional: O,
    // The score of the current document, once it was asked for.
    score_cache: Option<f32>,
    combiner: PhantomData<C>,
}

// The score of an id, if the set has it. The set is sought only where it has not passed the id.
fn score_of<O: Scorer>(optional: &mut O, doc: u32) -> Option<f32>
    requires { doc < TERM }
    ensures { LookedUp doc (O.DocSet.meaning optional.old) (O.DocSet.meaning optional.new) result }
{
    if optional.doc() > doc {
        return None;
    }
    let found = optional.seek(doc);
    if found != doc {
        return None;
    }
    Some(optional.score())
}

impl<R: Scorer, O: Scorer, C: ScoreCombiner> RequiredOptionalScorer<R, O, C> {
    // Neither set is moved.
    pub fn new(required: R, optional: O) -> RequiredOptionalScorer<R, O, C>
        ensures below { result.required ≡ required }
        ensures beside { result.optional ≡ optional }
        ensures unread { result.score_cache ≡ None }
        ensures list { Steady (O.DocSet.meaning optional) → ⟦<RequiredOptionalScorer<R, O, C> as DocSet>⟧.meaning result ≡ retold (both (combined (C.ScoreCombiner.taken C.ScoreCombiner.plain) (C.ScoreCombiner.told C.ScoreCombiner.plain)) (O.DocSet.meaning optional).pairs) (R.DocSet.meaning required) }
    {
        RequiredOptionalScorer {
            required,
            optional,
            score_cache: None,
            combiner: PhantomData,
        }
    }
}

impl<R: Scorer, O: Scorer, C: ScoreCombiner> DocSet for RequiredOptionalScorer<R, O, C> {
    ghost meaning = { λ s. opted (combined (C.ScoreCombiner.taken C.ScoreCombiner.plain) (C.ScoreCombiner.told C.ScoreCombiner.plain)) s.score_cache (R.DocSet.meaning s.required) (O.DocSet.meaning s.optional) };

    ghost hint = { λ s. R.DocSet.hint s.required };

    ghost price = { λ s. R.DocSet.price s.required };

    fn doc(&self) -> u32 {
        self.required.doc()
    }

    fn advance(&mut self) -> u32
        ensures moves { Moved (⟦<Self as DocSet>⟧.meaning self.old) (⟦<Self as DocSet>⟧.meaning self.new) result }
        ensures unasked { self.new.optional ≡ self.old.optional }
    {
        let doc = self.required.advance();
        self.score_cache = None;
        doc
    }

    fn seek(&mut self, target: u32) -> u32
        ensures moves { Sought target (⟦<Self as DocSet>⟧.meaning self.old) (⟦<Self as DocSet>⟧.meaning self.new) result }
        ensures unasked { self.new.optional ≡ self.old.optional }
    {
        let doc = self.required.seek(target);
        self.score_cache = None;
        doc
    }

    fn seek_danger(&mut self, target: u32) -> SeekDangerResult
        ensures moves { Probed target (⟦<Self as DocSet>⟧.meaning self.old) (⟦<Self as DocSet>⟧.meaning self.new) result }
        ensures unasked { self.new.optional ≡ self.old.optional }
    {
        let answer = self.required.seek_danger(target);
        self.score_cache = None;
        answer
    }

    fn fill_buffer(&mut self, buffer: &mut [u32; COLLECT_BLOCK_BUFFER_LEN]) -> usize
        ensures moves { Filled (⟦<Self as DocSet>⟧.meaning self.old) (⟦<Self as DocSet>⟧.meaning self.new) buffer.old buffer.new result }
        ensures unasked { self.new.optional ≡ self.old.optional }
    {
        let filled = self.required.fill_buffer(buffer);
        self.score_cache = None;
        filled
    }

    fn count(self, alive_bitset: &AliveBitSet) -> u32 {
        let RequiredOptionalScorer { required, .. } = self;
        required.count(alive_bitset)
    }

    fn count_including_deleted(self) -> u32 {
        let RequiredOptionalScorer { required, .. } = self;
        required.count_including_deleted()
    }

    fn size_hint(&self) -> u32 {
        self.required.size_hint()
    }

    fn cost(&self) -> u64 {
        self.required.cost()
    }
}

impl<R: Scorer, O: Scorer, C: ScoreCombiner> Scorer for RequiredOptionalScorer<R, O, C> {
    // The optional set is looked up here alone, and once for each document. Where no document is left it is 0.0.
    fn score(&mut self) -> f32 {
        if let Some(score) = self.score_cache {
            return score;
        }
        let doc = self.required.doc();
        if doc == TERMINATED {
            return 0.0;
        }
        let first = self.required.score();
        let second = score_of(&mut self.optional, doc);
        let score = combine_two(&C::default(), first, second);
        self.score_cache = Some(score);
        score
    }
}
