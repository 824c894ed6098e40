ghost use Rattle.std.specs.Prelude.{◌≡◌};
ghost use Rattle.combiner.specs.Scores.{refusal_of};
ghost use Rattle.scored.specs.Boosts.{factor_of, boost_means, unless};

use docset::alive_bitset::AliveBitSet;
use docset::docset::{COLLECT_BLOCK_BUFFER_LEN, DocSet, SeekDangerResult, TERMINATED};
use docset::refusal::Refusal;
use docset::scorer::Scorer;

// The set below with every score multiplied by a factor. All else is that of the set below.
#[derive(Drop)]
pub struct BoostScorer<S> {
    underlying: S,
    // None where the factor was refused.
    boost: Option<f32>,
}

impl<S: Scorer> BoostScorer<S> {
    // A factor that is infinite or not a number is refused. The set that comes with a refusal is empty,
    // and never asks the one that was moved in.
    pub fn new(underlying: S, boost: f32) -> (Option<Refusal>, BoostScorer<S>)
        ensures refuses { result.0 ≡ refusal_of boost }
        ensures below { result.1.underlying ≡ underlying }
        ensures factor { result.1.boost ≡ factor_of boost }
    {
        if boost.is_finite() {
            (
                None,
                BoostScorer {
                    underlying,
                    boost: Some(boost),
                },
            )
        } else {
            (
                Some(Refusal::NotFinite),
                BoostScorer {
                    underlying,
                    boost: None,
                },
            )
        }
    }
}

// Each call is another method of the set below, so that each has its own match on the boost.
impl<S: Scorer> DocSet for BoostScorer<S> {
    ghost meaning = { λ b. boost_means b.boost (S.DocSet.meaning b.underlying) };

    ghost hint = { λ b. unless b.boost (S.DocSet.hint b.underlying) };

    ghost price = { λ b. unless b.boost (S.DocSet.price b.underlying) };

    fn doc(&self) -> u32 {
        match self.boost {
            Some(_) => self.underlying.doc(),
            None => TERMINATED,
        }
    }

    fn advance(&mut self) -> u32 {
        match self.boost {
            Some(_) => self.underlying.advance(),
            None => TERMINATED,
        }
    }

    fn seek(&mut self, target: u32) -> u32 {
        match self.boost {
            Some(_) => self.underlying.seek(target),
            None => TERMINATED,
        }
    }

    fn seek_danger(&mut self, target: u32) -> SeekDangerResult {
        match self.boost {
            Some(_) => self.underlying.seek_danger(target),
            None => SeekDangerResult::SeekLowerBound(TERMINATED),
        }
    }

    fn fill_buffer(&mut self, buffer: &mut [u32; COLLECT_BLOCK_BUFFER_LEN]) -> usize {
        match self.boost {
            Some(_) => self.underlying.fill_buffer(buffer),
            None => 0,
        }
    }

    fn count(self, alive_bitset: &AliveBitSet) -> u32 {
        let BoostScorer { underlying, boost } = self;
        match boost {
            Some(_) => underlying.count(alive_bitset),
            None => 0,
        }
    }

    fn count_including_deleted(self) -> u32 {
        let BoostScorer { underlying, boost } = self;
        match boost {
            Some(_) => underlying.count_including_deleted(),
            None => 0,
        }
    }

    fn size_hint(&self) -> u32 {
        match self.boost {
            Some(_) => self.underlying.size_hint(),
            None => 0,
        }
    }

    fn cost(&self) -> u64 {
        match self.boost {
            Some(_) => self.underlying.cost(),
            None => 0,
        }
    }
}

impl<S: Scorer> Scorer for BoostScorer<S> {
    // One product, rounded once. Where no document is left it is 0.0, and no product: a negative factor would give -0.0.
    fn score(&mut self) -> f32 {
        match self.boost {
            Some(boost) if self.underlying.doc() != TERMINATED => self.underlying.score() * boost,
            _ => 0.0,
        }
    }
}
