ghost use Rattle.std.specs.Prelude.{◌≡◌, Bool, true, false, refl, T, List, ◌∷◌, length, Float};
ghost use Rattle.std.specs.Option.{option_to_list};
ghost use Rattle.combiner.specs.declared.score_combiner.Tally.{Tally};
ghost use Rattle.combiner.specs.Scores.{start, combined, zero, one, summed, unsigned, maxed, broken, finite, zero_finite, refusal_of, tie_breaker_of};
ghost use Rattle.std.proofs.Common.{rules, arith};

use docset::refusal::Refusal;

// What is told of a document whose scores are not read.
const UNREAD_SCORE: f32 = 1.0;

// What is remembered of the scores of one document: the greatest of them, and their sum.
#[derive(Clone, Copy)]
pub struct Tally {
    pub max: f32,
    pub sum: f32,
}

impl Tally {
    // The tally of no score.
    pub fn new() -> Tally
        ensures { result ≡ start }
    {
        Tally {
            max: f32::NEG_INFINITY,
            sum: 0.0,
        }
    }

    // Forgets every score.
    pub fn clear(&mut self)
        ensures { self.new ≡ start }
    {
        *self = Tally::new();
    }
}

// A way to make one score of several. It keeps nothing of its own: the scores of a document go into that document's tally.
//
// `taken` is what it makes of a tally and a score, `told` the score that it tells of a tally, and `plain` the combiner
// that is taken where none is asked for.
pub trait ScoreCombiner: Default + Drop + Sized {
    // Whether scores are read. The ghost member of this name is what contracts cite; it is checked to be the constant.
    const READS_SCORES: bool;

    ghost READS_SCORES: { Bool };

    ghost taken: { Self → Tally → Float → Tally };

    ghost told: { Self → Tally → Float };

    ghost plain: { Self };

    // Takes one more score into a document's tally.
    fn take(&self, tally: &mut Tally, score: f32)
        ensures { tally.new ≡ taken self.now tally.old score };

    // The combined score of those that the tally has taken.
    fn tell(&self, tally: &Tally) -> f32
        ensures { result ≡ told self.now tally.now };

    // A score that is not read changes nothing.
    ghost unread: { (c : Self) → (t : Tally) → (x y : Float) → READS_SCORES ≡ false → taken c t x ≡ taken c t y };

    // `default` answers the plain combiner.
    ghost usual: { (c : Self) → Self.is_default c → c ≡ plain };
}

// Reads no score, and tells 1.0 of every document.
#[derive(Clone, Copy, Default)]
pub struct DoNothingCombiner;

impl ScoreCombiner for DoNothingCombiner {
    const READS_SCORES: bool = false;

    ghost READS_SCORES = { false };

    ghost taken = { λ c t x. t };

    ghost told = { λ c t. one };

    ghost plain = { record {} };

    ghost unread = { Prim.search rules };

    ghost usual = { λ c d. refl };

    fn take(&self, _tally: &mut Tally, _score: f32) {}

    fn tell(&self, _tally: &Tally) -> f32 {
        UNREAD_SCORE
    }
}

// Tells the sum of the scores.
#[derive(Clone, Copy, Default)]
pub struct SumCombiner;

impl ScoreCombiner for SumCombiner {
    const READS_SCORES: bool = true;

    ghost READS_SCORES = { true };

    ghost taken = { λ c. summed };

    ghost told = { λ c t. t.sum };

    ghost plain = { record {} };

    ghost unread = { Prim.search rules };

    ghost usual = { λ c d. refl };

    fn take(&self, tally: &mut Tally, score: f32) {
        tally.sum += score;
    }

    fn tell(&self, tally: &Tally) -> f32 {
        let Tally { sum, .. } = *tally;
        sum
    }
}

// Tells the greatest score, plus the sum of the others times the tie-breaker, which is finite.
#[derive(Clone, Copy)]
pub struct DisjunctionMaxCombiner {
    tie_breaker: f32,
    ghost bounded: { T (finite tie_breaker) },
}

// 0.0 for -0.0, and any other score itself. A max of -0.0 would lend its sign to what is told. In the sum the sign is lost
// either way: adding -0.0 and adding 0.0 differ only where the sum is -0.0, and one that starts at 0.0 never is.
fn unsigned_zero(score: f32) -> f32
    ensures { result ≡ unsigned score }
{
    if score == 0.0 { 0.0 } else { score }
}

impl DisjunctionMaxCombiner {
    // The combiner with this tie-breaker. One that is infinite or not a number is refused, and the combiner has 0.0.
    pub fn with_tie_breaker(tie_breaker: f32) -> (Option<Refusal>, DisjunctionMaxCombiner)
        ensures refuses { result.0 ≡ refusal_of tie_breaker }
        ensures keeps { result.1.tie_breaker ≡ tie_breaker_of tie_breaker }
    {
        if tie_breaker.is_finite() {
            (None, DisjunctionMaxCombiner { tie_breaker })
        } else {
            (Some(Refusal::NotFinite), Self::default())
        }
    }
}

impl Default for DisjunctionMaxCombiner {
    ghost is_default = { λ c. c ≡ record { tie_breaker = zero; bounded = zero_finite } };

    fn default() -> Self {
        DisjunctionMaxCombiner { tie_breaker: 0.0 }
    }
}

impl ScoreCombiner for DisjunctionMaxCombiner {
    const READS_SCORES: bool = true;

    ghost READS_SCORES = { true };

    ghost taken = { λ c. maxed };

    ghost told = { λ c. broken c.tie_breaker };

    ghost plain = { record { tie_breaker = zero; bounded = zero_finite } };

    ghost unread = { first_of (Prim.search rules, Prim.grind (arith, Self.row.coded.inj)) };

    ghost usual = { λ c d. d };

    fn take(&self, tally: &mut Tally, score: f32) {
        let plain = unsigned_zero(score);
        tally.sum += plain;
        if plain > tally.max {
            tally.max = plain;
        }
    }

    fn tell(&self, tally: &Tally) -> f32 {
        if tally.max == f32::NEG_INFINITY {
            tally.sum
        } else {
            tally.max + (tally.sum - tally.max) * self.tie_breaker
        }
    }
}

// Whether generic code has to ask for scores. Where it need not, the law above says that any scores serve. The argument
// says only which combiner.
pub fn reads_scores<C: ScoreCombiner>(_c: &C) -> bool
    ensures { result ≡ C.ScoreCombiner.READS_SCORES }
{
    C::READS_SCORES
}

// The combined score of some scores in order. Where no score is read it is that of any others, if they are as many.
pub fn combine<C: ScoreCombiner>(c: &C, scores: &[f32]) -> f32
    ensures value { result ≡ combined (C.ScoreCombiner.taken c.now) (C.ScoreCombiner.told c.now) scores.now }
    ensures unread { C.ScoreCombiner.READS_SCORES ≡ false → (others : List Float) → length others ≡ length scores.now → result ≡ combined (C.ScoreCombiner.taken c.now) (C.ScoreCombiner.told c.now) others }
{
    let mut tally = Tally::new();
    for score in scores {
        c.take(&mut tally, *score);
    }
    c.tell(&tally)
}

// The combined score of one score, or of two.
pub fn combine_two<C: ScoreCombiner>(c: &C, first: f32, second: Option<f32>) -> f32
    ensures { result ≡ combined (C.ScoreCombiner.taken c.now) (C.ScoreCombiner.told c.now) (first ∷ option_to_list second) }
{
    match second {
        Some(second) => combine(c, &[first, second]),
        None => combine(c, &[first]),
    }
}

#[cfg(test)]
mod tests {
    use super::*;
    use std::num::f32_to_bits_with_nan;

    // The bits of a combined score, by which 0.0 and -0.0 differ.
    fn told<C: ScoreCombiner>(c: &C, scores: &[f32]) -> u32 {
        f32_to_bits_with_nan(combine(c, scores))
    }

    fn max_with(tie_breaker: f32) -> DisjunctionMaxCombiner {
        let (_, combiner) = DisjunctionMaxCombiner::with_tie_breaker(tie_breaker);
        combiner
    }

    fn is_refused(tie_breaker: f32) -> bool {
        let (refusal, combiner) = DisjunctionMaxCombiner::with_tie_breaker(tie_breaker);
        matches!(refusal, Some(Refusal::NotFinite))
            && told(&combiner, &[3.0, 1.0]) == 3.0f32.to_bits()
    }

    #[test]
    fn scores_are_combined(rt: HostRuntime) {
        assert_eq!(rt; told(&DoNothingCombiner, &[1.0, 2.0, 4.0]), 0x3f80_0000);
        assert_eq!(rt; told(&SumCombiner, &[1.0, 2.0, 4.0]), 0x40e0_0000);
        assert_eq!(rt; told(&max_with(0.5), &[1.0, 4.0, 2.0]), 0x40b0_0000);
        assert_eq!(rt;
            told(&DisjunctionMaxCombiner::default(), &[1.0, 4.0, 2.0]),
            0x4080_0000
        );
    }

    #[test]
    fn no_score_is_combined(rt: HostRuntime) {
        assert_eq!(rt; told(&DoNothingCombiner, &[]), 0x3f80_0000);
        assert_eq!(rt; told(&SumCombiner, &[]), 0);
        assert_eq!(rt; told(&max_with(0.5), &[]), 0);
    }

    #[test]
    fn the_max_is_of_the_scores_alone(rt: HostRuntime) {
        assert_eq!(rt; told(&max_with(0.0), &[-2.0]), 0xc000_0000);
        assert_eq!(rt; told(&max_with(0.0), &[-2.0, -3.0]), 0xc000_0000);
        assert_eq!(rt; told(&max_with(0.5), &[f32::NEG_INFINITY]), 0xff80_0000);
        assert_eq!(rt; told(&max_with(-1.0), &[-0.0]), 0);
    }

    #[test]
    fn one_or_two_scores(rt: HostRuntime) {
        let both = combine_two(&SumCombiner, 1.5, Some(2.0));
        let first = combine_two(&max_with(0.5), -1.5, None);
        assert_eq!(rt; f32_to_bits_with_nan(both), 0x4060_0000);
        assert_eq!(rt; f32_to_bits_with_nan(first), 0xbfc0_0000);
    }

    #[test]
    fn only_finite_tie_breakers(rt: HostRuntime) {
        assert!(rt; is_refused(f32::INFINITY));
        assert!(rt; is_refused(f32::NEG_INFINITY));
        assert!(rt; is_refused(f32::NAN));
        assert!(rt; !is_refused(f32::MAX));
        assert!(rt; !is_refused(-0.5));
    }

    #[test]
    fn a_cleared_tally_starts_again(rt: HostRuntime) {
        let mut used = Tally::new();
        let combiner = max_with(0.5);
        combiner.take(&mut used, 9.0);
        used.clear();
        combiner.take(&mut used, -4.0);
        assert_eq!(rt; f32_to_bits_with_nan(combiner.tell(&used)), 0xc080_0000);
    }

    #[test]
    fn who_reads_scores(rt: HostRuntime) {
        assert!(rt; !reads_scores(&DoNothingCombiner));
        assert!(rt; reads_scores(&SumCombiner));
        assert!(rt; reads_scores(&max_with(0.0)));
    }
}
