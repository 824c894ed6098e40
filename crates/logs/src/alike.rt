// What logs tell of sets: whether two of them list the same, and whether they answer alike.
ghost use Rattle.std.specs.Prelude.{◌≡◌, true};
ghost use Rattle.docset.specs.Meaning.{Meaning, Steady};
ghost use Rattle.logs.specs.Runs.{◌⟺◌, ToldApart, Alike, Agreed};
ghost use Rattle.logs.specs.Plain.{ongoing, end_of};

use crate::call::{Answer, Call, Last};
use crate::replay::{ask, count_at_end};
use docset::docset::{DocSet, TERMINATED};
use docset::scorer::Scorer;
use std::num::f32_to_bits_with_nan;

// Whether two scores are the same: by their bits, and every NaN as any other.
pub fn same_score(a: f32, b: f32) -> bool
    ensures { (result ≡ true) ⟺ (a ≡ b) }
{
    f32_to_bits_with_nan(a) == f32_to_bits_with_nan(b)
}

// Whether two answers are the same, scores as `same_score` has it. A derived `==` would take 0.0 for -0.0, and no NaN for itself.
pub fn same_answer(a: &Answer, b: &Answer) -> bool
    ensures { (result ≡ true) ⟺ (a.now ≡ b.now) }
{
    match (a, b) {
        (Answer::Id(x), Answer::Id(y)) => x == y,
        (Answer::Points(x), Answer::Points(y)) => same_score(*x, *y),
        (Answer::Hit, Answer::Hit) => true,
        (Answer::Miss, Answer::Miss) => true,
        (Answer::Written(n, x), Answer::Written(k, y)) => n == k && x == y,
        (Answer::Number(x), Answer::Number(y)) => x == y,
        _ => false,
    }
}

// The law that logs tell lists apart, for any two sets as they stand. It asks each for its document, since a set tells there that its ids rise.
pub fn told_apart<P: Scorer, Q: Scorer>(p: &P, q: &Q)
    ensures { Steady (P.DocSet.meaning p.now) → Steady (Q.DocSet.meaning q.now) → ToldApart (P.DocSet.meaning p.now) (Q.DocSet.meaning q.now) }
{
    let _ = p.doc();
    let _ = q.doc();
}

// Drains two sets, and tells whether they listed the same ids with the same scores.
pub fn alike<P: Scorer, Q: Scorer>(mut p: P, mut q: Q) -> bool
    ensures { Alike (P.DocSet.meaning p) (Q.DocSet.meaning q) result }
{
    let mut doc = p.doc();
    let mut other = q.doc();
    while doc != TERMINATED {
        if doc != other {
            return false;
        }
        let score = p.score();
        let other_score = q.score();
        if !same_score(score, other_score) {
            return false;
        }
        doc = p.advance();
        other = q.advance();
    }
    other == TERMINATED
}

// Makes the same calls on two sets, in step and up to the first answer that differs, and tells whether none did.
pub fn agree<P: Scorer, Q: Scorer>(p: &mut P, q: &mut Q, calls: &[Call]) -> bool
    ensures { Agreed (P.DocSet.meaning p.old) (Q.DocSet.meaning q.old) (P.DocSet.meaning p.new) (Q.DocSet.meaning q.new) calls.now ongoing result }
{
    for call in calls {
        let answer = ask(p, call);
        let other = ask(q, call);
        if !same_answer(&answer, &other) {
            return false;
        }
    }
    true
}

// As `agree`, and where no answer differs the last call too, which takes both sets.
pub fn agree_to_end<P: Scorer, Q: Scorer>(mut p: P, mut q: Q, calls: &[Call], last: Last) -> bool
    ensures { (i : Meaning) × (j : Meaning) × Agreed (P.DocSet.meaning p) (Q.DocSet.meaning q) i j calls.now (end_of last.entry) result }
{
    agree(&mut p, &mut q, calls) && count_at_end(p, last) == count_at_end(q, last)
}
