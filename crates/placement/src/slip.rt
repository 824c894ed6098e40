// The learner's slip: of each topic the best exercises that were not seen, best first.
ghost use Rattle.std.specs.Prelude.{◌≡◌, MatchResult};
ghost use Rattle.docset.specs.Meaning.{Steady, Known};
ghost use Rattle.pick.specs.Picks.{hits, Shown};
ghost use Rattle.placement.specs.Slips.{left_over};

use card::card::{Card, MAX_PICK, Topic};
use combiner::score_combiner::SumCombiner;
use docset::docset::DocSet;
use docset::scorer::Scorer;
use exclude::exclude::{Exclude, OneSet};
use heap::hit::Hit;
use leaves::vec_docset::VecDocSet;
use pick::best_hits;
use scored::boost_scorer::BoostScorer;
use scored::reqopt_scorer::RequiredOptionalScorer;
use std::alloc::{AllocError, Global};
use std::io;
use std::num::f32_from_bits_with_nan;

// Exercises that share a weight.
#[derive(Clone, Copy)]
pub struct Weighted<'a> {
    ids: &'a [u32],
    weight: f32,
}

// Of the required documents leaves the best that were not seen in the first places, best first, and answers how many. A document's score is the
// required one, and the optional one more where the optional set has it too. Without memory to drain the sets all places are as they were.
pub fn best_left<R: Scorer, O: Scorer, S: DocSet>(
    heap: Global,
    required: R,
    optional: O,
    seen: S,
    places: &mut [Hit],
) -> Result<usize, AllocError>
    ensures { MatchResult result (λ count. Steady (R.DocSet.meaning required) → Steady (O.DocSet.meaning optional) → Known (S.DocSet.meaning seen).mark → Shown (hits (left_over (R.DocSet.meaning required) (O.DocSet.meaning optional) (S.DocSet.meaning seen))) places.old places.new count) (λ _. places.new ≡ places.old) }
{
    let both: RequiredOptionalScorer<R, O, SumCombiner> = RequiredOptionalScorer::new(
        required, optional,
    );
    best_hits(heap, Exclude::new(both, OneSet::new(seen)), places)
}

// A set over exercises that share a weight. The ids were checked before: a list that is refused is empty here.
fn set_of(exercises: Weighted<'_>) -> BoostScorer<VecDocSet<'_>> {
    let (_, set) = VecDocSet::new(exercises.ids);
    let (_, weighted) = BoostScorer::new(set, exercises.weight);
    weighted
}

// The same of a topic, a bonus and a list of what was seen.
fn pick_best(
    heap: Global,
    topic: Weighted,
    bonus: Weighted,
    seen: &[u32],
    places: &mut [Hit],
) -> Result<usize, AllocError> {
    let (_, met) = VecDocSet::new(seen);
    best_left(heap, set_of(topic), set_of(bonus), met, places)
}

fn exercises_of(topic: &Topic) -> Weighted<'_> {
    Weighted {
        ids: topic.ids.as_slice(),
        weight: topic.weight_f32(),
    }
}

// One line of the slip.
fn show_hit(rt: &HostRuntime, rank: usize, hit: &Hit) -> io::Result<()> {
    let id = hit.id;
    let score = f32_from_bits_with_nan(hit.bits);
    println!(rt; "{rank:>4}{id:>12}{score:>10.2}")
}

fn show_topic(rt: &HostRuntime, topic: &Topic, bonus: Weighted, card: &Card) -> anyhow::Result<()> {
    let mut places = [Hit { bits: 0, id: 0 }; MAX_PICK];
    let picked = pick_best(
        rt.alloc(),
        exercises_of(topic),
        bonus,
        card.seen(),
        &mut places,
    )?;
    let name = topic.name.as_str();
    println!(rt; "{name}: rank, exercise, score")?;
    let shown = picked.min(card.pick());
    for (rank, hit) in (1..=shown).zip(places.iter()) {
        show_hit(rt, rank, hit)?;
    }
    Ok(())
}

// Prints the slip of a card whose lists of ids are good.
pub fn show_slip(rt: &HostRuntime, card: &Card) -> anyhow::Result<()> {
    let none = Weighted {
        ids: &[],
        weight: 1.0,
    };
    let bonus = card.bonus.as_ref().map_or(none, exercises_of);
    for topic in card.topics.iter() {
        show_topic(rt, topic, bonus, card)?;
    }
    Ok(())
}
