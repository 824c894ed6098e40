// What a box shows of a set: its best documents, best first.
#![tactic(auto)]

ghost use Rattle.std.specs.Prelude.{◌≡◌, IfOk, MatchResult};
ghost use Rattle.docset.specs.Meaning.{Steady};
ghost use Rattle.pick.specs.Picks.{hits, Shown};

use docset::docset::{DocSet, TERMINATED};
use docset::scorer::Scorer;
use heap::best_list::best_of;
use heap::hit::Hit;
use std::alloc::{AllocError, Global};

// Drains a set: a hit for each of its documents, in their order.
pub fn hits_of<S: Scorer>(heap: Global, mut set: S) -> Result<Vec<Hit>, AllocError>
    ensures { IfOk result (λ v. Steady (S.DocSet.meaning set) → v.items ≡ hits (S.DocSet.meaning set).pairs) }
{
    // A loop of the set's own calls: a set is no iterator, and its score is read before it goes on.
    let mut found = Vec::new(heap);
    let mut doc = set.doc();
    while doc != TERMINATED {
        let score = set.score();
        found.push(Hit::new(score, doc))?;
        doc = set.advance();
    }
    Ok(found)
}

// Drains a set and leaves its best hits in the first places, best first; answers how many: as many as the set lists, at most one for
// each place, at most 64. Later places are as they were, and all are where there is no memory to drain the set.
pub fn best_hits<S: Scorer>(heap: Global, set: S, places: &mut [Hit]) -> Result<usize, AllocError>
    ensures { MatchResult result (λ count. Steady (S.DocSet.meaning set) → Shown (hits (S.DocSet.meaning set).pairs) places.old places.new count) (λ _. places.new ≡ places.old) }
{
    let found = hits_of(heap, set)?;
    Ok(best_of(found.as_slice(), places))
}
