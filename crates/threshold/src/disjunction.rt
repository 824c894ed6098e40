ghost use Rattle.std.specs.Prelude.{◌≡◌, ◌<◌, ◌≤◌, true, false, [], length};
ghost use Rattle.docset.specs.Meaning.{zero_score};
ghost use Rattle.threshold.specs.Stands.{unread, doc_at, score_at};

use crate::queue::{Queue, Stand};

pub mod calls;

// The documents that at least `minimum` of the sets of a bank list, in rising order. The scores of the sets that list a
// document are combined in the order of the bank.
//
// With a minimum that no document can reach it stands nowhere, and its sets are unread: they are first read by `advance`.
#[derive(Drop)]
pub struct Disjunction<B, C> {
    queue: Queue<B>,
    combiner: C,
    minimum: usize,
    stand: Option<Stand>,
    ghost an_id: { doc_at stand ≤ 2147483647 },
    ghost ends: { doc_at stand ≡ 2147483647 → unread stand ≡ false → queue.chains ≡ [] },
    ghost scoreless: { doc_at stand ≡ 2147483647 → score_at stand ≡ zero_score },
    ghost waits: { unread stand ≡ true → (doc_at stand ≡ 2147483647) × (length queue.chains < minimum) },
}
