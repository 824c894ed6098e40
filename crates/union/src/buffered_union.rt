ghost use Rattle.std.specs.Prelude.{◌≡◌, ℕ, ◌+◌, ◌<◌, ◌≤◌};
ghost use Rattle.window.specs.Slots.{slot};

use live::live::Live;
use window::window::Window;

pub mod calls;

// The documents of several sets, each once, with the combined score of those that have it, in bank order.
//
// The sets are read a window of 4096 ids at a time. The current document was taken out of the window already; what the window still
// holds lies after it. A set that has ended is never asked again.
//
// It stands apart from its functions: their clauses cite definitions over it, which its own file cannot.
#[derive(Drop)]
pub struct BufferedUnionScorer<B, C> {
    sets: Live<B>,
    combiner: C,
    window: Window,
    // The id of the window's first slot.
    start: u32,
    // TERMINATED at the end, as `doc` answers it.
    doc: u32,
    // The current document's score. Beside it and not in one value: clauses say of the document alone where it stands.
    score: f32,
    // How many documents the segment has, for the hint. That it stays is one short equation in the clauses of each call.
    num_docs: u32,
    ghost an_id: { doc ≤ 2147483647 },
    ghost begun: { start ≤ doc },
    ghost span: { doc < 2147483647 → doc < start + 4096 },
    ghost before: { (k : ℕ) → start + k ≤ doc → slot window.words k ≡ 0 },
    ghost top: { (k : ℕ) → 2147483647 ≤ start + k → slot window.words k ≡ 0 },
}
