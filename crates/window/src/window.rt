ghost use Rattle.std.specs.Prelude.{◌≡◌, ℕ, ◌*◌, ◌<◌, ◌≤◌};
ghost use Rattle.window.specs.Slots.{slot, AtRest};

use combiner::score_combiner::Tally;

pub mod calls;

// How many words of 64 bits a window has.
pub const HORIZON_NUM_TINYBITSETS: usize = 64;

// How many slots a window has: one for each bit.
pub const HORIZON: u32 = 64 * HORIZON_NUM_TINYBITSETS as u32;

// A tally for each of 4096 slots, of which those whose bit is set hold something. It stands apart from its functions: their clauses
// cite definitions over it, which its own file cannot.
//
// The bits and the tallies are apart, so that empty slots are passed and slots are counted a word at a time.
// A slot that holds nothing has the start tally (`rest`), so that a score is taken into it with no test. The words before
// `bucket` are empty (`behind`).
#[derive(Drop)]
pub struct Window {
    words: [u64; HORIZON_NUM_TINYBITSETS],
    tallies: [Tally; HORIZON as usize],
    bucket: usize,
    ghost rest: { AtRest words tallies },
    ghost behind: { (k : ℕ) → k < bucket * 64 → slot words k ≡ 0 },
    ghost inside: { bucket ≤ 64 },
}
