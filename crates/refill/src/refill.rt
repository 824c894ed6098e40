ghost use Rattle.std.specs.Prelude.{◌≡◌, ◌+◌, ◌≤◌, slice_set};
ghost use Rattle.bank.specs.Places.{at};
ghost use Rattle.combiner.specs.Cells.{count};
ghost use Rattle.live.specs.Views.{left, awaited};
ghost use Rattle.window.specs.Windows.{cells};
ghost use Rattle.refill.specs.Refills.{reach, Poured, Refilled};

use bank::bank::Bank;
use combiner::score_combiner::ScoreCombiner;
use docset::docset::TERMINATED;
use live::live::{Live, MOST};
use window::window::{HORIZON, Window};

// Where a window that starts at this id ends.
pub fn horizon(start: u32) -> u32
    ensures { result ≡ reach start }
{
    start.saturating_add(HORIZON).min(TERMINATED)
}

// Reads one set below the end of the window that starts at an id.
fn pour<B: Bank, C: ScoreCombiner>(
    sets: &mut Live<B>,
    place: usize,
    window: &mut Window,
    combiner: &C,
    start: u32,
)
    ensures poured { Poured (C.ScoreCombiner.taken combiner.now) start (reach start) (at (left B.Bank.rows sets.old) place) (at (left B.Bank.rows sets.new) place) (cells window.old) (cells window.new) }
    ensures others { left B.Bank.rows sets.new ≡ slice_set (left B.Bank.rows sets.old) place (at (left B.Bank.rows sets.new) place) }
    ensures pays { count (cells window.new) 0 4096 + awaited B.Bank.rows sets.new ≤ count (cells window.old) 0 4096 + awaited B.Bank.rows sets.old }
{
    let end = horizon(start);
    let mut doc = sets.doc_at(place);
    while doc < end {
        let score = sets.wanted_score(place, combiner);
        if start <= doc {
            window.insert(doc - start, combiner, score);
        }
        doc = sets.advance_at(place);
    }
}

// Reads every set below the end of the window that starts at an id. The sets are read in bank order, and what each lists there
// is taken into the window. What the window holds and what the sets have left, together, is no more than before.
pub fn refill<B: Bank, C: ScoreCombiner>(
    sets: &mut Live<B>,
    window: &mut Window,
    combiner: &C,
    start: u32,
)
    ensures filled { Refilled (C.ScoreCombiner.taken combiner.now) start (reach start) (left B.Bank.rows sets.old) (left B.Bank.rows sets.new) (cells window.old) (cells window.new) }
    ensures pays { count (cells window.new) 0 4096 + awaited B.Bank.rows sets.new ≤ count (cells window.old) 0 4096 + awaited B.Bank.rows sets.old }
{
    for place in 0..MOST {
        pour(sets, place, window, combiner, start);
    }
}
