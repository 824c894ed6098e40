ghost use Rattle.std.specs.Prelude.{◌≡◌, ◌<◌, ◌≤◌, length, nat_lt, count_ones, position};
ghost use Rattle.std.specs.List.{sum_by};
ghost use Rattle.window.specs.Slots.{Popped};

// Takes out the lowest bit that is set, and answers which it was.
pub(crate) fn pop_lowest(word: &mut u64) -> u32
    requires { 0 < word.old }
    ensures { Popped word.old result word.new }
{
    let before = *word;
    *word = before & (before - 1);
    before.trailing_zeros()
}

// The first word that has a bit set.
pub(crate) fn first_set(words: &[u64]) -> Option<usize>
    ensures { result ≡ position (nat_lt 0) words.now }
{
    words.iter().position(|word| *word != 0)
}

// How many bits are set.
pub(crate) fn count_set(words: &[u64]) -> u32
    requires { length words.now ≤ 64 }
    ensures { result ≡ sum_by count_ones words.now }
{
    words.iter().map(|word| word.count_ones()).sum()
}
