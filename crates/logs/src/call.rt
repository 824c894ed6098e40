use docset::alive_bitset::AliveBitSet;
use docset::docset::COLLECT_BLOCK_BUFFER_LEN;

// A call on a set, with all that it is given. A count is no such call: it takes the set, so that it stands last in a log.
#[derive(Clone, Copy)]
pub enum Call {
    // The current id.
    Doc,
    // The current score.
    Score,
    Advance,
    // To the first id at or past this target.
    Seek(u32),
    // A probe: whether this target is listed.
    Probe(u32),
    // The next ids, written over this buffer.
    Block([u32; COLLECT_BLOCK_BUFFER_LEN]),
}

// How a log ends: the set is kept, or a count takes it.
#[derive(Clone, Copy)]
pub enum Last<'a> {
    Keep,
    // Of the ids that are alive in this set.
    Count(&'a AliveBitSet<'a>),
    CountIncludingDeleted,
}

// What a log holds of a call's answer.
#[derive(Clone, Copy)]
pub enum Answer {
    // Of `Doc`, `Advance` and `Seek`.
    Id(u32),
    Points(f32),
    // Of a probe that finds its target. Two variants and no bool, as a log is read.
    Hit,
    // Of a probe that does not. Its bound is not logged, since sets may differ in it.
    Miss,
    // How many ids a block wrote, and the whole buffer that it left: its later places are part of the answer.
    Written(usize, [u32; COLLECT_BLOCK_BUFFER_LEN]),
    // Of a count.
    Number(u32),
}
