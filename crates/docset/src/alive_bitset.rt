ghost use Rattle.std.specs.Prelude.{◌≡◌, not};
ghost use Rattle.docset.specs.Bits.{bit_set};

// The documents that were not deleted: an id is alive if its bit is set in the caller's words, and past the words none is.
#[derive(Drop)]
pub struct AliveBitSet<'a> {
    words: &'a [u64],
}

impl<'a> AliveBitSet<'a> {
    pub fn new(words: &'a [u64]) -> AliveBitSet<'a>
        ensures { result.words.now ≡ words.now }
    {
        AliveBitSet { words }
    }

    pub fn is_alive(&self, doc: u32) -> bool
        ensures { result ≡ bit_set self.now.words.now doc }
    {
        match self.words.get((doc / 64) as usize) {
            Some(word) => (*word >> (doc % 64)) & 1 == 1,
            None => false,
        }
    }

    pub fn is_deleted(&self, doc: u32) -> bool
        ensures { result ≡ not (bit_set self.now.words.now doc) }
    {
        !self.is_alive(doc)
    }
}
