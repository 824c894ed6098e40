ghost use Rattle.std.specs.Prelude.{◌≡◌, length};

pub mod calls;

// How many sets of a bank are asked at most.
pub const MOST: usize = 32;

// A bank that remembers which of its first 32 sets have answered TERMINATED, and asks those for no more documents.
//
// It stands apart from its functions: their clauses cite definitions over it, which its own file cannot.
#[derive(Drop)]
pub struct Live<B> {
    bank: B,
    live: [bool; MOST],
    ghost count: { length live ≡ 32 },
}
