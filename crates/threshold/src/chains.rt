ghost use Rattle.std.specs.Prelude.{◌≡◌, ◌<◌, List, [], ◌∷◌, length, take, nat_eq, MatchOption};
ghost use Rattle.std.specs.List.Sorted.{IsPermutation};
ghost use Rattle.heap.specs.declared.order.Entry.{Entry};
ghost use Rattle.threshold.specs.Entries.{Heaped, Tops};

use heap::heap::{Top, peek, pop, push, replace_top};
use heap::order::Entry;
use live::live::MOST;
use std::marker::Model;

// The next ids of at most 32 sets, each with the place of its set: a heap with the lowest at the top.
#[derive(Drop)]
pub(crate) struct Chains {
    entries: [Entry; MOST],
    len: usize,
}

impl Model for Chains {
    ghost Value = { List Entry };

    ghost view = { λ c. take c.len c.entries };

    ghost invariant = { λ c. Heaped c.entries c.len };
}

// What the heap's functions answer is dropped: with room for an entry, and with a top, none of them refuses.
impl Chains {
    // No entry.
    pub(crate) fn new() -> Chains
        ensures { result ≡ [] }
    {
        Chains {
            entries: [Entry { id: 0, place: 0 }; MOST],
            len: 0,
        }
    }

    pub(crate) fn is_empty(&self) -> bool
        ensures { result ≡ nat_eq (length self.now) 0 }
    {
        self.len == 0
    }

    // The entry with the lowest id, and of several the one with the lowest place.
    pub(crate) fn top(&self) -> Option<Entry>
        ensures { MatchOption result (self.now ≡ []) (Tops self.now) }
    {
        peek(&self.entries, self.len)
    }

    // Adds an entry.
    pub(crate) fn push(&mut self, entry: Entry)
        requires room { length self.old < 32 }
        requires an_id { entry.id < 2147483647 }
        ensures { IsPermutation (entry ∷ self.old) self.new }
    {
        let _ = push(&mut self.entries, self.len, entry, Top::First);
        self.len += 1;
    }

    // Takes the top out.
    pub(crate) fn drop_top(&mut self)
        requires { 0 < length self.old }
        ensures { (top : Entry) → Tops self.old top → IsPermutation self.old (top ∷ self.new) }
    {
        let _ = pop(&mut self.entries, self.len, Top::First);
        self.len -= 1;
    }

    // Puts an entry in the stead of the top.
    pub(crate) fn replace_top(&mut self, entry: Entry)
        requires some { 0 < length self.old }
        requires an_id { entry.id < 2147483647 }
        ensures { (top : Entry) → Tops self.old top → IsPermutation (entry ∷ self.old) (top ∷ self.new) }
    {
        let _ = replace_top(&mut self.entries, self.len, entry, Top::First);
    }
}
