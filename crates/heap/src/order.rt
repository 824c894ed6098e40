ghost use Rattle.std.specs.Prelude.{◌≡◌, Bool, true, ◌⊎◌, nat_le};
ghost use Rattle.std.proofs.Common.{rules};
ghost use Rattle.heap.specs.Ranks.{lex};

/// Elements of which, whichever two are taken, one stands at or before the other. It asks for no `==`: two may stand
/// alike and still be different.
pub trait Order: Copy {
    ghost before: { Self → Self → Bool };

    /// Whether this element stands at or before the other.
    fn at_or_before(&self, other: &Self) -> bool
        ensures { result ≡ before self.now other.now };

    ghost total: { (x y : Self) → (before x y ≡ true) ⊎ (before y x ≡ true) };

    ghost transitive: { (x y z : Self) → before x y ≡ true → before y z ≡ true → before x z ≡ true };
}

/// The id that one of several lists has come to, and the place of that list among them.
///
/// The lower id stands first, and of equal ids the lower place: the order of the fields.
#[derive(Clone, Copy, PartialEq, Eq, PartialOrd, Ord)]
pub struct Entry {
    pub id: u32,
    pub place: usize,
}

/// The derived order.
impl Order for Entry {
    ghost before = { λ a b. lex a.id a.place b.id b.place };

    ghost total = { Prim.search rules };

    ghost transitive = { Prim.search rules };

    fn at_or_before(&self, other: &Self) -> bool {
        self <= other
    }
}

#[cfg(test)]
mod tests {
    use super::super::best_list::{BestList, best_of};
    use super::super::heap::{Top, peek, pop, push, replace_top, sort_out};
    use super::*;

    // It has no `Ord`: its hour alone orders it, and two of one hour are not equal.
    #[derive(Clone, Copy, PartialEq, Eq)]
    struct Task {
        hour: u32,
        room: u32,
    }

    impl Order for Task {
        ghost before = { λ a b. nat_le a.hour b.hour };

        ghost total = { Prim.search rules };

        ghost transitive = { Prim.search rules };

        fn at_or_before(&self, other: &Self) -> bool {
            self.hour <= other.hour
        }
    }

    fn at(hour: u32, room: u32) -> Task {
        Task { hour, room }
    }

    #[test]
    fn ids_come_before_places(rt: HostRuntime) {
        let first = Entry { id: 3, place: 9 };
        let second = Entry { id: 4, place: 0 };
        assert!(rt; first.at_or_before(&second));
        assert!(rt; !second.at_or_before(&first));
        assert!(rt; first.at_or_before(&first));
        assert!(rt; !first.at_or_before(&Entry { id: 3, place: 8 }));
    }

    #[test]
    fn tasks_of_one_hour_stand_alike(rt: HostRuntime) {
        assert!(rt; at(7, 2).at_or_before(&at(7, 4)));
        assert!(rt; at(7, 4).at_or_before(&at(7, 2)));
        assert!(rt; !at(8, 1).at_or_before(&at(7, 4)));
        assert!(rt; at(7, 2) != at(7, 4));
    }

    #[test]
    fn best_tasks(rt: HostRuntime) {
        let from = [at(9, 1), at(7, 2), at(11, 3), at(7, 4), at(8, 5)];
        let mut places = [at(0, 0); 3];
        assert_eq!(rt; best_of(&from, &mut places), 3);
        assert_eq!(rt; places[0].hour, 7);
        assert_eq!(rt; places[1].hour, 7);
        assert!(rt; places[0] != places[1]);
        assert!(rt; places[2] == at(8, 5));

        let mut list = BestList::new(&mut places);
        list.offer(at(6, 1));
        list.offer(at(4, 2));
        assert_eq!(rt; list.len(), 2);
        assert_eq!(rt; list.close(), 2);
        assert!(rt; places[0] == at(4, 2));
        assert!(rt; places[1] == at(6, 1));
        assert!(rt; places[2] == at(8, 5));
    }

    #[test]
    fn heap_of_tasks(rt: HostRuntime) {
        let mut places = [at(0, 0); 3];
        assert!(rt; push(&mut places, 0, at(5, 1), Top::First));
        assert!(rt; push(&mut places, 1, at(3, 2), Top::First));
        assert!(rt; push(&mut places, 2, at(9, 3), Top::First));
        assert!(rt; pop(&mut places, 3, Top::First) == Some(at(3, 2)));
        assert!(rt; places[2] == at(3, 2));
        assert!(rt; replace_top(&mut places, 2, at(12, 4), Top::First) == Some(at(5, 1)));
        assert!(rt; peek(&places, 2) == Some(at(9, 3)));
        assert!(rt; sort_out(&mut places, 2, Top::First));
        assert!(rt; places[0] == at(12, 4));
        assert!(rt; places[1] == at(9, 3));
    }
}
