ghost use Rattle.std.specs.Prelude.{◌≡◌, from_bits, to_bits, refl};
ghost use Rattle.std.specs.Float.{binary32};
ghost use Rattle.std.specs.Ordering.{as_partial_cmp, eq_by_cmp};
ghost use Rattle.std.specs.Cmp.{eq_by_cmp_equiv, partial_equiv_from_equiv, partial_order_from_total};
ghost use Rattle.heap.specs.Scores.{hit_cmp, ranked, standing, depth as depth_of};
ghost use Rattle.heap.specs.HitOrder.{hits_total};
ghost use Rattle.heap.specs.Orders.{either, chain};

use super::order::Order;
use std::cmp::Ordering;
use std::num::f32_to_bits_with_nan;

/// The pattern that stands for every NaN.
const NAN: u32 = 0x7FC0_0000;

/// The pattern of the infinity with a clear sign. Larger patterns with a clear sign are NaNs.
const INFINITY: u32 = 0x7F80_0000;

/// The weight of the sign.
const SIGN: u32 = 0x8000_0000;

/// A document that was found, and the bits of its score. A pattern of a NaN ranks as 0x7FC00000, whichever it is.
// Bits and no float, so that its order is one of numbers.
#[derive(Clone, Copy)]
pub struct Hit {
    pub bits: u32,
    pub id: u32,
}

impl Hit {
    /// A hit with this score. Every NaN has the bits 0x7FC00000.
    pub fn new(score: f32, id: u32) -> Hit
        ensures filled { result ≡ record { bits = to_bits binary32 score; id = id } }
        ensures stands { from_bits binary32 result.bits ≡ score }
    {
        Hit {
            bits: f32_to_bits_with_nan(score),
            id,
        }
    }
}

/// How far below the highest pattern these bits stand.
fn depth(bits: u32) -> u32
    ensures { result ≡ depth_of bits }
{
    let size = bits % SIGN;
    if INFINITY < size {
        SIGN - 1 - NAN
    } else if bits < SIGN {
        SIGN - 1 - size
    } else {
        SIGN + size
    }
}

// The comparisons are written by hand: derived ones have the lower bits first, and tell the patterns of a NaN apart.

impl PartialEq for Hit {
    ghost eq = { eq_by_cmp hit_cmp };

    ghost laws = { partial_equiv_from_equiv (eq_by_cmp_equiv hits_total) };

    fn eq(&self, other: &Hit) -> bool {
        self.cmp(other).is_eq()
    }
}

impl Eq for Hit {
    ghost laws = { eq_by_cmp_equiv hits_total };
}

impl PartialOrd for Hit {
    ghost partial_cmp = { as_partial_cmp hit_cmp };

    ghost laws = { partial_order_from_total hits_total };

    fn partial_cmp(&self, other: &Hit) -> Option<Ordering> {
        Some(self.cmp(other))
    }
}

/// The higher score stands first, by IEEE 754's totalOrder with a NaN above each number, and of equal scores the lower id.
impl Ord for Hit {
    ghost cmp = { hit_cmp };

    ghost total = { hits_total };

    ghost matches_partial_cmp = { λ x y. refl };

    ghost matches_eq = { λ x y. refl };

    fn cmp(&self, other: &Hit) -> Ordering {
        depth(self.bits)
            .cmp(&depth(other.bits))
            .then(self.id.cmp(&other.id))
    }
}

/// The order of its `Ord`.
impl Order for Hit {
    ghost before = { λ a b. ranked (standing (from_bits binary32 a.bits) (from_bits binary32 b.bits)) a.id b.id };

    ghost total = { either hits_total };

    ghost transitive = { chain hits_total };

    fn at_or_before(&self, other: &Self) -> bool {
        self <= other
    }
}

#[cfg(test)]
mod tests {
    use super::*;

    #[test]
    fn ranks_by_total_order(rt: HostRuntime) {
        let scores = [
            f32::NAN,
            f32::INFINITY,
            1.5,
            0.0,
            -0.0,
            -1.5,
            f32::NEG_INFINITY,
        ];
        for pair in scores.windows(2) {
            let better = Hit::new(pair[0], 9);
            let worse = Hit::new(pair[1], 3);
            assert!(rt; better <= worse);
            assert!(rt; worse > better);
        }
    }

    #[test]
    fn ties_go_to_the_lower_id(rt: HostRuntime) {
        let hit = Hit::new(f32::NAN, 3);
        assert_eq!(rt; hit.bits, 0x7FC0_0000);
        let by_hand = Hit {
            bits: 0xFF80_0001,
            id: 4,
        };
        assert!(rt; hit <= by_hand);
        assert!(rt; by_hand > hit);
        let quiet = Hit {
            bits: 0x7FC0_0000,
            id: 4,
        };
        assert!(rt; by_hand <= quiet);
        assert!(rt; by_hand == quiet);
    }
}
