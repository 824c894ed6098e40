ghost use Rattle.std.specs.Prelude.{◌≡◌, ◌≤◌};
ghost use Rattle.combiner.specs.Estimate.{times, within, estimate, union_estimate};

use std::num::saturating_f64_to_u32;

// Documents are not spread over the sets at random: sets overlap more than that, and their union is smaller.
const CO_LOC_FACTOR: f64 = 0.8;

// The share of the documents that no set has, given the share that the other sets leave and the size of one set more.
fn share_left(share: f64, size: u32, max_docs: f64) -> f64
    ensures { result ≡ times max_docs share size }
{
    share * (1.0 - (size as f64 / max_docs) * CO_LOC_FACTOR)
}

// The nearer end for a number outside 0 to max_docs, and max_docs for one that is not a number. The library's `clamp` would ask
// that max_docs is not below 0, here and of whoever calls this.
fn clamped(union: f64, max_docs: f64) -> f64
    ensures { result ≡ within max_docs union }
{
    if union.is_nan() {
        max_docs
    } else if union < 0.0 {
        0.0
    } else if union > max_docs {
        max_docs
    } else {
        union
    }
}

// The number of documents that some set has, given the share that no set has.
fn estimated(share: f64, max_docs: f64) -> f64
    ensures { result ≡ estimate max_docs share }
{
    let union = (max_docs * (1.0 - share)).round();
    clamped(union, max_docs)
}

// A guess at the number of documents in the union of sets of these sizes, where there are max_docs documents.
pub fn estimate_union(sizes: &[u32], max_docs: u32) -> u32
    ensures value { result ≡ union_estimate sizes.now max_docs }
    ensures bound { result ≤ max_docs }
{
    if max_docs == 0 {
        return 0;
    }
    let all = max_docs as f64;
    let share = sizes
        .iter()
        .fold(1.0, |share, size| share_left(share, *size, all));
    saturating_f64_to_u32(estimated(share, all))
}

#[cfg(test)]
mod tests {
    use super::*;

    #[test]
    fn unions_are_estimated(rt: HostRuntime) {
        assert_eq!(rt; estimate_union(&[50, 50], 100), 64);
        assert_eq!(rt; estimate_union(&[], 100), 0);
        assert_eq!(rt; estimate_union(&[100], 100), 80);
        assert_eq!(rt; estimate_union(&[7, 9], 0), 0);
    }

    // 24 * (1 - 0.5 * 0.5 * 0.5 * 0.5) is 22.5.
    #[test]
    fn halves_are_rounded_away_from_zero(rt: HostRuntime) {
        assert_eq!(rt; estimate_union(&[15, 15, 15, 15], 24), 23);
    }

    #[test]
    fn what_falls_outside_is_clamped(rt: HostRuntime) {
        assert_eq!(rt; estimate_union(&[4000000000], 1000), 1000);
        assert_eq!(rt; estimate_union(&[4000000000, 4000000000], 1000), 0);
    }

    // 40 such factors overflow, and the factor of 5 in 4 is 0: their product is not a number.
    #[test]
    fn not_a_number_is_all(rt: HostRuntime) {
        let mut sizes = [u32::MAX; 41];
        sizes[40] = 5;
        assert_eq!(rt; estimate_union(&sizes, 4), 4);
    }
}
