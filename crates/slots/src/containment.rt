// Two slots compared: containment, how one lies inside the other, and the largest error count of one.
// Slots are parts of the store that C lends, compared where they lie. A type for them would be made anew at each comparison, its facts shown
// there, though `is_within`, which runs most, asks only lengths; what asks more names a record for it (Readable, ComparableSlots).
ghost use Rattle.std.specs.Prelude.{◌≡◌, ◌≤◌, ◌<◌, length};
ghost use Rattle.slots.specs.Slots.{fields, p_at, pair_count};
ghost use Rattle.slots.specs.Containing.{compare_numbers, within_slots, inside_of, largest_slot, Readable, ComparableSlots};

use crate::slot::{FIELDS, FIRST_M, FIRST_P, get_pair};
use std::cmp::Ordering;
use zones::fraction::Fraction;

// How pair t of the new slot stands to that of the old one: the comparison of pairs, on their numbers as they lie, where the search spends its time.
// Four ifs: a search of a ring of 1,000 zones took 1.22 times as long with std's order of tuples or `cmp` and `then`, 1.17 with `then_with`.
#[tactic(auto, using(crate::proofs::slot::Loops::comparing))]
fn compare_at(new: &[i32], old: &[i32], t: usize) -> Ordering
    requires { (p_at t < length new.now) × (p_at t < length old.now) }
    ensures { result ≡ compare_numbers new.now old.now t }
{
    let m = FIRST_M + 2 * t;
    let p = FIRST_P + 2 * t;
    if old[m] < new[m] {
        return Ordering::Greater;
    }
    if old[m] != new[m] {
        return Ordering::Less;
    }
    if old[p] < new[p] {
        return Ordering::Greater;
    }
    if old[p] != new[p] {
        return Ordering::Less;
    }
    Ordering::Equal
}

// How many pairs a slot has.
fn pair_count(slot: &[i32]) -> usize
    requires { fields ≤ length slot.now }
    ensures { result ≡ pair_count slot.now }
{
    (slot.len() - FIELDS) / 2
}

// Whether each of the new slot's pairs is the smaller or equal beside the old one's. The search
// spends its time here: it stops at the first pair that is not.
pub fn is_within(new: &[i32], old: &[i32]) -> bool
    requires { (fields ≤ length new.now) × (length new.now ≤ length old.now) }
    ensures { result ≡ within_slots new.now old.now (pair_count new.now) }
{
    (0..pair_count(new)).all(|t| compare_at(new, old, t).is_le())
}

// How a new slot lies inside an old one, by a test that holds: its lowest threshold, and whether every pair equals the old one's. Each counts
// whatever the other is, so no Option says it.
#[derive(Clone, Copy)]
pub struct Inside {
    pub below: Fraction,
    pub equal: bool,
}

// In one turn: with a loop of its own for the second the search takes 1 % more instructions.
#[tactic(auto, unfolding(crate::specs::Containing::every_pair, crate::specs::Containing::inside_slots), using(crate::proofs::slot::Loops::insides))]
pub fn inside_of(new: &[i32], old: &[i32]) -> Inside
    requires { ComparableSlots new.now old.now (pair_count new.now) }
    ensures { result ≡ inside_of new.now old.now (pair_count new.now) }
{
    let mut below = Fraction::NO_LIMIT;
    let mut equal = true;
    for t in 0..pair_count(new) {
        let a = get_pair(new, t);
        let b = get_pair(old, t);
        below = below.after_choice(a, b);
        if a != b {
            equal = false;
        }
    }
    Inside { below, equal }
}

// The largest error count of a slot.
#[tactic(auto, unfolding(crate::specs::Containing::largest_slot), using(crate::proofs::slot::Loops::largest_next))]
pub fn largest_count(slot: &[i32]) -> u64
    requires { Readable slot.now (pair_count slot.now) }
    ensures { result ≡ largest_slot slot.now (pair_count slot.now) }
{
    let mut most: u64 = 0;
    for t in 0..pair_count(slot) {
        most = most.max(get_pair(slot, t).p);
    }
    most
}
