// A slot of the store as one codec: its length, how a zone is written to it, and how it is read.
// Its `as` are between i32 and usize, u64 or i64, where std has no From; that no bits are lost is in the contracts.
// `size ≤ 9` stays a clause: a zone's arrays and its count of indices go by value, document 01's form, and a type of one number would put
// `.count` into each contract for one short inequality.
ghost use Rattle.std.specs.Prelude.{◌≡◌, ◌++◌, ℕ, ◌+◌, ◌*◌, ◌≤◌, ◌<◌, length, get_or, set, replicate, pos, ◌≤ℤ◌};
ghost use Rattle.zones.specs.Integers.{up};
ghost use Rattle.zones.specs.Ranges.{AllBounded, Bounded, last_counts};
ghost use Rattle.runs.specs.Limits.{scale};
ghost use Rattle.slots.specs.Slots.{fields, slot_length, spare, m_at, p_at, no_origin, origin_along, is_along, head_of, slot_of};
ghost use Rattle.slots.specs.Slots.{slot_location, slot_origin, slot_pair, zone_of};
ghost use Rattle.encoding.specs.Placing.{placed};

use encoding::put;
use zones::pair::Pair;

// The numbers before the pairs: the location, and the origin.
pub const FIELDS: usize = 3;

// Where the first pair has its m and its p.
pub const FIRST_M: usize = FIELDS;

pub const FIRST_P: usize = FIELDS + 1;

// The longest slot: of nine indices.
const LONGEST: usize = 165;

// Where a zone came from: the slot, and the edge taken; both −1 for the first zone, in document 02's words. They are the slot's own numbers:
// whatever two a slot has, these are what is read of it, which an Option of a slot and an edge has no room for.
#[derive(Clone, Copy)]
pub struct Origin {
    pub parent: i32,
    pub edge: i32,
}

impl Origin {
    // The first zone's.
    pub fn none() -> Origin
        ensures { result ≡ no_origin }
    {
        Origin {
            parent: -1,
            edge: -1,
        }
    }

    // From a slot along an edge.
    pub fn along(parent: usize, edge: usize) -> Origin
        requires { (parent < 2147483648) × (edge < 2147483648) }
        ensures { result ≡ origin_along parent edge }
    {
        Origin {
            parent: parent as i32,
            edge: edge as i32,
        }
    }

    // Whether there is a slot that it came from.
    pub fn is_along(self) -> bool
        ensures { result ≡ is_along self }
    {
        0 <= self.parent
    }

    // That slot, and the edge.
    pub fn slot(self) -> usize
        requires { pos 0 ≤ℤ self.parent }
        ensures { result ≡ up self.parent }
    {
        self.parent as usize
    }

    pub fn edge(self) -> usize
        requires { pos 0 ≤ℤ self.edge }
        ensures { result ≡ up self.edge }
    {
        self.edge as usize
    }
}

// The number of numbers of a slot, for a zone of `size` indices.
pub fn slot_length(size: usize) -> usize
    requires { size ≤ 9 }
    ensures { result ≡ slot_length size }
{
    FIELDS + 2 * (size * size)
}

// The numbers before the pairs, and zeros after them.
#[tactic(auto, unfolding(crate::specs::Slots::head_of))]
fn headed(location: usize, origin: Origin) -> [i32; LONGEST]
    requires { location < 256 }
    ensures { result ≡ head_of location origin ++ replicate (spare 0) (pos 0) }
{
    let mut slot = [0; LONGEST];
    slot[0] = location as i32;
    slot[1] = origin.parent;
    slot[2] = origin.edge;
    slot
}

// The slot of a zone, and zeros after it.
// Its caller cuts them off. As an ArrayVec it proves, too, but a search of three clocks executes 2 % more, 833 M instructions for 815 M, and one of
// eight 0.4 %: it keeps its length at each push.
#[tactic(auto, using(crate::proofs::slot::Loops::encode_turns))]
pub fn encode(location: usize, origin: Origin, z: [Pair; 81], size: usize) -> [i32; LONGEST]
    requires size_bound { (size ≤ 9) × (location < 256) }
    requires all_bounded { AllBounded scale last_counts size z }
    ensures { result ≡ slot_of size (head_of location origin) z ++ replicate (spare size) (pos 0) }
{
    let mut slot = headed(location, origin);
    for i in 0..size {
        for j in 0..size {
            put_pair(&mut slot, i * size + j, z[i * 9 + j]);
        }
    }
    slot
}

// Pair t of a slot becomes q.
fn put_pair(slot: &mut [i32; LONGEST], t: usize, q: Pair)
    requires { (t < 81) × Bounded scale last_counts q }
    ensures { slot.new ≡ set (set slot.old (m_at t) q.m) (p_at t) (pos q.p) }
{
    slot[FIRST_M + 2 * t] = q.m as i32;
    slot[FIRST_P + 2 * t] = q.p as i32;
}

// The location of a slot's zone.
pub fn location_of(slot: &[i32]) -> i32
    requires { fields ≤ length slot.now }
    ensures { result ≡ slot_location slot.now }
{
    slot[0]
}

// Where the zone of a slot came from.
pub fn origin_of(slot: &[i32]) -> Origin
    requires { fields ≤ length slot.now }
    ensures { result ≡ slot_origin slot.now }
{
    Origin {
        parent: slot[1],
        edge: slot[2],
    }
}

// The zone of a slot, (0, 0) outside its rows and columns.
#[tactic(auto, unfolding(crate::specs::Slots::square_to, crate::specs::Slots::zone_of), using(crate::proofs::slot::Loops::decode_turns))]
pub fn decode(slot: &[i32], size: usize) -> [Pair; 81]
    requires size_bound { (size ≤ 9) × (slot_length size ≤ length slot.now) }
    requires counts_natural { (t : ℕ) → t < size * size → pos 0 ≤ℤ get_or slot.now (p_at t) (pos 0) }
    ensures { result ≡ zone_of size slot.now }
{
    let mut z = [Pair::ZERO; 81];
    for i in 0..size {
        for j in 0..size {
            z[i * 9 + j] = get_pair(slot, i * size + j);
        }
    }
    z
}

// Pair t of a slot.
pub fn get_pair(slot: &[i32], t: usize) -> Pair
    requires { (p_at t < length slot.now) × (pos 0 ≤ℤ get_or slot.now (p_at t) (pos 0)) }
    ensures { result ≡ slot_pair slot.now t }
{
    Pair {
        m: i64::from(slot[FIRST_M + 2 * t]),
        p: slot[FIRST_P + 2 * t] as u64,
    }
}

// The slot at `at` of the store becomes the numbers given: it is lent to what puts them there, as a part.
#[tactic(auto, using(encoding::proofs::Placed::lent_placed))]
pub fn keep(store: &mut [i32], at: usize, numbers: &[i32])
    requires { at + length numbers.now ≤ length store.old }
    ensures { store.new ≡ placed at numbers.now store.old }
{
    put(&mut store[at..], 0, numbers);
}
