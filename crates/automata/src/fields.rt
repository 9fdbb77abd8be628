// Document 01's card, a timed automaton as bytes: its parts, read where they lie. That a part is there is asked of callers: functions on the slice
// are document 01's form ("a few thin fetch functions call covered ones on the slice"), and `Automaton` and `Constraint` carry it.
ghost use Rattle.std.specs.Prelude.{true, false, ◌≡◌, ◌+◌, ◌*◌, ◌≤◌, ◌<◌, length};
ghost use Rattle.automata.specs.Automata.{invariant_in, edge_in, in_byte, reset_set};
ghost use Rattle.automata.specs.Opened.{head_of, edge_there, limits_of, upper_of};
ghost use Rattle.automata.specs.Refusals.{out_of_counts, out_of_range};

use crate::refusals::SCALE;
use encoding::{be16, be32};
use std::array;

// The hi of a guard without an upper limit.
pub const NO_UPPER: u32 = u32::MAX;

// The length of the head, with length and version before it.
pub const HEAD: usize = 11;

// The counts, the start and the target: what stands behind the length and the version.
#[derive(Clone, Copy)]
pub struct Head {
    pub clocks: usize,
    pub locations: usize,
    pub start: usize,
    pub target: usize,
    pub edges: usize,
}

// The ends of an edge and, for each clock by its number, whether it is reset.
#[derive(Clone, Copy)]
pub struct Edge {
    pub from: usize,
    pub to: usize,
    pub resets: [bool; 9],
}

// The limits of one clock, as they stand: `hi` is the number of the bytes, which the tests read, and the search of an invariant, which always has
// one; `upper` gives it as an Option.
#[derive(Clone, Copy)]
pub struct Limits {
    pub lo: u32,
    pub hi: u32,
}

impl Head {
    pub fn read(bytes: &[u8]) -> Head
        requires { 11 ≤ length bytes.now }
        ensures { result ≡ head_of bytes.now }
    {
        Head {
            clocks: usize::from(bytes[5]),
            locations: usize::from(bytes[6]),
            start: usize::from(bytes[7]),
            target: usize::from(bytes[8]),
            edges: usize::from(be16(bytes, 9)),
        }
    }

    // Whether a count is outside its range.
    pub(crate) fn counts_out_of_range(self) -> bool
        ensures { result ≡ out_of_counts self.clocks self.locations self.edges }
    {
        !(1..=8).contains(&self.clocks) || !(1..=64).contains(&self.locations) || 256 < self.edges
    }
}

// ---- where the parts stand
// The counts are those of one byte and of two, as read: the length is held against the formula before it is known whether they are in range.
// They are usize, as places are: of a u8 each use would convert, and a caller has a usize.
// The place of the limits of location l, with n clocks.
#[tactic(auto, unfolding(crate::specs::Automata::invariant_in))]
pub fn invariant_in(n: usize, l: usize) -> usize
    requires { (n < 256) × (l < 256) }
    ensures { result ≡ invariant_in n l }
{
    HEAD + 8 * n * l
}

// The bytes of an edge, with n clocks: its ends, its reset byte, its limits.
pub fn edge_size(n: usize) -> usize
    requires { n < 256 }
    ensures { result ≡ 3 + 8 * n }
{
    3 + 8 * n
}

// The place of edge i, with n clocks and m locations.
#[tactic(auto, unfolding(crate::specs::Automata::edge_in))]
pub fn edge_in(n: usize, m: usize, i: usize) -> usize
    requires { (n < 256) × (m < 256) × (i < 65536) }
    ensures { result ≡ edge_in n m i }
{
    HEAD + 8 * n * m + i * edge_size(n)
}

// Whether a reset byte names clock x: bit 0 is clock 1, and clock 0 has none.
#[tactic(auto, unfolding(crate::specs::Automata::in_byte))]
fn in_byte(b: u8, x: usize) -> bool
    requires { x ≤ 8 }
    ensures { result ≡ in_byte b x }
{
    0 < x && (b >> (x - 1)) % 2 == 1
}

// For each clock by its number, whether the byte resets it.
fn reset_set(b: u8) -> [bool; 9]
    ensures { result ≡ reset_set b }
{
    array::from_fn(|x| in_byte(b, x))
}

impl Edge {
    // The edge that stands at `at`.
    pub(crate) fn read(bytes: &[u8], at: usize) -> Edge
        requires { at + 3 ≤ length bytes.now }
        ensures { result ≡ edge_there bytes.now at }
    {
        Edge {
            from: usize::from(bytes[at]),
            to: usize::from(bytes[at + 1]),
            resets: reset_set(bytes[at + 2]),
        }
    }
}

impl Limits {
    // Of clock x, counted from 1, among the limits at `at`.
    pub fn read(bytes: &[u8], at: usize, x: usize) -> Limits
        requires { (0 < x) × (at + 8 * x ≤ length bytes.now) }
        ensures { result ≡ limits_of bytes.now at x }
    {
        let there = at + 8 * (x - 1);
        Limits {
            lo: be32(bytes, there),
            hi: be32(bytes, there + 4),
        }
    }

    // Whether an invariant's lo or hi is outside its range. This and the next are handed on as tests: one for both would take a flag.
    pub(crate) fn invariant_out_of_range(self) -> bool
        ensures { result ≡ out_of_range false self.lo self.hi }
    {
        SCALE < self.lo || SCALE < self.hi
    }

    // The same of a guard, whose hi may be absent.
    #[tactic(auto, unfolding(crate::specs::Opened::upper_of))]
    pub(crate) fn guard_out_of_range(self) -> bool
        ensures { result ≡ out_of_range true self.lo self.hi }
    {
        SCALE < self.lo || self.upper().is_some_and(|hi| SCALE < hi)
    }

    // The hi, where there is one.
    #[tactic(auto, unfolding(crate::specs::Opened::upper_of))]
    pub fn upper(self) -> Option<u32>
        ensures { result ≡ upper_of self.hi }
    {
        if self.hi == NO_UPPER {
            None
        } else {
            Some(self.hi)
        }
    }
}
