// The edges of an automaton, as they lie one behind another.
ghost use Rattle.std.specs.Prelude.{◌≡◌, ◌*◌, ◌≤◌, ◌<◌, length};
ghost use Rattle.order.specs.Edges.{rising};
ghost use Rattle.order.specs.Laid.{nth_edge, first_edges};
ghost use Rattle.canonical.specs.Numbers.{falling};

use crate::comparing::less;
use automata::fields::edge_size;
use automata::opened::Automaton;

// The place of the first in the automaton, the bytes from there on, the size of each, and their number. Edges are asked for by number, in any order,
// which std's `chunks_exact` doesn't give.
#[derive(Clone, Copy)]
pub(crate) struct Edges<'a> {
    pub at: usize,
    pub bytes: &'a [u8],
    pub size: usize,
    pub count: usize,
    ghost few: { count ≤ 256 },
    ghost whole: { count * size ≤ length bytes.now },
}

impl<'a> Edges<'a> {
    ghost use Rattle.canonical.specs.Edges.{EdgesOf};

    #[tactic(auto, using(crate::proofs::edges::Lying::lies), unfolding(automata::specs::Automata::edge_in))]
    pub fn of(automaton: &Automaton<'a>) -> Self
        ensures { EdgesOf automaton.now.bytes.now result }
    {
        let at = automaton.edge_at(0);
        Edges {
            at,
            bytes: &automaton.bytes[at..],
            size: edge_size(automaton.clocks),
            count: automaton.edges,
        }
    }

    // That an edge is there is asked here and where it is listed: a number with that fact would have to carry the edges that it is of.
    // The bytes of edge i.
    #[tactic(auto, unfolding(order::specs::Laid::edge_bytes))]
    pub fn nth(&self, i: usize) -> &'a [u8]
        requires { i < self.now.count }
        ensures bytes { result.now ≡ nth_edge self.now.size self.now.bytes.now i }
        ensures size { length result.now ≡ self.now.size }
    {
        let from = i * self.size;
        &self.bytes[from..from + self.size]
    }

    // Whether each edge is less than the next.
    pub fn is_rising(&self) -> bool
        ensures { result ≡ rising (first_edges self.now.size self.now.bytes.now self.now.count) }
    {
        (1..self.count).all(|i| less(self.nth(i - 1), self.nth(i)))
    }

    // Whether the first two edges fall.
    #[tactic(auto, unfolding(crate::specs::Numbers::falling))]
    pub fn falls(&self) -> bool
        ensures { result ≡ falling self.now.size self.now.bytes.now self.now.count }
    {
        2 <= self.count && less(self.nth(1), self.nth(0))
    }
}
