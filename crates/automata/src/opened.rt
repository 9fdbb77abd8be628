// Document 01's opened card: an automaton with its counts and the lent bytes that it was read from. Limits and edges are
// fetched from the bytes, and not copied out.
ghost use Rattle.std.specs.Prelude.{◌≡◌, ◌+◌, ◌*◌, ◌≤◌, ◌<◌, IfOk};
ghost use Rattle.automata.specs.Accepted.{Accepted};
ghost use Rattle.automata.specs.Automata.{clocks, locations, edges, start, target, invariant_at, edge_at};
ghost use Rattle.automata.specs.Numbers.{number_in};
ghost use Rattle.automata.specs.Opened.{Counted, edge_of};
ghost use Rattle.automata.specs.Refusals.{refusal_of};

use crate::constraint::Constraint;
use crate::fields::{Edge, Head, edge_in, invariant_in};
use crate::refusals::{Refusal, check};

// An automaton that is not turned down, with the counts that it has. Document 01's form: "Struct with the card slice, n, m, E"; start and target are
// read where they stand.
#[derive(Clone, Copy)]
pub struct Automaton<'a> {
    pub bytes: &'a [u8],
    pub clocks: usize,
    pub locations: usize,
    pub edges: usize,
    pub ghost accepted: { Accepted bytes.now },
    pub ghost counted: { Counted bytes.now clocks locations edges },
}

impl<'a> Automaton<'a> {
    ghost use Rattle.automata.specs.Constraints.{Constrains};

    // The automaton of the bytes, or why they are turned down.
    #[tactic(auto, using(crate::proofs::accepting::Accepting::accepted, crate::proofs::fields::Counting::counted))]
    pub fn open(bytes: &'a [u8]) -> Result<Automaton<'a>, Refusal>
        ensures refusal { number_in result ≡ refusal_of bytes.now }
        ensures opened { IfOk result (λ a. a.bytes ≡ bytes.entry) }
    {
        let head = check(bytes)?;
        Ok(Automaton {
            bytes,
            clocks: head.clocks,
            locations: head.locations,
            edges: head.edges,
        })
    }

    pub fn start(&self) -> usize
        ensures { result ≡ start self.now.bytes.now }
    {
        Head::read(self.bytes).start
    }

    pub fn target(&self) -> usize
        ensures { result ≡ target self.now.bytes.now }
    {
        Head::read(self.bytes).target
    }

    // Not `Whole`'s two places, which ask for what is there: here the first edge that is not there has its place, too.
    // The place of the limits of location l.
    pub fn invariant_at(&self, l: usize) -> usize
        requires { l < 256 }
        ensures { result ≡ invariant_at self.now.bytes.now l }
    {
        invariant_in(self.clocks, l)
    }

    // The place of edge i; of the first that is not there, the length.
    pub fn edge_at(&self, i: usize) -> usize
        requires { i < 65536 }
        ensures { result ≡ edge_at self.now.bytes.now i }
    {
        edge_in(self.clocks, self.locations, i)
    }

    // Locations and edges are numbers, and no type says that they are there: it would have to carry the automaton that they are of.
    // The invariant of location l.
    #[tactic(auto, using(crate::proofs::fields::Places::places))]
    pub fn invariant(&self, l: usize) -> Constraint<'a>
        requires { l < locations self.now.bytes.now }
        ensures { Constrains self.now.bytes.now (invariant_at self.now.bytes.now l) result }
    {
        Constraint {
            bytes: self.bytes,
            at: self.invariant_at(l),
            clocks: self.clocks,
        }
    }

    // The guard of edge i. It and the invariant stay two: one for both would take the place, and ask of it what `Constraint` promises.
    #[tactic(auto, using(crate::proofs::fields::Places::places))]
    pub fn guard(&self, i: usize) -> Constraint<'a>
        requires { i < edges self.now.bytes.now }
        ensures { Constrains self.now.bytes.now (edge_at self.now.bytes.now i + 3) result }
    {
        Constraint {
            bytes: self.bytes,
            at: self.edge_at(i) + 3,
            clocks: self.clocks,
        }
    }

    // Its edge i.
    #[tactic(auto, using(crate::proofs::fields::Places::places))]
    pub fn edge(&self, i: usize) -> Edge
        requires { i < edges self.now.bytes.now }
        ensures { result ≡ edge_of self.now.bytes.now i }
    {
        Edge::read(self.bytes, self.edge_at(i))
    }
}
