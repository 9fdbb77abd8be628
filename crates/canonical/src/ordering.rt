// The numbers of edges, sorted by the edges' bytes, repeats dropped.
ghost use Rattle.std.specs.Prelude.{◌≡◌, ◌<◌, Bool, length, All, [], true};
ghost use Rattle.std.proofs.Props.{props};
ghost use Rattle.order.specs.Edges.{rising};
ghost use Rattle.order.specs.Laid.{numbered};
ghost use Rattle.canonical.specs.Numbers.{Found, Inserted, LastNotLess, Lists, Takes};

use crate::comparing::less;
use crate::edges::Edges;
use arrayvec::ArrayVec;
use encoding::same;

// Edges, and the numbers of some in order. A byte holds the number of one of 256.
#[derive(Drop)]
pub(crate) struct Order<'a> {
    pub edges: Edges<'a>,
    pub numbers: ArrayVec<u8, 256>,
    ghost there: { All (λ i. i < edges.count) numbers.items } by { Prim.hlevel props },
    ghost rises: { rising (numbered edges.size edges.bytes.now numbers.items) ≡ true },
}

impl<'a> Order<'a> {
    // None is listed yet.
    #[tactic(auto, unfolding(order::specs::Edges::rising))]
    pub fn new(edges: Edges<'a>) -> Self
        ensures same { result.edges ≡ edges.entry }
        ensures empty { result.numbers.items ≡ [] }
    {
        Order {
            edges,
            numbers: ArrayVec::new(),
        }
    }

    // Where edge x belongs, behind the last that is less; none if its bytes are there. Edges in order are behind all, which is tested first.
    fn place(&self, x: usize) -> Option<usize>
        requires { x < self.now.edges.count }
        ensures { Found self.now.edges.size self.now.edges.bytes.now self.now.numbers.items x result }
    {
        let numbers = self.numbers.as_slice();
        let count = numbers.len();
        if count == 0 {
            return Some(0);
        }
        let last = self.edges.nth(usize::from(numbers[count - 1]));
        if less(last, self.edges.nth(x)) {
            return Some(count);
        }
        self.halve(x)
    }

    // The same by halving, where edge x is not behind the last. Inlined, edges in order would take a sixth more instructions (measured).
    #[inline(never)]
    fn halve(&self, x: usize) -> Option<usize>
        requires inside { (x < self.now.edges.count) × (0 < length self.now.numbers.items) }
        requires not_behind { LastNotLess self.now.edges.size self.now.edges.bytes.now self.now.numbers.items x }
        ensures { Found self.now.edges.size self.now.edges.bytes.now self.now.numbers.items x result }
    {
        let edge = self.edges.nth(x);
        let numbers = self.numbers.as_slice();
        let last = numbers.len() - 1;
        let mut lo = 0;
        let mut hi = last;
        // `partition_point` asks for a test of any byte, where only listed numbers are of edges: it would hold each against their count first.
        while lo < hi {
            let mid = lo + (hi - lo) / 2;
            if less(self.edges.nth(usize::from(numbers[mid])), edge) {
                lo = mid + 1;
            } else {
                hi = mid;
            }
        }
        if same(edge, self.edges.nth(usize::from(numbers[lo]))) {
            return None;
        }
        Some(lo)
    }

    // Edge x is listed, unless its bytes are there. Inlined into both orders of taking, with the test in `place`: edges in order take a tenth less.
    #[inline]
    #[tactic(auto, using(crate::proofs::ordering::Inserting::insert_put))]
    fn insert(&mut self, x: usize)
        requires { (x < self.old.edges.count) × (length self.old.numbers.items < 256) }
        ensures same { self.new.edges ≡ self.old.edges }
        ensures inserted { Inserted self.old.edges.size self.old.edges.bytes.now self.old.numbers.items x self.new.numbers.items }
    {
        if let Some(at) = self.place(x) {
            // A byte has no From<usize>, and the error of its TryFrom would be a branch that is never taken.
            self.numbers.insert(at, x as u8);
        }
    }

    // All of them, where none is listed yet; `taken` gives the edge that is taken after i others.
    #[tactic(auto, using(crate::proofs::ordering::Ordering::order_none, crate::proofs::ordering::Ordering::order_more))]
    fn list<F: Fn(usize) -> usize>(&mut self, taken: F)
        requires empty { self.old.numbers.items ≡ [] }
        requires takes { (down : Bool) × Takes down self.old.edges.count (F.pre taken) (F.post taken) }
        ensures same { self.new.edges ≡ self.old.edges }
        ensures lists { Lists self.old.edges.size self.old.edges.bytes.now self.old.edges.count self.new.numbers.items }
    {
        for i in 0..self.edges.count {
            self.insert(taken(i));
        }
    }

    // All of them, where none is listed yet. Where the first two fall they are taken from the last to the first: edges in falling order are then
    // behind all that are listed, too. They are listed in place: given by value the order is cleared and copied once more, and the form of a small
    // automaton takes half as long again (measured).
    pub fn list_all(&mut self)
        requires { self.old.numbers.items ≡ [] }
        ensures same { self.new.edges ≡ self.old.edges }
        ensures lists { Lists self.old.edges.size self.old.edges.bytes.now self.old.edges.count self.new.numbers.items }
    {
        let count = self.edges.count;
        if self.edges.falls() {
            self.list(|i| count - 1 - i);
        } else {
            self.list(|i| i);
        }
    }
}
