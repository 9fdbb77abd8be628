// The form of an automaton, written part after part. `form` is the buffer that a caller lends, beside what is written into it.
ghost use Rattle.std.specs.Prelude.{◌≡◌, ◌+◌, ◌*◌, ◌≤◌, ◌<◌, length};
ghost use Rattle.encoding.specs.Placing.{placed};
ghost use Rattle.automata.specs.Canonical.{canonical_of};
ghost use Rattle.canonical.specs.Numbers.{listed_bytes};
ghost use Rattle.canonical.specs.Parts.{Sorted, front_of};

use crate::ordering::Order;
use automata::fields::HEAD;
use encoding::{bytes_of, put, two_bytes_of};

// The head and the invariants: length and number of edges put right, all else as drawn.
#[tactic(auto, using(crate::proofs::writing::Front::front_put))]
fn write_front(form: &mut [u8], automaton: &[u8], at: usize, total: usize, count: usize)
    requires at_fits { (11 ≤ at) × (at ≤ length automaton.now) × (at ≤ length form.old) }
    requires total_bound { (total < 4294967296) × (count < 4294967296) }
    ensures { form.new ≡ placed 0 (front_of automaton.now at total count) form.old }
{
    // A u32 has no From<usize>, and the error of its TryFrom would be a branch that is never taken.
    put(form, 0, &bytes_of(total as u32));
    put(form, 4, &automaton[4..9]);
    put(form, 9, &two_bytes_of(count as u32));
    put(form, HEAD, &automaton[HEAD..at]);
}

// The listed edges, one after another.
#[tactic(auto, using(crate::proofs::writing::Listed::placed_none, crate::proofs::writing::Listed::write_turn))]
fn write_edges(form: &mut [u8], order: &Order)
    requires { order.now.edges.at + length order.now.numbers.items * order.now.edges.size ≤ length form.old }
    ensures { form.new ≡ placed order.now.edges.at (listed_bytes order.now.edges.size order.now.edges.bytes.now order.now.numbers.items) form.old }
{
    for (k, &i) in order.numbers.as_slice().iter().enumerate() {
        put(
            form,
            order.edges.at + k * order.edges.size,
            order.edges.nth(usize::from(i)),
        );
    }
}

// The form of an automaton, `total` bytes, at the start of a lent buffer.
pub(crate) fn write_form(form: &mut [u8], automaton: &[u8], order: &Order, total: usize)
    requires sorted { Sorted automaton.now order.now }
    requires total_value { (total ≡ length (canonical_of automaton.now)) × (total ≤ length form.old) }
    ensures { form.new ≡ placed 0 (canonical_of automaton.now) form.old }
{
    let count = order.numbers.len();
    write_front(form, automaton, order.edges.at, total, count);
    write_edges(form, order);
}
