// Document 02, Change 1: automata with their edges in one order.
#![tactic(auto)]

mod comparing;
mod edges;
mod ordering;
mod writing;

ghost use Rattle.std.specs.Prelude.{true, ◌↔◌, ◌≡◌, length};
ghost use Rattle.automata.specs.Canonical.{in_order, is_canonical};
ghost use Rattle.automata.specs.Forms.{OwnForm, FormLaws};
ghost use Rattle.automata.specs.Refusals.{refusal_of};
ghost use Rattle.canonical.specs.Writing.{form_answer, form_buffer};

use automata::opened::Automaton;
use automata::refusals::Refusal;
use edges::Edges;
use ordering::Order;
use writing::write_form;

// Whether the edges rise, each less than the next.
#[tactic(auto, using(crate::proofs::edges::Lying::rising_drawn))]
fn in_order(automaton: &Automaton) -> bool
    ensures { result ≡ in_order automaton.now.bytes.now }
{
    Edges::of(automaton).is_rising()
}

// Whether bytes are an automaton in its own form.
pub fn is_canonical(automaton: &[u8]) -> bool
    ensures value { result ≡ is_canonical automaton.now }
    ensures own_form { (result ≡ true) ↔ OwnForm automaton.now }
{
    match Automaton::open(automaton) {
        Ok(automaton) => in_order(&automaton),
        Err(_) => false,
    }
}

// An automaton and a lent buffer for its form stay two parameters: the C interface lends each with its own length.
// The form of an automaton at the start of a lent buffer, and its length; the bytes past it are unchanged. A buffer that is too short is untouched.
pub fn write_canonical(automaton: &[u8], form: &mut [u8]) -> Result<usize, Refusal>
    ensures value { result ≡ form_answer automaton.now (length form.old) }
    ensures form_after { form.new ≡ form_buffer automaton.now form.old }
    ensures form_laws { refusal_of automaton.now ≡ 0 → FormLaws automaton.now }
{
    let automaton = Automaton::open(automaton)?;
    let mut order = Order::new(Edges::of(&automaton));
    order.list_all();
    let total = order.edges.at + order.numbers.len() * order.edges.size;
    if form.len() < total {
        return Err(Refusal::FormTooLong);
    }
    write_form(form, automaton.bytes, &order, total);
    Ok(total)
}
