// The search for the verdict of an automaton.
#![tactic(auto)]

pub mod exploration;
pub mod outcome;
pub mod successor;
pub mod verdict;

ghost use Rattle.std.specs.Prelude.{◌≡◌, ◌≤◌, length};
ghost use Rattle.search.specs.Instance.{fractions_of};
ghost use Rattle.search.specs.Promised.{Promised};
ghost use Rattle.search.specs.Store.{most_slots};
ghost use Rattle.search.specs.Answers.{found_of, turn_findings, search_findings, search_store};

use automata::opened::Automaton;
use automata::refusals::Refusal;
use exploration::explore;
use outcome::{Outcome, Turn};
use verdict::{Answer, Findings, Holding, Verdict};

// What is found with a verdict.
fn found<R: Copy>(verdict: Verdict, t: Turn<R>) -> Findings
    requires { t.count ≤ most_slots }
    ensures { result ≡ found_of verdict t.exact t.count t.dropped }
{
    Findings {
        answer: Answer {
            verdict,
            // A cast, since u32 has no From<usize>.
            zones: t.count as u32,
        },
        exact: t.exact.lowest_terms(),
        dropped: t.dropped,
    }
}

// What the search has found, from where it stopped.
#[tactic(auto, unfolding(crate::specs::Answers::turn_findings))]
pub fn findings<R: Copy>(t: Turn<R>) -> Result<Findings, R>
    requires { t.count ≤ most_slots }
    ensures { result ≡ turn_findings t.outcome (fractions_of t.exact t.safe) t.count t.dropped }
{
    match t.outcome {
        Outcome::Going => {
            let below = Holding::from(t.safe.lowest_terms());
            Ok(found(Verdict::Holds(below), t))
        }
        Outcome::Reached(_) => Ok(found(Verdict::Reached, t)),
        Outcome::Refused(k) => Err(k),
    }
}

// The verdict of an automaton, with the zones kept in the lent store: the findings and the store of the documents' search.
// The verdict is right of all runs (demand 3); below the exact fraction the kept zones are the exact sets of states (demand 2), and at
// every error they contain them; the exact fraction is not above the safe one; the numbers fit; where it holds, the zones kept and dropped
// are all that came out not empty; and unless it is 10, every length of a store that does not give 10 gives these findings.
pub fn search(automaton: &[u8], store: &mut [i32]) -> Result<Findings, Refusal>
    ensures value { result ≡ search_findings automaton.now (length store.old) }
    ensures store_after { store.new ≡ search_store automaton.now store.old }
    ensures promised { Promised automaton.now (length store.old) result }
{
    let automaton = Automaton::open(automaton)?;
    findings(explore(&automaton, store))
}
