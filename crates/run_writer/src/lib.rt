// Document 02, Change 2: "A run in whole time units with no loosening is written by a call over the bare search into a lent buffer of 64-bit
// signed numbers".
#![tactic(auto)]

mod branch;
mod crossing;

ghost use Rattle.std.specs.Prelude.{◌≡◌, length};
ghost use Rattle.search.specs.Answers.{search_store};
ghost use Rattle.run_writer.specs.Writing.{run_findings, run_buffer};
ghost use Rattle.run_writer.specs.Told.{Tells};

use automata::opened::Automaton;
use automata::refusals::Refusal;
use branch::Branch;
use search::exploration::explore;
use search::findings;
use search::outcome::Outcome;
use search::verdict::Findings;

// The bare search's findings and store, or 14 where the target is reached and the buffer for the run is too short. Where the answer is
// reached, the buffer begins with a run along the search's branch that ends at the target, and the judge passes it. All three buffers are lent
// through the C interface, as there is no heap. What is used is told where the documents put it: by the findings' zones and the run's first number.
pub fn write_run(automaton: &[u8], store: &mut [i32], run: &mut [i64]) -> Result<Findings, Refusal>
    ensures value { result ≡ run_findings automaton.now (length store.old) (length run.old) }
    ensures store_after { store.new ≡ search_store automaton.now store.old }
    ensures run_after { run.new ≡ run_buffer automaton.now (length store.old) run.old }
    ensures tells { Tells automaton.now (length store.old) run.new result }
{
    let automaton = Automaton::open(automaton)?;
    write_found(&automaton, store, run)
}

// The same of an automaton that is not turned down.
fn write_found(
    automaton: &Automaton,
    store: &mut [i32],
    run: &mut [i64],
) -> Result<Findings, Refusal>
    ensures value { result ≡ run_findings automaton.now.bytes.now (length store.old) (length run.old) }
    ensures store_after { store.new ≡ search_store automaton.now.bytes.now store.old }
    ensures run_after { run.new ≡ run_buffer automaton.now.bytes.now (length store.old) run.old }
    ensures tells { Tells automaton.now.bytes.now (length store.old) run.new result }
{
    let turn = explore(automaton, store);
    if let Outcome::Reached(origin) = turn.outcome {
        let branch = Branch {
            automaton: *automaton,
            store,
            origin,
        };
        let k = branch.jumps();
        if run.len() < 2 * k + 2 {
            return Err(Refusal::RunTooLong);
        }
        branch.write_back(run, k);
    }
    findings(turn)
}
