// Document 02, Change 2: "A separate judge takes any card and any buffer, refuses by 1 to 8, and says yes exactly when the buffer
// begins with a run of the card in this form, ending at the target."
#![tactic(auto)]

mod clocks;
mod numbers;
mod state;
mod steps;
mod stretches;

ghost use Rattle.std.specs.Prelude.{◌↔◌, ◌≡◌, Ok, true};
ghost use Rattle.run_judge.specs.Judging.{judgement_of};
ghost use Rattle.run_judge.specs.Passing.{Passes};

use automata::opened::Automaton;
use automata::refusals::Refusal;
use numbers::counted;
use stretches::passes;

// Whether the buffer begins with a run of the automaton that ends at the target.
pub fn judge(automaton: &[u8], run: &[i64]) -> Result<bool, Refusal>
    ensures value { result ≡ judgement_of automaton.now run.now }
    ensures yes { (result ≡ Ok true) ↔ Passes automaton.now run.now }
{
    let automaton = Automaton::open(automaton)?;
    let Some(numbers) = counted(run) else {
        return Ok(false);
    };
    Ok(passes(&automaton, numbers))
}
