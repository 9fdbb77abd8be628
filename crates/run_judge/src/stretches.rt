// "a wait is followed by a jump and a jump by a wait, waits at both ends": a run is judged in stretches of 64 numbers, so that the depth
// of the calls does not grow with the buffer. Wait step and jump step call each other, by document 01's form for this place, and so are no loop.
ghost use Rattle.std.specs.Prelude.{◌≡◌};
ghost use Rattle.run_judge.specs.Judging.{begins};
ghost use Rattle.run_judge.specs.Stretches.{waits, jumps, Handed};

use crate::steps::Ready;
use automata::opened::Automaton;

// The pairs of a wait and a jump in a stretch, after the first.
const FURTHER: usize = 31;

// A state, and the numbers that are still to be judged from it.
#[derive(Clone, Copy)]
pub(crate) struct Left<'a> {
    pub ready: Ready<'a>,
    pub numbers: &'a [i64],
}

// A wait and then the jump after it. At most `further` pairs more are judged: the answer, if they came to one.
#[cycle(jump_step_wait_step)]
#[tactic(auto, using(crate::proofs::stretches::Stretches::ways))]
fn wait_step<'a>(left: &mut Left<'a>, further: usize) -> Option<bool>
    ensures { Handed left.old (waits left.old) left.new result }
{
    let Some((z, numbers)) = left.numbers.split_first() else {
        return Some(false);
    };
    let Some(ready) = left.ready.wait(*z) else {
        return Some(false);
    };
    *left = Left { ready, numbers };
    jump_step(left, further)
}

// A jump and then the wait after it. At the end of the run the location decides.
#[cycle(jump_step_wait_step)]
#[tactic(auto, using(crate::proofs::stretches::Stretches::ways))]
fn jump_step<'a>(left: &mut Left<'a>, further: usize) -> Option<bool>
    ensures { Handed left.old (jumps left.old) left.new result }
{
    let Some((z, numbers)) = left.numbers.split_first() else {
        return Some(left.ready.state.location == left.ready.automaton.target());
    };
    let Some(ready) = left.ready.jump(*z) else {
        return Some(false);
    };
    *left = Left { ready, numbers };
    if further == 0 {
        return None;
    }
    wait_step(left, further - 1)
}

// Whether the numbers are those of a run that ends at the target.
pub(crate) fn passes<'a>(automaton: &'a Automaton<'a>, numbers: &'a [i64]) -> bool
    ensures { result ≡ begins automaton.now.bytes.now numbers.now }
{
    let Some(ready) = Ready::first(automaton) else {
        return false;
    };
    let mut left = Left { ready, numbers };
    // A stretch without an answer has taken numbers. The loop ends by the answer: a `while` would have no condition but the same call.
    loop {
        if let Some(passed) = wait_step(&mut left, FURTHER) {
            return passed;
        }
    }
}
