// One step of a run from a state: a wait, a jump.
ghost use Rattle.std.specs.Prelude.{◌<◌};
ghost use Rattle.automata.specs.Automata.{clocks, locations};
ghost use Rattle.run_judge.specs.Clocks.{CanStep, LowBehind};

use crate::clocks::{reset, wait};
use crate::state::State;
use automata::opened::Automaton;
use automata::refusals::SCALE;

// A state of an automaton from which the sums of a step fit.
#[derive(Clone, Copy)]
pub(crate) struct Ready<'a> {
    pub automaton: &'a Automaton<'a>,
    pub state: State,
    ghost can_step: { CanStep automaton.now.bytes.now state.location state.clocks },
}

impl<'a> Ready<'a> {
    ghost use Rattle.run_judge.specs.Moves.{arrived, first_move, wait_move, jump_move};
    ghost use Rattle.run_judge.specs.Numbers.{capped};
    ghost use Rattle.run_judge.specs.Steps.{Leads};

    // The state, if the invariant of its location holds.
    #[tactic(auto, unfolding(crate::specs::Moves::arrived), using(crate::proofs::steps::Moving::constrained, crate::proofs::steps::Readying::able))]
    fn at(automaton: &'a Automaton<'a>, state: State) -> Option<Ready<'a>>
        requires { (state.location < locations automaton.now.bytes.now) × LowBehind (clocks automaton.now.bytes.now) state.clocks }
        ensures { Leads automaton.now.bytes.now (arrived automaton.now.bytes.now state) result }
    {
        if state.is_within(&automaton.invariant(state.location)) {
            Some(Ready { automaton, state })
        } else {
            None
        }
    }

    // The first state of a run.
    #[tactic(auto, unfolding(crate::specs::Moves::first_move))]
    pub(crate) fn first(automaton: &'a Automaton<'a>) -> Option<Ready<'a>>
        ensures { Leads automaton.now.bytes.now (first_move automaton.now.bytes.now) result }
    {
        let start = State {
            location: automaton.start(),
            clocks: [0; 8],
        };
        Ready::at(automaton, start)
    }

    // The state after a wait of z time units. None is made that is below 0 or above every limit.
    #[tactic(auto, using(crate::proofs::steps::Moving::wait_ways))]
    pub(crate) fn wait(&self, z: i64) -> Option<Ready<'a>>
        ensures { Leads self.now.automaton.now.bytes.now
            (wait_move self.now.automaton.now.bytes.now self.now.state (capped z)) result }
    {
        let t = u64::try_from(z).ok()?;
        if u64::from(SCALE) < t {
            return None;
        }
        let mut clocks = self.state.clocks;
        wait(&mut clocks[..self.automaton.clocks], t);
        let later = State {
            clocks,
            ..self.state
        };
        Ready::at(self.automaton, later)
    }

    // The state after a jump by edge z: the guard must hold before the reset, the invariant at arrival after it.
    #[tactic(auto, using(crate::proofs::steps::Moving::jump_ways))]
    pub(crate) fn jump(&self, z: i64) -> Option<Ready<'a>>
        ensures { Leads self.now.automaton.now.bytes.now
            (jump_move self.now.automaton.now.bytes.now self.now.state (capped z)) result }
    {
        let i = usize::try_from(z).ok()?;
        if self.automaton.edges <= i {
            return None;
        }
        let edge = self.automaton.edge(i);
        if edge.from != self.state.location || !self.state.is_within(&self.automaton.guard(i)) {
            return None;
        }
        let mut clocks = self.state.clocks;
        reset(&mut clocks[..self.automaton.clocks], edge.resets);
        let arrival = State {
            location: edge.to,
            clocks,
        };
        Ready::at(self.automaton, arrival)
    }
}
