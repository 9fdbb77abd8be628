// The search over zones in the lent store: kept zones are taken oldest first, with edges in order.
ghost use Rattle.std.specs.Prelude.{◌≡◌, suc, ◌*◌, ◌≤◌, ◌<◌, length, MatchOption};
ghost use Rattle.zones.specs.Ranges.{Fits32, Sized, counts, last_counts};
ghost use Rattle.zones.specs.Settled.{Settled};
ghost use Rattle.zones.specs.Zones.{set_of};
ghost use Rattle.automata.specs.Automata.{clocks, edges, locations, target, to};
ghost use Rattle.search.specs.Exploring.{FirstHit, Shown, SoundResult, SoundZone, arrival_of, successor_of};
ghost use Rattle.search.specs.Steps.{Goes, Judges, Tells, Expands, Takes};
ghost use Rattle.automata.specs.Opened.{edge_of};
ghost use Rattle.slots.specs.Slots.{slot_length, Framed};
ghost use Rattle.search.specs.Store.{most_slots, capacity_of};
ghost use Rattle.search.specs.Answers.{state_of};
ghost use Rattle.search.specs.Outcomes.{most_offers};

use crate::outcome::{Dropped, Outcome, Turn};
use crate::successor::{enter, narrow};
use automata::fields::Edge;
use automata::opened::Automaton;
use automata::refusals::Refusal;
use slots::containment::{inside_of, is_within, largest_count};
use slots::slot::{Origin, decode, encode, keep, location_of, slot_length};
use zones::fraction::Fraction;
use zones::pair::Pair;
use zones::reduction::Reduced;
use zones::zone::Work;

// A zone to be kept whose error count is larger is refused by 9.
const COUNTS: u64 = u16::MAX as u64;

// The most slots that are used.
const SLOTS: usize = i32::MAX as usize;

// The number of the oldest kept slot of the same location that contains the new one. `size ≤ 9`, here and below, is slots' clause.
// Over the slots' numbers: of `chunks_exact` and `take` no lemma of the library tells the closure how long a slot is. So a slot is cut out where
// it is looked at, here, in `judge` and in `take`: a function for the two lines would say no more than they do.
fn find(store: &[i32], new: &[i32], count: usize, size: usize) -> Option<usize>
    requires { (size ≤ 9) × (count * slot_length size ≤ length store.now) × (length new.now ≡ slot_length size) }
    ensures { MatchOption result (FirstHit size new.now store.now count count)
        (λ j. (j < count) × FirstHit size new.now store.now count j) }
{
    let stride = slot_length(size);
    (0..count).find(|&j| {
        let at = j * stride;
        let old = &store[at..at + stride];
        location_of(old) == location_of(new) && is_within(new, old)
    })
}

// A search of an automaton, in a store with places for `capacity` slots: what stays while the turn goes on. C lends the store, and each step
// has it lent on: a `&mut` field would have to be followed to its end in each contract. The turn, with the count of the slots in use, goes
// beside it, since each step gives back another; and `Goes` is of search, store and turn together, so it is a ghost field of none of them.
#[derive(Clone, Copy)]
struct Search<'a> {
    automaton: &'a Automaton<'a>,
    capacity: usize,
}

impl<'a> Search<'a> {
    // A zone that has entered l, not the target: it is dropped inside a kept one, refused, or kept. Its location and its origin stay apart, here
    // and below: `follow` has the origin from the taken zone and the location from the edge, the definition's nodes have `came` apart from `at`,
    // and a struct of the two would be made for one call and taken apart in the next.
    fn judge(self, store: &mut [i32], turn: Turn, l: usize, origin: Origin, w: Work) -> Turn
        requires there { (l < locations self.automaton.now.bytes.now) × (l ≡ target self.automaton.now.bytes.now → ⊥) }
        requires going { Goes self most_offers store.old turn }
        requires sized { Sized last_counts (suc (clocks self.automaton.now.bytes.now)) w
            × Framed (suc (clocks self.automaton.now.bytes.now)) w.zone }
        ensures { Judges self.entry store.old turn l origin w store.new result }
    {
        let size = self.automaton.clocks + 1;
        let numbers = encode(l, origin, w.zone, size);
        let stride = slot_length(size);
        let new = &numbers[..stride];
        if let Some(j) = find(store, new, turn.count, size) {
            let at = j * stride;
            let old = &store[at..at + stride];
            return turn.contained(w.fraction, inside_of(new, old));
        }
        if COUNTS < largest_count(new) {
            return turn.refused(w.fraction, Refusal::ErrorCountTooLarge);
        }
        if turn.count < self.capacity {
            keep(store, turn.count * stride, new);
            return Turn {
                count: turn.count + 1,
                exact: w.fraction,
                outcome: Outcome::Going,
                ..turn
            };
        }
        turn.refused(w.fraction, Refusal::StoreFull)
    }

    // What has entered l is judged.
    fn offer(self, store: &mut [i32], turn: Turn, l: usize, origin: Origin, r: Reduced) -> Turn
        requires there { l < locations self.automaton.now.bytes.now }
        requires going { Goes self most_offers store.old turn × SoundResult self.automaton.now.bytes.now r }
        ensures { Tells self.entry store.old turn l origin r store.new result }
    {
        if let Some(safe) = r.emptied {
            return turn.emptied(r.work.fraction, safe);
        }
        if l == self.automaton.target() {
            return Turn {
                exact: r.work.fraction,
                outcome: Outcome::Reached(origin),
                ..turn
            };
        }
        self.judge(store, turn, l, origin, r.work)
    }

    // A settled zone enters l after a reset, and is judged. The start and the edges share this function, so that the compiler keeps it
    // out of the loop over the edges and gives its steps one square. Its clauses of a zone that is settled and few in counts are no type's:
    // `enter` asks them, too, and `narrow` the like, of squares of other makings (the first zone, a guard's, a reset one), each proved at its call.
    fn arrive(
        self,
        store: &mut [i32],
        turn: Turn,
        l: usize,
        origin: Origin,
        w: Work,
        resets: [bool; 9],
    ) -> Turn
        requires there { (l < locations self.automaton.now.bytes.now) × Goes self most_offers store.old turn }
        requires sized { Sized (10 * counts) (suc (clocks self.automaton.now.bytes.now)) w
            × Settled (suc (clocks self.automaton.now.bytes.now)) w }
        requires sound_result { SoundResult self.automaton.now.bytes.now
            (arrival_of self.automaton.now.bytes.now l (set_of resets) w) }
        ensures { Tells self.entry store.old turn l origin
            (arrival_of self.entry.automaton.now.bytes.now l (set_of resets) w) store.new result }
    {
        let entered = enter(self.automaton, l, w, resets);
        self.offer(store, turn, l, origin, entered)
    }

    // The successor of a taken zone along edge i, which was fetched, is judged.
    fn follow(
        self,
        store: &mut [i32],
        turn: Turn,
        origin: Origin,
        i: usize,
        edge: Edge,
        w: Work,
    ) -> Turn
        requires there { (i < edges self.automaton.now.bytes.now) × (edge ≡ edge_of self.automaton.now.bytes.now i) }
        requires going { Goes self most_offers store.old turn × SoundZone self.automaton.now.bytes.now w.zone × Fits32 w.fraction }
        ensures { Tells self.entry store.old turn (to self.entry.automaton.now.bytes.now i) origin
            (successor_of self.entry.automaton.now.bytes.now i w) store.new result }
    {
        let met = narrow(&self.automaton.guard(i), w, false);
        if let Some(safe) = met.emptied {
            return turn.emptied(met.work.fraction, safe);
        }
        self.arrive(store, turn, edge.to, origin, met.work, edge.resets)
    }

    // The edges of the kept zone of slot `parent`, in order, until the search stops.
    fn expand(self, store: &mut [i32], turn: Turn, parent: usize, l: usize, z: [Pair; 81]) -> Turn
        requires parent_kept { parent < most_slots }
        requires going { Goes self (suc (parent * 256)) store.old turn × SoundZone self.automaton.now.bytes.now z }
        ensures { Expands self.entry store.old turn parent l z store.new result }
    {
        let mut t = turn;
        // Made once, and given the running fraction at each edge: made anew for each, it took a search of 3 clocks 2.4 in a hundred
        // instructions more, and one of 8 clocks 3.1.
        let mut w = Work {
            zone: z,
            fraction: t.exact,
        };
        for i in 0..self.automaton.edges {
            let edge = self.automaton.edge(i);
            if edge.from == l {
                w.fraction = t.exact;
                let origin = Origin::along(parent, i);
                t = self.follow(store, t, origin, i, edge, w);
                if t.has_ended() {
                    return t;
                }
            }
        }
        t
    }

    // The kept zones, oldest first, each once, until nothing is left to take.
    fn take(self, store: &mut [i32], turn: Turn) -> Turn
        requires { Goes self 1 store.old turn }
        ensures { Takes self.entry store.old turn store.new result }
    {
        let size = self.automaton.clocks + 1;
        let stride = slot_length(size);
        let mut t = turn;
        let mut next = 0;
        // Zones are kept while others are taken, so the count is no end that a range could name.
        while next < t.count {
            let slot = &store[next * stride..];
            // A cast, since usize has no From<i32>.
            let l = location_of(slot) as usize;
            let z = decode(slot, size);
            t = self.expand(store, t, next, l, z);
            if t.has_ended() {
                return t;
            }
            next += 1;
        }
        t
    }
}

// How many slots a store has.
#[tactic(auto, using(crate::proofs::exploration::Stores::capacity_is))]
fn capacity_of(numbers: usize, size: usize) -> usize
    requires { size ≤ 9 }
    ensures { result ≡ capacity_of size numbers }
{
    SLOTS.min(numbers / slot_length(size))
}

// The whole search of an accepted automaton.
pub fn explore(automaton: &Automaton, store: &mut [i32]) -> Turn
    ensures { Shown (suc (clocks automaton.now.bytes.now)) store.old
        (state_of automaton.now.bytes.now (length store.old)) store.new result }
{
    let search = Search {
        automaton,
        capacity: capacity_of(store.len(), automaton.clocks + 1),
    };
    let first = Turn {
        count: 0,
        exact: Fraction::NO_LIMIT,
        safe: Fraction::NO_LIMIT,
        dropped: Dropped::NONE,
        outcome: Outcome::Going,
    };
    let l = automaton.start();
    let t = search.arrive(store, first, l, Origin::none(), Work::first(), [false; 9]);
    if t.has_ended() {
        return t;
    }
    search.take(store, t)
}
