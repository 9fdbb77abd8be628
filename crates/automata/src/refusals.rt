// Which refusal of document 01's "Turned down" applies to an automaton at reading.
ghost use Rattle.std.specs.Prelude.{◌≡◌, IfOk};
ghost use Rattle.automata.specs.Numbers.{number, number_in};
ghost use Rattle.automata.specs.Opened.{head_of};
ghost use Rattle.automata.specs.Refusals.{refusal_of};

use crate::fields::{HEAD, Head, edge_in};
use crate::whole::Whole;
use encoding::be32;

const VERSION: u8 = 1;

// The largest lo and hi.
pub const SCALE: u32 = 1000000;

// The table's refusals, each with its number and the trade's word for it.
#[derive(Clone, Copy, Debug, PartialEq, Eq)]
pub enum Refusal {
    // stub
    TooShort = 1,
    // miscounted
    OtherLength = 2,
    // foreign
    OtherVersion = 3,
    // oversize
    CountsOutOfRange = 4,
    // ragged
    UnevenLength = 5,
    // no such place
    NoSuchLocation = 6,
    // no such clock
    NoSuchClock = 7,
    // off scale
    LimitOutOfRange = 8,
    // piled up
    ErrorCountTooLarge = 9,
    // store full
    StoreFull = 10,
    // bad shelf
    UnsoundCache = 11,
    // shelf full
    CacheFull = 12,
    // a buffer too short for the ordered card
    FormTooLong = 13,
    // a run buffer too short
    RunTooLong = 14,
}

impl Refusal {
    // A method and not `From`: `refusal.number()` says that it is the table's number, where `u32::from(refusal)` says only which type it is in.
    pub fn number(self) -> u32
        ensures { result ≡ number self }
    {
        // The cast that the language has for the number beside a variant.
        self as u32
    }
}

// The head of an automaton, or the refusal with the smallest number that applies.
#[tactic(auto, unfolding(crate::specs::Refusals::refusal_of))]
pub(crate) fn check(bytes: &[u8]) -> Result<Head, Refusal>
    ensures refusal { number_in result ≡ refusal_of bytes.now }
    ensures head { IfOk result (λ h. h ≡ head_of bytes.now) }
{
    let length = bytes.len();
    if length < HEAD {
        return Err(Refusal::TooShort);
    }
    if u32::try_from(length) != Ok(be32(bytes, 0)) {
        return Err(Refusal::OtherLength);
    }
    if bytes[4] != VERSION {
        return Err(Refusal::OtherVersion);
    }
    let head = Head::read(bytes);
    if head.counts_out_of_range() {
        return Err(Refusal::CountsOutOfRange);
    }
    if length != edge_in(head.clocks, head.locations, head.edges) {
        return Err(Refusal::UnevenLength);
    }
    let whole = Whole { bytes, head };
    if whole.no_such_location() {
        return Err(Refusal::NoSuchLocation);
    }
    if whole.no_such_clock() {
        return Err(Refusal::NoSuchClock);
    }
    if whole.limit_out_of_range() {
        return Err(Refusal::LimitOutOfRange);
    }
    Ok(head)
}
