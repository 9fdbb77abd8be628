// The records of a cache, one after another.
ghost use Rattle.cache.specs.Layouts.{Laid};

use crate::layout::Layout;
use crate::record::Record;
use encoding::same;
use search::verdict::Answer;

// A walk over the records that bytes begin with, up to where none begins; and the layout in which they are read.
#[derive(Clone, Copy)]
pub(crate) struct Records<'a> {
    pub(crate) bytes: &'a [u8],
    pub(crate) layout: Layout,
    pub(crate) ghost laid: { Laid layout },
}

impl<'a> Iterator for Records<'a> {
    ghost use Rattle.std.specs.Iterator.{item_count};
    ghost use Rattle.cache.specs.Walks.{left, Walks};

    type Item = Record<'a>;

    ghost next_gives = { Walks };

    ghost remaining = { item_count left };

    #[tactic(auto, using(crate::proofs::records::Splitting::records_none))]
    fn next(&mut self) -> Option<Record<'a>> {
        let length = self.layout.measure(self.bytes)?;
        let (bytes, rest) = self.bytes.split_at(length);
        self.bytes = rest;
        Some(Record {
            bytes,
            layout: self.layout,
        })
    }
}

impl<'a> Records<'a> {
    ghost use Rattle.std.specs.Prelude.{◌≡◌};
    ghost use Rattle.cache.specs.Caches.{sound_records, distinct};
    ghost use Rattle.cache.specs.Lookups.{look_up, neither_filed, both_new};
    ghost use Rattle.cache.specs.Walks.{left};

    // Whether sound records fill the bytes exactly. The walk is by `while let`: after a `for` over `&mut self` no fact says what is left in `self`.
    #[tactic(auto, unfolding(crate::specs::Caches::sound_records, crate::specs::Caches::total, crate::specs::Caches::all_sound))]
    pub(crate) fn are_sound(mut self) -> bool
        ensures { result ≡ sound_records self.entry.layout self.entry.bytes.now }
    {
        while let Some(record) = self.next() {
            if !record.is_sound() {
                return false;
            }
        }
        self.bytes.is_empty()
    }

    // What the records say of an automaton: the first one with its bytes.
    #[tactic(auto, unfolding(crate::specs::Lookups::look_up))]
    pub(crate) fn look_in(self, automaton: &[u8]) -> Option<Answer>
        ensures { result ≡ look_up self.entry.layout (left self.entry) automaton.now }
    {
        for record in self {
            if same(record.automaton(), automaton) {
                return Some(record.filed());
            }
        }
        None
    }

    // Whether neither of two automata stands in the records: one walk for both, since walking is what takes the time.
    #[tactic(auto, unfolding(crate::specs::Lookups::look_up))]
    fn neither_filed(self, a: &[u8], b: &[u8]) -> bool
        ensures { result ≡ neither_filed self.entry.layout (left self.entry) a.now b.now }
    {
        for record in self {
            let own = record.automaton();
            if same(own, a) || same(own, b) {
                return false;
            }
        }
        true
    }

    // Whether two automata differ, and neither stands in the records.
    fn both_new(self, a: &[u8], b: &[u8]) -> bool
        ensures { result ≡ both_new self.entry.layout (left self.entry) a.now b.now }
    {
        !same(b, a) && self.neither_filed(a, b)
    }

    // Whether no automaton stands in two of the records: two of them against all that follow, at each turn, so it is no `for`.
    #[tactic(auto, unfolding(crate::specs::Caches::distinct, crate::specs::Lookups::look_up))]
    pub(crate) fn all_distinct(mut self) -> bool
        ensures { result ≡ distinct self.entry.layout (left self.entry) }
    {
        while let Some(first) = self.next() {
            let Some(second) = self.next() else {
                return true;
            };
            if !self.both_new(first.automaton(), second.automaton()) {
                return false;
            }
        }
        true
    }
}
