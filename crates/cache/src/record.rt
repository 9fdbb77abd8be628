// One record of a cache. Its numbers are cast to the u32 that their bytes hold, since no wider type has a `From` to it; `fits` says that they fit.
ghost use Rattle.std.specs.Prelude.{◌≡◌, ◌≤◌, length};
ghost use Rattle.encoding.specs.Placing.{placed};
ghost use Rattle.cache.specs.Layouts.{Laid};
ghost use Rattle.cache.specs.Records.{record_numbers, record_automaton, sound_record, filed_as, number_bytes, AnswerFits};

use crate::layout::Layout;
use canonical::is_canonical;
use encoding::{be32, bytes_of, put};
use search::verdict::{Answer, Numbers};

// ---- what it says
// The bytes of a record, all of them and no more, and the layout in which they are read.
#[derive(Clone, Copy)]
pub(crate) struct Record<'a> {
    pub(crate) bytes: &'a [u8],
    pub(crate) layout: Layout,
    pub(crate) ghost laid: { Laid layout },
    pub(crate) ghost has_head: { layout.head ≤ length bytes.now },
}

impl<'a> Record<'a> {
    pub(crate) fn automaton(self) -> &'a [u8]
        ensures { result.now ≡ record_automaton self.entry.layout self.entry.bytes.now }
    {
        &self.bytes[self.layout.head..]
    }

    // The numbers of its verdict.
    fn numbers(self) -> Numbers
        ensures { result ≡ record_numbers self.entry.layout self.entry.bytes.now }
    {
        let Record { bytes, layout } = self;
        Numbers {
            kind: bytes[layout.kind],
            n: u64::from(be32(bytes, layout.n)),
            d: u64::from(be32(bytes, layout.d)),
        }
    }

    #[tactic(auto, unfolding(crate::specs::Records::sound_record))]
    pub(crate) fn is_sound(self) -> bool
        ensures { result ≡ sound_record self.entry.layout self.entry.bytes.now }
    {
        self.numbers().are_sound() && is_canonical(self.automaton())
    }

    pub(crate) fn filed(self) -> Answer
        ensures { result ≡ filed_as self.entry.layout self.entry.bytes.now }
    {
        Answer {
            verdict: self.numbers().verdict(),
            zones: be32(self.bytes, self.layout.zones),
        }
    }
}

// ---- its bytes
// A record that is filed: an answer and its automaton, and the layout whose fields hold their numbers.
#[derive(Clone, Copy)]
pub(crate) struct Entry<'a> {
    pub(crate) layout: Layout,
    pub(crate) answer: Answer,
    pub(crate) automaton: &'a [u8],
    pub(crate) ghost laid: { Laid layout },
    pub(crate) ghost fits: { AnswerFits layout answer automaton.now },
}

impl Entry<'_> {
    ghost use Rattle.cache.specs.Entries.{entry_length, entry_numbers, entry_record};

    pub(crate) fn length(&self) -> usize
        ensures { result ≡ entry_length self.now }
    {
        self.layout.head + self.automaton.len()
    }

    fn write_numbers(&self, free: &mut [u8])
        requires { self.now.layout.head ≤ length free.old }
        ensures { free.new ≡ placed self.now.layout.kind (number_bytes (entry_numbers self.now)) free.old }
    {
        let x = Numbers::from(self.answer.verdict);
        put(free, self.layout.kind, &[x.kind]);
        put(free, self.layout.n, &bytes_of(x.n as u32));
        put(free, self.layout.d, &bytes_of(x.d as u32));
    }

    // The free part of a cache begins with it: field after field, then the automaton.
    pub(crate) fn write(&self, free: &mut [u8])
        requires { entry_length self.now ≤ length free.old }
        ensures { free.new ≡ placed 0 (entry_record self.now) free.old }
    {
        put(free, 0, &bytes_of(self.length() as u32));
        self.write_numbers(free);
        put(free, self.layout.zones, &bytes_of(self.answer.zones));
        put(free, self.layout.head, self.automaton);
    }
}
