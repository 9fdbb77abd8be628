// Where everything stands in a cache: its header, and the fields of a record, as a value for each version.
use encoding::be32;

// The header: four bytes of used length, then the version.
pub const USED_AT: usize = 0;

pub const VERSION_AT: usize = 4;

pub const HEADER: usize = 5;

// The largest length that four bytes say.
pub const LONGEST: usize = u32::MAX as usize;

// The version's number, where the fields of a record stand, and the bytes before its automaton.
#[derive(Clone, Copy)]
pub struct Layout {
    pub version: u8,
    pub kind: usize,
    pub n: usize,
    pub d: usize,
    pub zones: usize,
    pub head: usize,
}

impl Layout {
    ghost use Rattle.std.specs.Prelude.{◌≡◌, MatchOption};
    ghost use Rattle.cache.specs.Layouts.{Laid};
    ghost use Rattle.cache.specs.Versions.{version1};
    ghost use Rattle.cache.specs.Records.{measured, Begins};

    pub(crate) fn version_1() -> Layout
        ensures value { result ≡ version1 }
        ensures laid { Laid result }
    {
        Layout {
            version: 1,
            kind: 4,
            n: 5,
            d: 9,
            zones: 13,
            head: 17,
        }
    }

    // The length of the record that the bytes begin with, none where they begin with none. It is cast, since usize has no `From` for u32.
    #[tactic(auto, unfolding(crate::specs::Records::measured))]
    pub(crate) fn measure(self, bytes: &[u8]) -> Option<usize>
        requires { Laid self }
        ensures { MatchOption result (measured self bytes.now ≡ 0) (Begins self bytes.now) }
    {
        if bytes.len() < self.head {
            return None;
        }
        let length = be32(bytes, 0) as usize;
        if length < self.head || bytes.len() < length {
            return None;
        }
        Some(length)
    }
}
