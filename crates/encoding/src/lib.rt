// Numbers in bytes, both ways, big-endian in every format; byte strings compared, and put at a place of others.
#![tactic(auto)]

ghost use Rattle.std.specs.Prelude.{◌≡◌, ◌+◌, ◌≤◌, eqb, length};
ghost use Rattle.encoding.specs.Numbers.{be16_at, be32_at, le32_at, be16, be32};
ghost use Rattle.encoding.specs.Placing.{placed};
ghost use Rattle.encoding.specs.Bytes.{same_bytes, Four};

// ---- numbers, by std's conversions: they are methods of each width, so one function for both would need a trait with these as its impls
// A slice and a place stay two parameters, and that the bytes are there is asked: places are counted from an automaton's or a record's first byte, as
// the documents give them, and a slice cut at one would ask its caller for the same.
// The number of the two bytes at `at`.
#[tactic(auto, unfolding(crate::specs::Numbers::be16_at))]
pub fn be16(s: &[u8], at: usize) -> u16
    requires { at + 2 ≤ length s.now }
    ensures { result ≡ be16_at s.now at }
{
    u16::from_be_bytes([s[at], s[at + 1]])
}

// The number of the four bytes at `at`. Where two numbers differ, the first byte that differs decides which is less.
#[tactic(auto, unfolding(crate::specs::Numbers::be16_at, crate::specs::Numbers::be32_at))]
pub fn be32(s: &[u8], at: usize) -> u32
    requires { at + 4 ≤ length s.now }
    ensures { result ≡ be32_at s.now at }
{
    u32::from_be_bytes([s[at], s[at + 1], s[at + 2], s[at + 3]])
}

// `two_bytes_of` and `bytes_of` tie std's bytes to the formats' definitions once: a writer that called std would need the tie at each call.
// The last two bytes of a number, of which the formats have none above 65,535: a u16 would ask callers to cut theirs.
#[tactic(auto, unfolding(crate::specs::Numbers::be16))]
pub fn two_bytes_of(x: u32) -> [u8; 2]
    ensures { result ≡ be16 x }
{
    let [.., a, b] = x.to_be_bytes();
    [a, b]
}

// The four bytes of a number.
#[tactic(auto, unfolding(crate::specs::Numbers::be32))]
pub fn bytes_of(x: u32) -> [u8; 4]
    ensures { result ≡ be32 x }
{
    x.to_be_bytes()
}

// ---- strings of bytes compared: two of one kind, so a type for both would only name them again
// The little-endian number of four bytes, and that they are bytes. It is one load, and serves where only equality is asked. std has a method for each
// order of bytes, so one function with `be32` would only choose between the two.
#[tactic(auto, unfolding(crate::specs::Numbers::le32_at))]
fn le32(s: &[u8], at: usize) -> u32
    requires { at + 4 ≤ length s.now }
    ensures { (result ≡ le32_at s.now at) × Four s.now at }
{
    u32::from_le_bytes([s[at], s[at + 1], s[at + 2], s[at + 3]])
}

// Whether the four bytes at `at` make one number in both, and that they are bytes.
fn same_word(a: &[u8], b: &[u8], at: usize) -> bool
    requires { (at + 4 ≤ length a.now) × (at + 4 ≤ length b.now) }
    ensures { (result ≡ eqb (le32_at a.now at) (le32_at b.now at)) × Four a.now at × Four b.now at }
{
    le32(a, at) == le32(b, at)
}

// Document 02, Change 3: whether two strings of one length are the same, four bytes as one number, then the odd bytes, fewer than four. It goes from
// both ends, since automata share long beginnings or long ends; the last two words may overlap.
// That the lengths are equal is asked: a type of two such strings would be made by the one test in `same` for this one call.
#[tactic(auto, using(crate::proofs::Words::words_differ))]
fn same_by_words(a: &[u8], b: &[u8]) -> bool
    requires { length a.now ≡ length b.now }
    ensures { result ≡ same_bytes a.now b.now }
{
    let n = a.len();
    let words = (n + 4) / 8;
    for k in 0..words {
        if !same_word(a, b, 4 * k) || !same_word(a, b, n - 4 * k - 4) {
            return false;
        }
    }
    let i = 4 * words;
    let j = i.max(n - i);
    a[i..j] == b[i..j]
}

// Whether two strings of bytes are the same: their lengths, then their bytes. Inlined, a walk over records tests their lengths without a call.
#[inline]
#[tactic(auto, using(crate::proofs::Equality::differ_same))]
pub fn same(a: &[u8], b: &[u8]) -> bool
    ensures { result ≡ same_bytes a.now b.now }
{
    if a.len() != b.len() {
        return false;
    }
    same_by_words(a, b)
}

// Bytes, or numbers, put at a place of others.
#[tactic(auto, using(crate::proofs::Placed::part_placed))]
pub fn put<T: Copy>(to: &mut [T], at: usize, items: &[T])
    requires { at + length items.now ≤ length to.old }
    ensures { to.new ≡ placed at items.now to.old }
{
    to[at..at + items.len()].copy_from_slice(items);
}
