// The comparison of byte strings for programs that are not Rattle: bench/ and tests/.
#![tactic(auto)]

ghost use Rattle.std.specs.Prelude.{◌≡◌};
ghost use Rattle.encoding.specs.Bytes.{same_bytes};

use encoding::same;

// Whether two strings of bytes are the same.
#[unsafe(no_mangle)]
pub extern "C" fn encoding_same(a: &[u8], b: &[u8]) -> bool
    ensures { result ≡ same_bytes a.now b.now }
{
    same(a, b)
}
