//! Lines that are split at their commas.

ghost use Rattle.std.specs.Prelude.{◌≡◌, All, true};
ghost use Rattle.record_fields.specs.Fields.{IsPlain};

use memchr::{memchr, memchr3};

/// Whether no byte of the line but a comma has a meaning in a record: there is no quote, no line end, and no first byte of a byte order
/// mark. These searches examine many bytes at once, and so cost less than one loop over the bytes.
#[tactic(auto, using(crate::proofs::PlainFacts::no_marks))]
pub(crate) fn is_plain(line: &[u8]) -> bool
    ensures { result ≡ true → All IsPlain line.now }
{
    memchr3(b'"', b'\r', 0xEF, line).is_none() && memchr(b'\n', line).is_none()
}
