//! Decides on the head of a request while its bytes arrive.

ghost use Rattle.std.specs.Prelude.{◌≡◌, ◌≤◌, ◌<◌, ℕ, List, true, false, length, ◌++◌, take, ◌∷◌, []};
ghost use Rattle.http_messages.specs.Heads.{Decides, Refuses, IsCrowded, IsHead};
ghost use Rattle.httparse.specs.Grammar.{RequestHead, ReadsRequest, print_request};

use crate::lines::{behind_fields, ends_in_target};
use httparse::spans::{EMPTY_HEADER_SPAN, HeaderSpan, RequestSpans, parse_request};
use httparse::{Error, Status};

/// Most header fields accepted.
pub const MOST_FIELDS: usize = 64;

/// The greatest size of a head in bytes, with its final empty line.
pub const HEAD_LIMIT: usize = 16_384;

/// The decision on the bytes of a head so far.
#[derive(Clone, Copy, Debug, PartialEq, Eq)]
pub enum Decision {
    /// The bytes begin with a whole head. The spans give the positions of its parts and its size in bytes.
    Whole(RequestSpans),
    /// More bytes are needed.
    Wanting,
    /// The head has more than [`MOST_FIELDS`] fields or [`HEAD_LIMIT`] bytes: refused with 431.
    TooLarge,
    /// The bytes can no longer become a head: refused with 400.
    Malformed,
}

/// Whether the bytes are a whole head with [`MOST_FIELDS`] fields.
fn is_full_head(bytes: &[u8]) -> bool
    ensures yes { result ≡ true → (h : RequestHead) × IsHead bytes.now h × (length h.fields
        ≡ MOST_FIELDS) }
    ensures no { result ≡ false → (h : RequestHead) → IsHead bytes.now h
        → length h.fields ≡ MOST_FIELDS → ⊥ }
{
    let mut headers = [EMPTY_HEADER_SPAN; MOST_FIELDS];
    match parse_request(bytes, &mut headers) {
        Ok(Status::Complete(head)) => head.len == bytes.len() && head.headers == MOST_FIELDS,
        _ => false,
    }
}

/// Whether the bytes up to `at` are a head if the byte there is replaced by a line feed. The byte is restored.
fn closes_at(bytes: &mut [u8], at: usize) -> bool
    requires { at < length bytes.old }
    ensures same { bytes.new ≡ bytes.old }
    ensures yes { result ≡ true → (h : RequestHead) × IsHead (take at bytes.old ++ 10 ∷ []) h ×
        (length h.fields ≡ MOST_FIELDS) }
    ensures no { result ≡ false → (h : RequestHead) → IsHead (take at bytes.old ++ 10 ∷ []) h
        → length h.fields ≡ MOST_FIELDS → ⊥ }
{
    let byte = bytes[at];
    bytes[at] = b'\n';
    let is_full = is_full_head(&bytes[..at + 1]);
    bytes[at] = byte;
    is_full
}

/// Whether the bytes begin with [`MOST_FIELDS`] fields and the first byte of a further one. The bytes are restored.
fn is_crowded(bytes: &mut [u8]) -> bool
    ensures same { bytes.new ≡ bytes.old }
    ensures yes { result ≡ true → (q r : List ℕ) × (bytes.old ≡ q ++ r) × IsCrowded q }
    ensures no { result ≡ false → (q r : List ℕ) → bytes.old ≡ q ++ r → IsCrowded q → ⊥ }
{
    match behind_fields(bytes) {
        Some(at) => {
            if bytes[at] == b'\r' {
                return false;
            }
            if bytes[at] == b'\n' {
                return false;
            }
            closes_at(bytes, at)
        }
        None => false,
    }
}

/// Decides on fewer bytes than [`HEAD_LIMIT`].
fn judge(bytes: &mut [u8], headers: &mut [HeaderSpan; MOST_FIELDS]) -> Decision
    requires short { length bytes.old < HEAD_LIMIT }
    ensures same { bytes.new ≡ bytes.old }
    ensures decides { Decides bytes.old headers.new result }
{
    match parse_request(bytes, headers) {
        Ok(Status::Complete(head)) => Decision::Whole(head),
        Ok(Status::Partial) => {
            if is_crowded(bytes) {
                return Decision::TooLarge;
            }
            Decision::Wanting
        }
        Err(error) => match error {
            Error::TooManyHeaders => Decision::TooLarge,
            _ => {
                if is_crowded(bytes) {
                    return Decision::TooLarge;
                }
                if ends_in_target(bytes) {
                    return Decision::Wanting;
                }
                Decision::Malformed
            }
        },
    }
}

/// Decides on [`HEAD_LIMIT`] or more bytes that do not begin with a head within the limits.
fn judge_long(bytes: &mut [u8]) -> Decision
    requires long { HEAD_LIMIT ≤ length bytes.old }
    requires none { (h : RequestHead) (rest : List ℕ) → ReadsRequest bytes.old h rest
        → length h.fields ≤ MOST_FIELDS → length (print_request h) ≤ HEAD_LIMIT → ⊥ }
    ensures same { bytes.new ≡ bytes.old }
    ensures refused { Refuses bytes.old result }
{
    let mut headers = [EMPTY_HEADER_SPAN; MOST_FIELDS];
    let (front, _) = bytes.split_at_mut(HEAD_LIMIT - 1);
    match judge(front, &mut headers) {
        Decision::Malformed => Decision::Malformed,
        Decision::TooLarge => Decision::TooLarge,
        Decision::Wanting => Decision::TooLarge,
        Decision::Whole(_) => Decision::TooLarge,
    }
}

/// Decides on all bytes since the request began. The bytes are unchanged afterwards. Where they begin with a whole head,
/// `headers` gets the positions of its fields.
pub fn decide(bytes: &mut [u8], headers: &mut [HeaderSpan; MOST_FIELDS]) -> Decision
    ensures same { bytes.new ≡ bytes.old }
    ensures decides { Decides bytes.old headers.new result }
{
    if bytes.len() < HEAD_LIMIT {
        return judge(bytes, headers);
    }
    if let Ok(Status::Complete(head)) = parse_request(bytes, headers) {
        if head.len <= HEAD_LIMIT {
            return Decision::Whole(head);
        }
    }
    judge_long(bytes)
}
