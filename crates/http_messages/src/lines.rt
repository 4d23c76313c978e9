//! Finds the ends of a head's lines, and tests whether a request's bytes end inside its target.

ghost use Rattle.std.specs.Prelude.{◌≡◌, ◌≢◌, ◌<◌, ◌+◌, ◌-◌, ℕ, List, Some, IfSome, IfNone, true, false, ◌∷◌, ◌++◌, length, slice_index};
ghost use Rattle.httparse.specs.Grammar.{RequestHead, IsRequestHead, EndsInTarget, IsToken, AllPass, is_uri_byte, is_token_byte};
ghost use Rattle.httparse.specs.Pieces.{is_newline};
ghost use Rattle.http_messages.specs.Feeds.{IsFirstVisible, IsFirstOther, IsBehind, HasWholeEnds, IsOpenTarget, feeds_before};
ghost use Rattle.http_messages.specs.Heads.{open_head};

use crate::decision::MOST_FIELDS;
use httparse::{is_method_token, is_uri_token};

/// The number of line ends up to the end of the last field of a head with [`MOST_FIELDS`] fields.
const LINES: usize = MOST_FIELDS + 1;

/// Whether a byte is CR or LF.
fn is_newline(byte: u8) -> bool
    ensures { result ≡ is_newline byte }
{
    byte == b'\r' || byte == b'\n'
}

/// The index of the first byte after any empty lines.
fn first_visible(bytes: &[u8]) -> Option<usize>
    ensures first { IfSome result (λ at. IsFirstVisible bytes.now at) }
    ensures none { IfNone result ((k : ℕ) → k < length bytes.now
        → is_newline (slice_index bytes.now k) ≡ true) }
{
    for at in 0..bytes.len() {
        if !is_newline(bytes[at]) {
            return Some(at);
        }
    }
    None
}

/// The index after [`LINES`] lines, if a byte is there.
fn behind_lines(bytes: &[u8]) -> Option<usize>
    ensures some { IfSome result (λ at. IsBehind bytes.now at) }
    ensures none { IfNone result ((k : ℕ) → k < length bytes.now
        → feeds_before bytes.now k ≢ LINES) }
{
    let mut feeds = 0;
    for at in 0..bytes.len() {
        if feeds == LINES {
            return Some(at);
        }
        if bytes[at] == b'\n' {
            feeds += 1;
        }
    }
    None
}

/// The index after the start line and [`MOST_FIELDS`] lines of fields, if a byte is there.
pub(crate) fn behind_fields(bytes: &[u8]) -> Option<usize>
    ensures within { IfSome result (λ at. at < length bytes.now) }
    ensures some { IfSome result (λ at. 0 < at) }
    ensures feed { IfSome result (λ at. slice_index bytes.now (at - 1) ≡ 10) }
    ensures found { (h : RequestHead) (b : ℕ) (rest : List ℕ) → IsRequestHead h
        → length h.fields ≡ MOST_FIELDS → bytes.now ≡ open_head h ++ b ∷ rest
        → result ≡ Some (length (open_head h)) }
{
    match first_visible(bytes) {
        Some(start) => {
            let (_, lines) = bytes.split_at(start);
            match behind_lines(lines) {
                Some(at) => Some(start + at),
                None => None,
            }
        }
        None => None,
    }
}

/// The index of the first byte that cannot stand in a method.
fn first_other(text: &[u8]) -> Option<usize>
    ensures first { IfSome result (λ at. IsFirstOther is_token_byte text.now at) }
    ensures none { IfNone result ((k : ℕ) → k < length text.now
        → is_token_byte (slice_index text.now k) ≡ true) }
{
    for at in 0..text.len() {
        if !is_method_token(text[at]) {
            return Some(at);
        }
    }
    None
}

/// Whether each byte may stand in a target.
fn is_all_uri(text: &[u8]) -> bool
    ensures yes { result ≡ true → (k : ℕ) → k < length text.now
        → is_uri_byte (slice_index text.now k) ≡ true }
    ensures no { result ≡ false → AllPass is_uri_byte text.now → ⊥ }
{
    for byte in text {
        if !is_uri_token(*byte) {
            return false;
        }
    }
    true
}

/// Whether the text is a method, a space and the beginning of a target.
fn is_open_target(text: &[u8]) -> bool
    ensures yes { result ≡ true → IsOpenTarget text.now }
    ensures no { result ≡ false → IsOpenTarget text.now → ⊥ }
{
    match first_other(text) {
        Some(at) => {
            if at == 0 {
                return false;
            }
            if text[at] != b' ' {
                return false;
            }
            let (_, target) = text.split_at(at + 1);
            is_all_uri(target)
        }
        None => false,
    }
}

/// Whether each carriage return before an index is followed by a line feed.
fn has_whole_ends(bytes: &[u8], start: usize) -> bool
    requires { start < length bytes.now }
    ensures yes { result ≡ true → HasWholeEnds bytes.now start }
    ensures no { result ≡ false → HasWholeEnds bytes.now start → ⊥ }
{
    for at in 0..start {
        if bytes[at] == b'\r' {
            if bytes[at + 1] != b'\n' {
                return false;
            }
        }
    }
    true
}

/// Whether the bytes end inside the target.
pub(crate) fn ends_in_target(bytes: &[u8]) -> bool
    ensures yes { result ≡ true → EndsInTarget bytes.now }
    ensures no { result ≡ false → EndsInTarget bytes.now → ⊥ }
{
    match first_visible(bytes) {
        Some(start) => {
            if !has_whole_ends(bytes, start) {
                return false;
            }
            let (_, text) = bytes.split_at(start);
            is_open_target(text)
        }
        None => false,
    }
}
