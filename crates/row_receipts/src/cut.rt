//! Splits rows at line feeds.

ghost use Rattle.std.specs.Prelude.{◌≡◌, ◌≢◌, ◌<◌, ◌+◌, ◌++◌, ◌∷◌, ℕ, List, length, take, drop, IfSome, IfNone};
ghost use Rattle.row_receipts.specs.Receipts.{IsLine};

use memchr::memchr;

/// The three lines of a row. The last may contain line feeds.
#[derive(Clone, Copy)]
pub(crate) struct Lines<'a> {
    pub(crate) number: &'a [u8],
    pub(crate) request: &'a [u8],
    pub(crate) outcome: &'a [u8],
}

// The first line of a text, and the rest after its line feed.
#[derive(Clone, Copy)]
struct Cut<'a> {
    line: &'a [u8],
    behind: &'a [u8],
}

// The index of the first line feed of a text.
#[tactic(auto, using(crate::proofs::CutFacts::no_feed, crate::proofs::CutFacts::feed_within, crate::proofs::CutFacts::feed_line, crate::proofs::CutFacts::feed_there))]
fn first_feed(text: &[u8]) -> Option<usize>
    ensures within { IfSome result (λ at. at < length text.now) }
    ensures there { IfSome result (λ at. text.now
        ≡ take at text.now ++ 10 ∷ drop (at + 1) text.now) }
    ensures line { IfSome result (λ at. IsLine (take at text.now)) }
    ensures none { IfNone result (IsLine text.now) }
{
    memchr(b'\n', text)
}

// Splits off the first line; `None` where no line feed ends it.
#[tactic(auto, using(crate::proofs::CutFacts::no_line))]
fn first_line(text: &[u8]) -> Option<Cut<'_>>
    ensures cut { IfSome result (λ c. text.now ≡ c.line.now ++ 10 ∷ c.behind.now) }
    ensures line { IfSome result (λ c. IsLine c.line.now) }
    ensures none { IfNone result ((line behind : List ℕ) → text.now ≢ line ++ 10 ∷ behind) }
{
    let at = first_feed(text)?;
    let (_, behind) = text.split_at(at + 1);
    Some(Cut {
        line: &text[..at],
        behind,
    })
}

/// Splits a row into its three lines.
pub(crate) fn lines_of(row: &[u8]) -> Option<Lines<'_>>
    ensures cut { IfSome result (λ l. row.now
        ≡ l.number.now ++ 10 ∷ (l.request.now ++ 10 ∷ l.outcome.now)) }
    ensures lines { IfSome result (λ l. IsLine l.number.now × IsLine l.request.now) }
    ensures none { IfNone result ((number told outcome : List ℕ) → IsLine number
        → row.now ≢ number ++ 10 ∷ (told ++ 10 ∷ outcome)) }
{
    let first = first_line(row)?;
    let second = first_line(first.behind)?;
    Some(Lines {
        number: first.line,
        request: second.line,
        outcome: second.behind,
    })
}
