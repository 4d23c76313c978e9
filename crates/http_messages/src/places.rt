//! The places that routes lead to, and the record for a request to each.

ghost use Rattle.std.specs.Prelude.{◌≡◌, ◌≢◌, ◌≤◌, ◌++◌, true, false, List, ℕ, IfOk, length, drop};
ghost use Rattle.http_messages.specs.Records.{IsRecord, IsWithoutEnd};
ghost use Rattle.http_messages.specs.Targets.{IsName, IsTarget, is_read, method_of};

use grid_exact::{Bytes, NoMemory};
use http::Method;
use std::alloc::Global;

/// The place that a target leads to.
#[derive(Clone, Copy, Debug, PartialEq, Eq)]
pub(crate) enum Place {
    /// `/record`: a record is posted.
    Record,
    /// `/review`: the marked cases.
    Review,
    /// `/case/{n}`: a case, by its number.
    Case,
    /// `/airfield/{id}`: an airfield, by its name.
    Airfield,
    /// `/report/{name}`: a report, by its name.
    Report,
}

/// Whether a text is one or more bytes other than a slash.
fn is_name(name: &[u8]) -> bool
    ensures yes { result ≡ true → IsName name.now }
    ensures no { result ≡ false → IsName name.now → ⊥ }
{
    if name.is_empty() {
        return false;
    }
    for byte in name {
        if *byte == b'/' {
            return false;
        }
    }
    true
}

/// Whether a target is the prefix followed by a name.
fn has_name(target: &[u8], prefix: &[u8]) -> bool
    ensures yes { result ≡ true → (name : List ℕ) × IsName name × (target.now
        ≡ prefix.now ++ name) }
    ensures no { result ≡ false → (name : List ℕ) → IsName name → target.now ≡ prefix.now ++ name
        → ⊥ }
{
    if target.len() < prefix.len() {
        return false;
    }
    let (front, name) = target.split_at(prefix.len());
    if front != prefix {
        return false;
    }
    is_name(name)
}

/// Whether a target leads to this place.
pub(crate) fn leads_to(target: &[u8], place: Place) -> bool
    ensures yes { result ≡ true → (name : List ℕ) × IsTarget place name target.now }
    ensures no { result ≡ false → (name : List ℕ) → IsTarget place name target.now → ⊥ }
{
    match place {
        Place::Record => target == b"/record".as_slice(),
        Place::Review => target == b"/review".as_slice(),
        Place::Case => has_name(target, b"/case/"),
        Place::Airfield => has_name(target, b"/airfield/"),
        Place::Report => has_name(target, b"/report/"),
    }
}

/// Whether the method of a place is GET; if not it is POST.
pub(crate) fn is_read(place: Place) -> bool
    ensures { result ≡ is_read place }
{
    match place {
        Place::Record => false,
        Place::Review => true,
        Place::Case => true,
        Place::Airfield => true,
        Place::Report => true,
    }
}

/// Whether a method is that of the place.
pub(crate) fn is_allowed(place: Place, method: &Method) -> bool
    ensures yes { result ≡ true → method.now ≡ method_of place }
    ensures no { result ≡ false → method.now ≢ method_of place }
{
    if is_read(place) {
        return method.as_str() == "GET";
    }
    method.as_str() == "POST"
}

/// A body without a line feed at its end, and without a carriage return before that.
#[tactic(auto, using(crate::proofs::EndFacts::with_both, crate::proofs::EndFacts::with_feed, crate::proofs::EndFacts::with_none))]
fn without_end(body: &[u8]) -> &[u8]
    ensures { IsWithoutEnd body.now result.now }
{
    match body.strip_suffix(b"\n") {
        Some(line) => match line.strip_suffix(b"\r") {
            Some(record) => record,
            None => line,
        },
        None => body,
    }
}

/// A word, and the name in a target after the prefix.
#[tactic(auto, using(crate::proofs::RouteFacts::name_is, crate::proofs::RouteFacts::prefix_fits))]
fn named(alloc: Global, word: &[u8], target: &[u8], prefix: &[u8]) -> Result<Bytes, NoMemory>
    requires { (name : List ℕ) × (target.now ≡ prefix.now ++ name) }
    ensures { IfOk result (λ bytes. (name : List ℕ) → target.now ≡ prefix.now ++ name
        → bytes ≡ word.now ++ name) }
{
    let (_, name) = target.split_at(prefix.len());
    let mut record = word.to_vec(alloc)?;
    record.extend_from_slice(name)?;
    Ok(Bytes::from_vec(record))
}

/// The record for a request to a place.
///
/// # Errors
///
/// `NoMemory` where memory was refused.
pub(crate) fn record_of(
    alloc: Global,
    place: Place,
    target: &[u8],
    body: &[u8],
) -> Result<Bytes, NoMemory>
    requires { (name : List ℕ) × IsTarget place name target.now }
    ensures { IfOk result (λ bytes. (name : List ℕ) → IsTarget place name target.now
        → IsRecord place name body.now bytes) }
{
    match place {
        Place::Record => Bytes::from_slice(alloc, without_end(body)),
        Place::Review => Bytes::from_slice(alloc, b"review"),
        Place::Case => named(alloc, b"case,", target, b"/case/"),
        Place::Airfield => named(alloc, b"airfield,", target, b"/airfield/"),
        Place::Report => named(alloc, b"report,", target, b"/report/"),
    }
}
