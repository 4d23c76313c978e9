//! The approaches of a runway end as a value of a field.

ghost use Rattle.std.specs.Prelude.{◌≡◌, ◌≢◌, ◌++◌, ℕ, List, Option, IfSome, IfNone, OnOk, OnErr, string_bytes, codes, refl};
ghost use Rattle.grid_exact.specs.Texts.{Extends};
ghost use Rattle.runway_classes.specs.declared.ApproachKind.{ApproachKind as SomeKind};
ghost use Rattle.wire_values.specs.Words.{approach_word, planned_text, approaches_text};
ghost use Rattle.wire_values.specs.Wanted.{ApproachesWanted};

use crate::field_value::{FieldValue, append_text};
use grid_exact::NoMemory;
use runway_classes::ApproachKind;

/// The approaches of a runway end (77.19): `V`, or `V/P` where `P` is planned.
#[derive(Clone, Copy, Debug, PartialEq, Eq)]
pub struct Approaches {
    /// The kind that the end has.
    pub kind: ApproachKind,
    /// The kind that is planned, if there is one.
    pub planned: Option<ApproachKind>,
}

fn text_of_kind(kind: ApproachKind) -> &'static str
    ensures { result.now ≡ approach_word kind }
{
    match kind {
        ApproachKind::Visual => "V",
        ApproachKind::NonprecisionAbove => "NA",
        ApproachKind::NonprecisionLow => "NL",
        ApproachKind::Precision => "P",
    }
}

// The kind that a word names.
#[tactic(auto, using(crate::proofs::WordFacts::no_approach))]
fn kind_of(word: &[u8]) -> Option<ApproachKind>
    ensures some { IfSome result (λ k. word.now ≡ approach_word k) }
    ensures none { IfNone result ((k : SomeKind) → word.now ≢ approach_word k) }
{
    match word {
        b"V" => Some(ApproachKind::Visual),
        b"NA" => Some(ApproachKind::NonprecisionAbove),
        b"NL" => Some(ApproachKind::NonprecisionLow),
        b"P" => Some(ApproachKind::Precision),
        _ => None,
    }
}

// The kind that stands behind a stroke.
fn kind_behind_stroke(text: &[u8]) -> Option<ApproachKind>
    ensures some { IfSome result (λ k. text.now ≡ codes "/" ++ approach_word k) }
    ensures none { IfNone result ((k : SomeKind) → text.now ≢ codes "/" ++ approach_word k) }
{
    match text.strip_prefix(b"/".as_slice()) {
        Some(word) => kind_of(word),
        None => None,
    }
}

// The planned kind, by what stands behind the kind that the end has.
#[tactic(auto, using(crate::proofs::ApproachFacts::no_planned))]
fn planned_kind(text: &[u8]) -> Option<Option<ApproachKind>>
    ensures some { IfSome result (λ p. text.now ≡ planned_text p) }
    ensures none { IfNone result ((p : Option SomeKind) → text.now ≢ planned_text p) }
{
    if text.is_empty() {
        return Some(None);
    }
    match kind_behind_stroke(text) {
        Some(kind) => Some(Some(kind)),
        None => None,
    }
}

// What stands behind the word of a kind that the text begins with.
fn rest_behind(text: &[u8], kind: ApproachKind) -> Option<&[u8]>
    ensures some { IfSome result (λ rest. text.now ≡ approach_word kind ++ rest.now) }
    ensures none { IfNone result ((rest : List ℕ) → text.now ≢ approach_word kind ++ rest) }
{
    text.strip_prefix(text_of_kind(kind).as_bytes())
}

// The approaches of a text that begins with this kind; `None` where it begins otherwise, or what stands behind plans nothing.
#[tactic(auto, using(crate::proofs::ApproachFacts::not_behind))]
fn approaches_from(text: &[u8], kind: ApproachKind) -> Option<Approaches>
    ensures some { IfSome result (λ v. text.now ≡ approaches_text v.kind v.planned) }
    ensures none { IfNone result ((p : Option SomeKind) → text.now ≢ approaches_text kind p) }
{
    let rest = rest_behind(text, kind)?;
    let planned = planned_kind(rest)?;
    Some(Approaches { kind, planned })
}

impl FieldValue for Approaches {
    ghost wanted = { ApproachesWanted };

    ghost spelled = { λ v. approaches_text v.kind v.planned };

    ghost good = { λ _. Unit {0} };

    #[tactic(auto, using(crate::proofs::ApproachFacts::no_approaches))]
    fn parse(text: &[u8]) -> Option<Approaches> {
        if let Some(read) = approaches_from(text, ApproachKind::Visual) {
            return Some(read);
        }
        if let Some(read) = approaches_from(text, ApproachKind::NonprecisionAbove) {
            return Some(read);
        }
        if let Some(read) = approaches_from(text, ApproachKind::NonprecisionLow) {
            return Some(read);
        }
        if let Some(read) = approaches_from(text, ApproachKind::Precision) {
            return Some(read);
        }
        None
    }

    #[tactic(auto, using(grid_exact::proofs::Extending::extending))]
    fn append(&self, text: &mut String) -> Result<(), NoMemory> {
        append_text(text, text_of_kind(self.kind))?;
        append_planned(text, self.planned)
    }

    ghost fits = { λ v _ _. (v.kind, v.planned, refl) };
}

// Appends a stroke and the planned kind, where there is one.
#[tactic(auto, using(grid_exact::proofs::Extending::extending))]
fn append_planned(text: &mut String, planned: Option<ApproachKind>) -> Result<(), NoMemory>
    ensures ok { OnOk result (string_bytes text.new
        ≡ string_bytes text.old ++ planned_text planned) }
    ensures part { OnErr result (Extends (string_bytes text.old) (string_bytes text.new)) }
{
    match planned {
        Some(kind) => {
            append_text(text, "/")?;
            append_text(text, text_of_kind(kind))
        }
        None => Ok(()),
    }
}
