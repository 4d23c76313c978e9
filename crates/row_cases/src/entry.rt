//! Reads the entries of lists of findings.

ghost use Rattle.std.specs.Prelude.{◌≡◌, ◌≢◌, ◌≤◌, ◌<◌, ◌^◌, ◌++◌, ◌∷◌, [], ℕ, List, Option, Some, IfSome, IfNone, codes};
ghost use Rattle.std.specs.Fmt.{decimal};
ghost use Rattle.airfields.specs.Names.{IsFieldId, IsRunwayName};
ghost use Rattle.finding_lists.specs.declared.finding.Rule.{Rule as SomeRule};
ghost use Rattle.finding_lists.specs.declared.finding.SurfaceKey.{SurfaceKey as SomeKey};
ghost use Rattle.finding_lists.specs.declared.finding.Finding.{Finding as SomeFinding};
ghost use Rattle.wire_values.specs.Words.{name_text};
ghost use Rattle.wire_replies.specs.Entries.{rule_word, entry_text};
ghost use Rattle.row_cases.specs.Entries.{IsEntry, IsField, IsStrip, IsLevel, IsPart, TellsKey, TellsEntry};
ghost use Rattle.row_cases.specs.declared.extent.Extent.TheVariants as extents;

use crate::extent::{Extent, extent_of};
use crate::number::number_within;
use airfields::{FieldId, RunwayName};
use finding_lists::{Finding, Rule, SurfaceKey};
use row_register::Parts;
use wire_values::FieldValue;

/// The greatest number of an end or side of a surface.
const LAST_PART: u64 = 2;

// Finds the rule with this word.
#[tactic(auto, using(crate::proofs::RuleFacts::one_rule, crate::proofs::RuleFacts::no_rule))]
fn rule_of(word: &[u8]) -> Option<Rule>
    ensures some { IfSome result (λ rule. word.now ≡ rule_word rule) }
    ensures none { IfNone result ((rule : SomeRule) → word.now ≢ rule_word rule) }
{
    match word {
        b"17a1" => Some(Rule::H499),
        b"17a2" => Some(Rule::Near),
        b"19a" => Some(Rule::Horizontal),
        b"19b" => Some(Rule::Conical),
        b"19c" => Some(Rule::Primary),
        b"19d" => Some(Rule::Approach),
        b"19e" => Some(Rule::Transition),
        b"23p" => Some(Rule::PadPrimary),
        b"23a" => Some(Rule::PadApproach),
        b"23t" => Some(Rule::PadTransition),
        b"9a" => Some(Rule::NoticeA),
        b"9b1" => Some(Rule::NoticeB1),
        b"9b2" => Some(Rule::NoticeB2),
        b"9b3" => Some(Rule::NoticeB3),
        b"9d" => Some(Rule::NoticeD),
        b"9c-a" => Some(Rule::WayA),
        b"9c-b1" => Some(Rule::WayB1),
        b"9c-b2" => Some(Rule::WayB2),
        b"9c-b3" => Some(Rule::WayB3),
        _ => None,
    }
}

// Parses the number of an end or side.
fn part_of(text: &[u8], least: u8) -> Option<u8>
    ensures some { IfSome result (λ part. text.now ≡ decimal part) }
    ensures within { IfSome result (λ part. IsPart least part) }
    ensures none { IfNone result ((part : ℕ) → IsPart least part → text.now ≢ decimal part) }
{
    match number_within(text, u64::from(least), LAST_PART) {
        Some(part) => Some(part as u8),
        None => None,
    }
}

// Parses the name of an airfield.

fn field_of(text: &[u8]) -> Option<FieldId>
    ensures some { IfSome result (λ id. text.now ≡ id) }
    ensures named { IfSome result (λ id. IsFieldId id) }
    ensures none { IfNone result ((field : Option (List ℕ)) → IsField field
        → text.now ≢ name_text field) }
{
    FieldValue::parse(text)
}

// Parses the name of a runway.

fn runway_of(text: &[u8]) -> Option<RunwayName>
    ensures some { IfSome result (λ name. text.now ≡ name) }
    ensures named { IfSome result (λ name. IsRunwayName name) }
    ensures none { IfNone result ((runway : Option (List ℕ)) → IsStrip runway
        → text.now ≢ name_text runway) }
{
    FieldValue::parse(text)
}

// A runway and its end or side.
#[derive(Clone, Copy)]
struct StripPart {
    runway: RunwayName,
    part: u8,
}

fn take_strip_part(parts: &mut Parts<'_>, least: u8) -> Option<StripPart>
    ensures took { IfSome result (λ s. parts.old ≡ s.runway ∷ decimal s.part ∷ []) }
    ensures good { IfSome result (λ s. IsRunwayName s.runway × IsPart least s.part) }
    ensures none { IfNone result ((runway : Option (List ℕ)) (part : ℕ) → IsStrip runway
        → IsPart least part → parts.old ≢ name_text runway ∷ decimal part ∷ []) }
{
    let runway = runway_of(parts.next()?)?;
    let part = part_of(parts.next()?, least)?;
    if !parts.is_done() {
        return None;
    }
    Some(StripPart { runway, part })
}

// Parses a runway and its end or side, joined by a dot.
fn strip_part_of(text: &[u8], least: u8) -> Option<StripPart>
    ensures some { IfSome result (λ s. text.now ≡ s.runway ++ codes "." ++ decimal s.part) }
    ensures good { IfSome result (λ s. IsRunwayName s.runway × IsPart least s.part) }
    ensures none { IfNone result ((runway : Option (List ℕ)) (part : ℕ) → IsStrip runway
        → IsPart least part
        → text.now ≢ name_text runway ++ codes "." ++ decimal part) }
{
    take_strip_part(&mut Parts::new(text, b'.'), least)
}

// The empty key.
fn nowhere(field: &[u8], surface: &[u8]) -> Option<SurfaceKey>
    ensures some { IfSome result (TellsKey extents.Nowhere field.now surface.now) }
    ensures none { IfNone result ((key : SomeKey)
        → TellsKey extents.Nowhere field.now surface.now key → ⊥) }
{
    if field != b"-".as_slice() || surface != b"-".as_slice() {
        return None;
    }
    Some(SurfaceKey {
        field: None,
        runway: None,
        part: 0,
    })
}

// A key of an airfield only.
fn whole(field: &[u8], surface: &[u8]) -> Option<SurfaceKey>
    ensures some { IfSome result (TellsKey extents.Whole field.now surface.now) }
    ensures none { IfNone result ((key : SomeKey)
        → TellsKey extents.Whole field.now surface.now key → ⊥) }
{
    let id = field_of(field)?;
    if surface != b"-".as_slice() {
        return None;
    }
    Some(SurfaceKey {
        field: Some(id),
        runway: None,
        part: 0,
    })
}

// A key of a runway.
fn strip(field: &[u8], surface: &[u8]) -> Option<SurfaceKey>
    ensures some { IfSome result (TellsKey extents.Strip field.now surface.now) }
    ensures none { IfNone result ((key : SomeKey)
        → TellsKey extents.Strip field.now surface.now key → ⊥) }
{
    let id = field_of(field)?;
    let runway = runway_of(surface)?;
    Some(SurfaceKey {
        field: Some(id),
        runway: Some(runway),
        part: 0,
    })
}

// A key of an end or side of a runway.
fn strip_part(least: u8, field: &[u8], surface: &[u8]) -> Option<SurfaceKey>
    ensures some { IfSome result (TellsKey (extents.StripPart least) field.now surface.now) }
    ensures none { IfNone result ((key : SomeKey)
        → TellsKey (extents.StripPart least) field.now surface.now key → ⊥) }
{
    let id = field_of(field)?;
    let place = strip_part_of(surface, least)?;
    Some(SurfaceKey {
        field: Some(id),
        runway: Some(place.runway),
        part: place.part,
    })
}

// A key of an end or side of a heliport.
fn pad_part(least: u8, field: &[u8], surface: &[u8]) -> Option<SurfaceKey>
    ensures some { IfSome result (TellsKey (extents.PadPart least) field.now surface.now) }
    ensures none { IfNone result ((key : SomeKey)
        → TellsKey (extents.PadPart least) field.now surface.now key → ⊥) }
{
    let id = field_of(field)?;
    let part = part_of(surface, least)?;
    Some(SurfaceKey {
        field: Some(id),
        runway: None,
        part,
    })
}

// The key spelled by two words.
fn key_of(extent: Extent, field: &[u8], surface: &[u8]) -> Option<SurfaceKey>
    ensures some { IfSome result (TellsKey extent field.now surface.now) }
    ensures none { IfNone result ((key : SomeKey) → TellsKey extent field.now surface.now key → ⊥) }
{
    match extent {
        Extent::Nowhere => nowhere(field, surface),
        Extent::Whole => whole(field, surface),
        Extent::Strip => strip(field, surface),
        Extent::StripPart(least) => strip_part(least, field, surface),
        Extent::PadPart(least) => pad_part(least, field, surface),
    }
}

// Parses the excess of a rule, in tenths of a foot.
fn excess_of(rule: Rule, text: &[u8]) -> Option<u32>
    ensures some { IfSome result (λ n. text.now ≡ decimal n) }
    ensures level { IfSome result (λ n. IsLevel rule n) }
    ensures none { IfNone result ((n : ℕ) → n < 2 ^ 32 → IsLevel rule n → text.now ≢ decimal n) }
{
    let most = match rule {
        Rule::NoticeD => 0,
        _ => u32::MAX,
    };
    match number_within(text, 0, u64::from(most)) {
        Some(excess) => Some(excess as u32),
        None => None,
    }
}

// The four words of an entry.
#[derive(Clone, Copy)]
struct Words<'a> {
    rule: &'a [u8],
    field: &'a [u8],
    surface: &'a [u8],
    excess: &'a [u8],
}

fn take_words<'a>(parts: &mut Parts<'a>) -> Option<Words<'a>>
    ensures took { IfSome result (λ w. parts.old
        ≡ w.rule.now ∷ w.field.now ∷ w.surface.now ∷ w.excess.now ∷ []) }
    ensures none { IfNone result ((a b c d : List ℕ) → parts.old ≢ a ∷ b ∷ c ∷ d ∷ []) }
{
    let rule = parts.next()?;
    let field = parts.next()?;
    let surface = parts.next()?;
    let excess = parts.next()?;
    if !parts.is_done() {
        return None;
    }
    Some(Words {
        rule,
        field,
        surface,
        excess,
    })
}

// The finding spelled by four words.
fn finding_of(words: Words<'_>) -> Option<Finding>
    ensures some { IfSome result
        (TellsEntry words.entry.rule.now words.entry.field.now words.entry.surface.now words.entry.excess.now) }
    ensures none { IfNone result ((f : SomeFinding)
        → TellsEntry words.entry.rule.now words.entry.field.now words.entry.surface.now words.entry.excess.now f → ⊥) }
{
    let rule = rule_of(words.rule)?;
    let key = key_of(extent_of(rule), words.field, words.surface)?;
    let excess = excess_of(rule, words.excess)?;
    Some(Finding { rule, key, excess })
}

/// Parses an entry as a finding.
pub(crate) fn entry(text: &[u8]) -> Option<Finding>
    ensures some { IfSome result (λ f. text.now ≡ entry_text f) }
    ensures whole { IfSome result IsEntry }
    ensures none { IfNone result ((f : SomeFinding) → IsEntry f → text.now ≢ entry_text f) }
{
    finding_of(take_words(&mut Parts::new(text, b' '))?)
}
