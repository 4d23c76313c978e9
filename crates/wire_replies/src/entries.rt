//! The texts of findings.

ghost use Rattle.std.specs.Prelude.{◌≡◌, ◌+◌, ◌≤◌, ◌++◌, length, OnOk, OnErr, codes, string_bytes};
ghost use Rattle.std.specs.Fmt.{decimal};
ghost use Rattle.grid_exact.specs.Texts.{Extends};
ghost use Rattle.wire_values.specs.Words.{name_text};
ghost use Rattle.wire_replies.specs.Entries as spec;
ghost use Rattle.wire_replies.specs.Pages.{IsPiece};
ghost use Rattle.wire_replies.specs.declared.page.TheConstants.{ROOM, SIZE};

use crate::page::Page;
use airfields::RunwayName;
use finding_lists::{Finding, Rule, SurfaceKey};
use grid_exact::NoMemory;

// A comma, the word of each rule and a space, in the order of the rules, padded to eight bytes.
static WORDS: [[u8; 8]; 19] = [
    *b",17a1 \0\0",
    *b",17a2 \0\0",
    *b",19a \0\0\0",
    *b",19b \0\0\0",
    *b",19c \0\0\0",
    *b",19d \0\0\0",
    *b",19e \0\0\0",
    *b",23p \0\0\0",
    *b",23a \0\0\0",
    *b",23t \0\0\0",
    *b",9a \0\0\0\0",
    *b",9b1 \0\0\0",
    *b",9b2 \0\0\0",
    *b",9b3 \0\0\0",
    *b",9d \0\0\0\0",
    *b",9c-a \0\0",
    *b",9c-b1 \0",
    *b",9c-b2 \0",
    *b",9c-b3 \0",
];

// The length of each of them, without the padding.
static LENGTHS: [u8; 19] = [6, 6, 5, 5, 5, 5, 5, 5, 5, 5, 4, 5, 5, 5, 4, 6, 7, 7, 7];

// A comma, the word of a rule and a space, padded to eight bytes, and their length. Read from tables, since a branch for each
// rule is often mispredicted.
#[inline(always)]
fn rule_head(rule: Rule) -> ([u8; 8], usize)
    ensures { IsPiece result.0 result.1 (codes "," ++ spec.rule_word rule ++ codes " ") }
{
    let at = rule as usize;
    (WORDS[at], usize::from(LENGTHS[at]))
}

// Puts the airfield of an entry.
#[inline(always)]
fn put_airfield(page: &mut Page, rule: Rule, key: &SurfaceKey)
    requires room { length page.old + 8 ≤ SIZE }
    ensures put { page.new ≡ page.old ++ spec.airfield_text rule key.now }
    ensures few { length page.new ≤ length page.old + 8 }
{
    match rule {
        Rule::H499 | Rule::NoticeA | Rule::WayA => page.put_byte(b'-'),
        _ => match &key.field {
            Some(name) => page.put_field(name),
            None => page.put_byte(b'-'),
        },
    }
}

// Puts the name of a runway, or a dash.
#[inline(always)]
fn put_runway(page: &mut Page, runway: &Option<RunwayName>)
    requires room { length page.old + 8 ≤ SIZE }
    ensures put { page.new ≡ page.old ++ name_text runway.now }
    ensures few { length page.new ≤ length page.old + 8 }
{
    match runway {
        Some(name) => page.put_runway(name),
        None => page.put_byte(b'-'),
    }
}

// Puts the runway of a key, with a space before and after it.
fn put_spaced_runway(page: &mut Page, key: &SurfaceKey)
    requires room { length page.old + 64 ≤ SIZE }
    ensures put { page.new ≡ page.old ++ (codes " " ++ name_text key.now.runway ++ codes " ") }
    ensures few { length page.new ≤ length page.old + 64 }
{
    page.put_byte(b' ');
    put_runway(page, &key.runway);
    page.put_byte(b' ');
}

// Puts the runway of a key and its end or side, joined by a dot, with a space before and after them.
fn put_spaced_runway_part(page: &mut Page, key: &SurfaceKey)
    requires room { length page.old + 64 ≤ SIZE }
    ensures put { page.new ≡ page.old ++ (codes " " ++ spec.runway_part_text key.now ++ codes " ") }
    ensures few { length page.new ≤ length page.old + 64 }
{
    page.put_byte(b' ');
    put_runway(page, &key.runway);
    page.put_byte(b'.');
    page.put_number(u64::from(key.part));
    page.put_byte(b' ');
}

// Puts the end or side of a key, with a space before and after it.
fn put_spaced_part(page: &mut Page, key: &SurfaceKey)
    requires room { length page.old + 64 ≤ SIZE }
    ensures put { page.new ≡ page.old ++ (codes " " ++ decimal key.now.part ++ codes " ") }
    ensures few { length page.new ≤ length page.old + 64 }
{
    page.put_byte(b' ');
    page.put_number(u64::from(key.part));
    page.put_byte(b' ');
}

// Puts the dash of an entry without a surface, with a space before and after it.
#[inline(always)]
fn put_spaced_dash(page: &mut Page)
    requires room { length page.old + 8 ≤ SIZE }
    ensures put { page.new ≡ page.old ++ codes " - " }
    ensures few { length page.new ≤ length page.old + 8 }
{
    page.put_piece(*b" - \0\0\0\0\0", 3);
}

// Puts the surface of an entry, with a space before and after it. Most have none; then the dash and its spaces are put as one piece.
#[inline(always)]
fn put_surface(page: &mut Page, rule: Rule, key: &SurfaceKey)
    requires room { length page.old + 64 ≤ SIZE }
    ensures put { page.new ≡ page.old ++
        (codes " " ++ spec.surface_text rule key.now ++ codes " ") }
    ensures few { length page.new ≤ length page.old + 64 }
{
    match rule {
        Rule::Primary | Rule::NoticeB1 | Rule::NoticeB2 | Rule::WayB1 | Rule::WayB2 => {
            put_spaced_runway(page, key);
        }
        Rule::Approach | Rule::Transition => put_spaced_runway_part(page, key),
        Rule::PadApproach | Rule::PadTransition => put_spaced_part(page, key),
        _ => put_spaced_dash(page),
    }
}

// Puts a comma and an entry.
#[inline(always)]
fn put_entry(page: &mut Page, finding: &Finding)
    requires room { length page.old + ROOM ≤ SIZE }
    ensures put { page.new ≡ page.old ++ (codes "," ++ spec.entry_text finding.now) }
{
    let (word, len) = rule_head(finding.rule);
    page.put_piece(word, len);
    put_airfield(page, finding.rule, &finding.key);
    put_surface(page, finding.rule, &finding.key);
    page.put_number(u64::from(finding.excess));
}

// Puts a comma and the number of entries of a list.
#[inline(always)]
fn put_count(page: &mut Page, count: u64)
    requires room { length page.old + ROOM ≤ SIZE }
    ensures put { page.new ≡ page.old ++ (codes "," ++ decimal count) }
{
    page.put_byte(b',');
    page.put_number(count);
}

/// Appends a list: the number of entries, and the entries, a comma before each.
///
/// # Errors
///
/// `NoMemory` where memory was refused; the text may then have a part of the list.
#[tactic(auto, using(grid_exact::proofs::Extending::extending))]
pub fn append_list(text: &mut String, list: &[Finding]) -> Result<(), NoMemory>
    ensures ok { OnOk result (string_bytes text.new
        ≡ string_bytes text.old ++ spec.list_text list.now) }
    ensures part { OnErr result (Extends (string_bytes text.old) (string_bytes text.new)) }
{
    let mut page = Page::new();
    put_count(&mut page, list.len() as u64);
    for finding in list {
        page.make_room(text)?;
        put_entry(&mut page, finding);
    }
    page.flush(text)
}

/// Appends a comma and an entry of a list.
///
/// # Errors
///
/// `NoMemory` where memory was refused; the text may then have a part of both.
pub fn append_entry(text: &mut String, finding: &Finding) -> Result<(), NoMemory>
    ensures ok { OnOk result (string_bytes text.new
        ≡ string_bytes text.old ++ (codes "," ++ spec.entry_text finding.now)) }
    ensures part { OnErr result (Extends (string_bytes text.old) (string_bytes text.new)) }
{
    let mut page = Page::new();
    put_entry(&mut page, finding);
    page.flush(text)
}
