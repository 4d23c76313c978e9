//! Entries of a list of findings.

ghost use Rattle.std.specs.Prelude.{◌≡◌, ◌++◌, List, None, Some, OnOk, OnErr};
ghost use Rattle.airfield_findings.specs.Entries.{entries, field_key as field_key_of, runway_key as runway_key_of, no_key};
ghost use Rattle.finding_lists.specs.declared.finding.Finding.{Finding as AFinding};

use airfields::{FieldId, RunwayName};
use finding_lists::{Collector, Finding, Rule, SurfaceKey};
use grid_exact::NoMemory;

/// The key of a rule without an airfield.
pub fn no_field() -> SurfaceKey
    ensures { result ≡ no_key }
{
    SurfaceKey {
        field: None,
        runway: None,
        part: 0,
    }
}

/// The key of a surface of an airfield, with its end or side, or 0.
pub fn field_key(field: FieldId, part: u8) -> SurfaceKey
    ensures { result ≡ field_key_of field part }
{
    SurfaceKey {
        field: Some(field),
        runway: None,
        part,
    }
}

/// The key of a surface of a runway, with its end or side, or 0.
pub fn runway_key(field: FieldId, runway: RunwayName, part: u8) -> SurfaceKey
    ensures { result ≡ runway_key_of field runway part }
{
    SurfaceKey {
        field: Some(field),
        runway: Some(runway),
        part,
    }
}

/// Passes the entry of a rule to the collector, where the rule is exceeded.
#[inline(always)]
pub fn put_entry<C: Collector>(
    out: &mut C,
    rule: Rule,
    key: SurfaceKey,
    excess: Option<u32>,
) -> Result<(), NoMemory>
    ensures taken { OnOk result ((list : List AFinding) → C.taken out.old list
        → C.taken out.new (list ++ entries rule key excess)) }
    ensures fails { OnErr result C.fails }
{
    if let Some(excess) = excess {
        out.take(Finding { rule, key, excess })?;
    }
    Ok(())
}

/// Passes the entry of a surface of an airfield to the collector, where the surface is exceeded.
#[inline(always)]
pub fn put_on_field<C: Collector>(
    out: &mut C,
    rule: Rule,
    field: FieldId,
    part: u8,
    excess: Option<u32>,
) -> Result<(), NoMemory>
    ensures taken { OnOk result ((list : List AFinding) → C.taken out.old list
        → C.taken out.new (list ++ entries rule (field_key_of field part) excess)) }
    ensures fails { OnErr result C.fails }
{
    put_entry(out, rule, field_key(field, part), excess)
}

/// Passes the entry of a surface of a runway to the collector, where the surface is exceeded.
#[inline(always)]
pub fn put_on_runway<C: Collector>(
    out: &mut C,
    rule: Rule,
    field: FieldId,
    runway: RunwayName,
    part: u8,
    excess: Option<u32>,
) -> Result<(), NoMemory>
    ensures taken { OnOk result ((list : List AFinding) → C.taken out.old list
        → C.taken out.new (list ++ entries rule (runway_key_of field runway part) excess)) }
    ensures fails { OnErr result C.fails }
{
    put_entry(out, rule, runway_key(field, runway, part), excess)
}
