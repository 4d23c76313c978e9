//! The rules without a surface: the notice rules 77.9(a) and 77.9(d), and the height of 77.17(a)(1).

ghost use Rattle.std.specs.Prelude.{◌≡◌, ◌++◌, List, OnOk, OnErr};
ghost use Rattle.oe_findings.specs.List.{on_airfield, rule_a as rule_a_of};
ghost use Rattle.oe_findings.specs.Screenings.{has_lone_entry as has_lone_entry_of};
ghost use Rattle.finding_lists.specs.declared.finding.Finding.{Finding as AFinding};

use airfield_findings::field_key;
use airfields::Filing;
use airport_register::Register;
use finding_lists::{Collector, Finding, Rule};
use grid_exact::NoMemory;
use height_rules::{excess_200, excess_499};
use notice_slopes::rule_d;

/// The rule of 77.9(a) for the structure; a traverse way has it under 77.9(c).
pub(crate) fn rule_a(filing: &Filing) -> Rule
    ensures { result ≡ rule_a_of filing.now }
{
    if filing.kind.is_traverse_way() {
        Rule::WayA
    } else {
        Rule::NoticeA
    }
}

/// Passes the entry of construction on an airfield (77.9(d)) to the collector.
pub(crate) fn put_on_airfield<C: Collector>(
    out: &mut C,
    register: &Register,
    filing: &Filing,
) -> Result<(), NoMemory>
    ensures taken { OnOk result ((list : List AFinding) → C.taken out.old list
        → C.taken out.new (list ++ on_airfield register.now filing.now)) }
    ensures fails { OnErr result C.fails }
{
    if !rule_d(register, filing) {
        return Ok(());
    }
    if let Some(field) = filing.on {
        out.take(Finding {
            rule: Rule::NoticeD,
            key: field_key(field, 0),
            excess: 0,
        })?;
    }
    Ok(())
}

/// Whether the structure has a finding of no surface: the height of 77.17(a)(1), or 77.9(a) or 77.9(d) where notice is due.
pub(crate) fn has_lone_entry(register: &Register, filing: &Filing, is_due: bool) -> bool
    ensures { result ≡ has_lone_entry_of register.now filing.now is_due }
{
    excess_499(filing).is_some()
        || is_due && (excess_200(filing).is_some() || rule_d(register, filing))
}
