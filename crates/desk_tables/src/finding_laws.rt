//! Laws of lists of findings.

ghost use Rattle.std.specs.Prelude.{List, All};
ghost use Rattle.airfields.specs.Sites.{Site};
ghost use Rattle.airfields.specs.declared.airfield.Airfield.{Airfield};
ghost use Rattle.airport_register.specs.Registers.{IsRegister};
ghost use Rattle.row_cases.specs.Entries.{IsList};
ghost use Rattle.oe_findings.specs.List.{findings_of};
ghost use Rattle.desk_tables.specs.Names.{IsNamed};
ghost use Rattle.wire_cursor.specs.Groups.{IsValidSite};

/// A row can spell every entry of a structure's list of findings: each names an airfield and a runway where its rule has them,
/// and its excess is under 2^32 tenths of a foot.
#[tactic(auto, using(crate::proofs::Findings::findings_told))]
pub fn findings_are_told()
    ensures { (register : List Airfield) (site : Site) → IsRegister register → All IsNamed register
        → IsValidSite site → IsList (findings_of register site) }
{}
