//! Laws of desks opened from their rows.

ghost use Rattle.std.specs.Prelude.{◌≡◌, false};
ghost use Rattle.desk_tables.specs.Opening.{IsFirstBad, Opens, first_format, renewed, second_format};
ghost use Rattle.desk_tables.specs.Planned.{PlansNothing};
ghost use Rattle.desk_tables.specs.Rows.{AreRows, is_bare};
ghost use Rattle.desk_machine.specs.States.{State};
ghost use Rattle.oe_keeper.specs.Kept.{Kept, Key};
ghost use Rattle.desk_tables.specs.Reachable.{IsDesk};
ghost use Rattle.reopening_laws.specs.Older.{IsAged, RevisesNothing};

use desk_tables::{
    airport_comes, all_is_whole, heliport_comes, names_go_on, nothing_is_part, register_goes_on,
    runway_comes,
};
use row_cases::{one_filing_row, renewed_rows};
use row_receipts::one_receipt_row;
use row_register::{one_airfield_row, one_desk_row, one_runway_row};

/// The rows of a desk open as the same desk.
pub fn reopens()
    ensures { (s : State) (kept : Kept) → IsDesk s → AreRows s kept → Opens kept s }
{
    one_airfield_row();
    one_runway_row();
    one_desk_row();
    one_filing_row();
    one_receipt_row();
    register_goes_on();
    names_go_on();
    nothing_is_part();
    airport_comes();
    heliport_comes();
    runway_comes();
    all_is_whole();
}

/// The rows of a desk in which nothing was revised, as they are in the format from before there were revisions, open as the same desk; so do
/// those in the format from before there were planned approaches, where nothing is planned. In the format of today they are its rows.
pub fn older_reopens()
    ensures first { (s : State) (kept aged : Kept) → IsDesk s → AreRows s kept → is_bare s ≡ false
        → RevisesNothing s → IsAged first_format s kept aged → PlansNothing s → Opens aged s }
    ensures second { (s : State) (kept aged : Kept) → IsDesk s → AreRows s kept → is_bare s ≡ false
        → RevisesNothing s → IsAged second_format s kept aged → Opens aged s }
    ensures first_renewed { (s : State) (kept aged : Kept) → IsDesk s → AreRows s kept
        → is_bare s ≡ false → RevisesNothing s → IsAged first_format s kept aged
        → renewed aged ≡ kept }
    ensures second_renewed { (s : State) (kept aged : Kept) → IsDesk s → AreRows s kept
        → is_bare s ≡ false → RevisesNothing s → IsAged second_format s kept aged
        → renewed aged ≡ kept }
{
    one_airfield_row();
    one_runway_row();
    one_desk_row();
    one_filing_row();
    one_receipt_row();
    renewed_rows();
    register_goes_on();
    names_go_on();
    nothing_is_part();
    airport_comes();
    heliport_comes();
    runway_comes();
    all_is_whole();
}

/// Tables open as at most one desk.
pub fn opened_is_one()
    ensures { (s t : State) (kept : Kept) → Opens kept s → Opens kept t → s ≡ t }
{
    one_airfield_row();
    one_runway_row();
    one_desk_row();
    one_filing_row();
    one_receipt_row();
}

/// Tables that open as a desk have no bad row.
pub fn opened_is_sound()
    ensures { (s : State) (kept : Kept) (k : Key) → Opens kept s → IsFirstBad kept k → ⊥ }
{
    one_airfield_row();
    one_runway_row();
    one_desk_row();
    one_filing_row();
    one_receipt_row();
}
