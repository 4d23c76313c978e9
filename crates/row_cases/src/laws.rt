//! Laws of the rows: no key and row spell two values, so what is written is read back unchanged.

ghost use Rattle.std.specs.Prelude.{ℕ, List, ◌≡◌};
ghost use Rattle.case_records.specs.declared.case.KeptCase.{KeptCase};
ghost use Rattle.row_cases.specs.Filings.{IsFilingRow, IsPlainCase, filing_row};
ghost use Rattle.row_cases.specs.Older.{IsUnrevised, older_filing_row, renewed_row};
ghost use Rattle.row_cases.specs.declared.filing.FilingRow.{FilingRow};

/// A row of the table `filing` spells one value.
pub fn one_filing_row()
    ensures { (key row : List ℕ) (a b : FilingRow) → IsFilingRow key row a → IsFilingRow key row b
        → a ≡ b }
{}

/// The row of a case from before there were revisions, as a row of today, is the row of the case.
pub fn renewed_rows()
    ensures { (c : KeptCase) → IsPlainCase c → IsUnrevised c
        → renewed_row (older_filing_row c) ≡ filing_row c }
{}
