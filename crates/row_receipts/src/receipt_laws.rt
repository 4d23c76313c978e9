//! Laws of the rows: no key and row spell two values, so what is written is read back unchanged.

ghost use Rattle.std.specs.Prelude.{ℕ, List, ◌≡◌};
ghost use Rattle.row_receipts.specs.Receipts.{IsReceiptRow};
ghost use Rattle.row_receipts.specs.declared.receipt.ReceiptRow.{ReceiptRow};

use crate::one_outcome;

/// A row of the table `receipt` spells one value.
pub fn one_receipt_row()
    ensures { (key row : List ℕ) (a b : ReceiptRow) → IsReceiptRow key row a
        → IsReceiptRow key row b → a ≡ b }
{
    one_outcome();
}
