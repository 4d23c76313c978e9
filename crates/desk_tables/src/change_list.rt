//! A list of row changes.

ghost use Rattle.std.specs.Prelude.{◌≡◌, ◌++◌, ◌∷◌, [], OnOk, string_bytes};
ghost use Rattle.determination_dates.specs.Closed.{is_none_of};
ghost use Rattle.oe_keeper.specs.Kept.{place};
ghost use Rattle.oe_keeper.specs.declared.change.Table.TheVariants as tables;
ghost use Rattle.oe_keeper.specs.declared.change.RowChange.TheVariants.{Put, Remove};
ghost use Rattle.row_register.specs.Runways.{runway_key_text};
ghost use Rattle.desk_tables.specs.Changes.{put_airfield, put_runway_row, put_desk, put_filing, put_receipt, remove_runway};
ghost use Rattle.desk_tables.specs.Opening.{renewed_filing};

use airfields::{Airfield, FieldId, Runway, RunwayName};
use case_records::KeptCase;
use desk_machine::Entry;
use grid_exact::{NoMemory, Text};
use oe_keeper::{RowChange, Table};
use row_cases::{append_filing_key, append_filing_row, append_renewed_row};
use row_receipts::{append_receipt_key, append_receipt_row};
use row_register::{
    DeskRow, RunwayRow, append_airfield_key, append_airfield_row, append_desk_key, append_desk_row,
    append_runway_key, append_runway_row,
};
use std::alloc::Global;
use std::marker::Model;
use wire_values::{FieldValue, append_text};

/// Row changes, in the order in which they are made.
#[derive(Drop)]
pub struct ChangeList {
    changes: Vec<RowChange>,
}

impl Model for ChangeList {
    ghost use Rattle.std.specs.Prelude.{List};
    ghost use Rattle.oe_keeper.specs.declared.change.RowChange.{RowChange as Seen};

    ghost Value = { List Seen };

    ghost view = { λ l. l.changes.items };
}

impl ChangeList {
    /// No changes. It allocates nothing.
    pub fn new(alloc: Global) -> ChangeList
        ensures { result ≡ [] }
    {
        ChangeList {
            changes: Vec::new(alloc),
        }
    }

    /// The changes in their order.
    pub fn as_slice(&self) -> &[RowChange]
        ensures { result.now ≡ self.now }
    {
        self.changes.as_slice()
    }

    /// Whether there is no change.
    pub fn is_empty(&self) -> bool
        ensures { result ≡ is_none_of self.now }
    {
        self.changes.is_empty()
    }

    /// Stores a row under a key.
    fn put(&mut self, table: Table, key: String, row: String) -> Result<(), NoMemory>
        ensures { OnOk result (self.new ≡ self.old ++ Put table (string_bytes key)
            (string_bytes row) ∷ []) }
    {
        self.changes.push(RowChange::Put {
            table,
            key: Text::from_string(key),
            row: Text::from_string(row),
        })?;
        Ok(())
    }

    /// Deletes the row under a key.
    fn remove(&mut self, table: Table, key: String) -> Result<(), NoMemory>
        ensures { OnOk result (self.new ≡ self.old ++ Remove table (string_bytes key) ∷ []) }
    {
        self.changes.push(RowChange::Remove {
            table,
            key: Text::from_string(key),
        })?;
        Ok(())
    }

    /// Stores the row of an airfield; an airport's runways have their own rows.
    ///
    /// # Errors
    ///
    /// `NoMemory` where memory was refused.
    pub fn put_airfield(&mut self, alloc: Global, airfield: &Airfield) -> Result<(), NoMemory>
        ensures { OnOk result (self.new ≡ self.old ++ put_airfield airfield.now ∷ []) }
    {
        let mut key = String::new(alloc);
        append_airfield_key(&mut key, airfield)?;
        let mut row = String::new(alloc);
        append_airfield_row(&mut row, airfield)?;
        self.put(Table::Airfield, key, row)
    }

    /// Deletes the row of an airfield.
    ///
    /// # Errors
    ///
    /// `NoMemory` where memory was refused.
    pub fn remove_airfield(&mut self, alloc: Global, id: &FieldId) -> Result<(), NoMemory>
        ensures { OnOk result (self.new ≡ self.old ++ Remove tables.Airfield id.now ∷ []) }
    {
        let mut key = String::new(alloc);
        id.append(&mut key)?;
        self.remove(Table::Airfield, key)
    }

    /// Stores the row of a runway of the airport.
    ///
    /// # Errors
    ///
    /// `NoMemory` where memory was refused.
    pub fn put_runway(
        &mut self,
        alloc: Global,
        id: &FieldId,
        runway: &Runway,
    ) -> Result<(), NoMemory>
        ensures { OnOk result (self.new ≡ self.old ++ put_runway_row id.now runway.now ∷ []) }
    {
        let value = RunwayRow {
            id: *id,
            runway: *runway,
        };
        let mut key = String::new(alloc);
        append_runway_key(&mut key, &value)?;
        let mut row = String::new(alloc);
        append_runway_row(&mut row, &value)?;
        self.put(Table::Runway, key, row)
    }

    /// Deletes the row of a runway of the airport.
    ///
    /// # Errors
    ///
    /// `NoMemory` where memory was refused.
    pub fn remove_runway(
        &mut self,
        alloc: Global,
        id: &FieldId,
        name: &RunwayName,
    ) -> Result<(), NoMemory>
        ensures { OnOk result (self.new ≡ self.old ++ remove_runway id.now name.now ∷ []) }
    {
        let mut key = String::new(alloc);
        id.append(&mut key)?;
        append_text(&mut key, " ")?;
        name.append(&mut key)?;
        self.remove(Table::Runway, key)
    }

    /// Stores a row of the table `desk`.
    ///
    /// # Errors
    ///
    /// `NoMemory` where memory was refused.
    pub fn put_desk(&mut self, alloc: Global, value: &DeskRow) -> Result<(), NoMemory>
        ensures { OnOk result (self.new ≡ self.old ++ put_desk value.now ∷ []) }
    {
        let mut key = String::new(alloc);
        append_desk_key(&mut key, value)?;
        let mut row = String::new(alloc);
        append_desk_row(&mut row, value)?;
        self.put(Table::Desk, key, row)
    }

    /// Stores the row of the case of this number.
    ///
    /// # Errors
    ///
    /// `NoMemory` where memory was refused.
    pub fn put_filing(
        &mut self,
        alloc: Global,
        number: u32,
        case: &KeptCase,
    ) -> Result<(), NoMemory>
        ensures { OnOk result (self.new ≡ self.old ++ put_filing number case.now ∷ []) }
    {
        let mut key = String::new(alloc);
        append_filing_key(&mut key, number)?;
        let mut row = String::new(alloc);
        append_filing_row(&mut row, case)?;
        self.put(Table::Filing, key, row)
    }

    /// Stores the row of a case from before there were revisions as a row of today, where that is another.
    ///
    /// # Errors
    ///
    /// `NoMemory` where memory was refused.
    #[tactic(auto, using(crate::proofs::RenewalFacts::row_same, crate::proofs::RenewalFacts::row_other))]
    pub(crate) fn renew_filing(
        &mut self,
        alloc: Global,
        key: &str,
        row: &str,
    ) -> Result<(), NoMemory>
        ensures { OnOk result (self.new ≡ self.old
            ++ renewed_filing ((place tables.Filing, key.now), row.now)) }
    {
        let mut renewed = String::new(alloc);
        append_renewed_row(&mut renewed, row)?;
        if renewed.as_str() == row {
            return Ok(());
        }
        let mut under = String::new(alloc);
        append_text(&mut under, key)?;
        self.put(Table::Filing, under, renewed)
    }

    /// Stores the row of an accepted request.
    ///
    /// # Errors
    ///
    /// `NoMemory` where memory was refused.
    pub fn put_receipt(&mut self, alloc: Global, entry: &Entry) -> Result<(), NoMemory>
        ensures { OnOk result (self.new ≡ self.old ++ put_receipt entry.now ∷ []) }
    {
        let mut key = String::new(alloc);
        append_receipt_key(&mut key, &entry.change)?;
        let mut row = String::new(alloc);
        append_receipt_row(alloc, &mut row, entry.number, &entry.change, &entry.outcome)?;
        self.put(Table::Receipt, key, row)
    }
}
