//! Bringing a keeper's rows of an older format to that of today.

ghost use Rattle.std.specs.Prelude.{IfErr, OnOk};
ghost use Rattle.oe_keeper.specs.Keeping.{HasAll, StaysSilent};
ghost use Rattle.desk_receipts.specs.Keepers.{IsLater};
ghost use Rattle.desk_receipts.specs.Renewals.{HasRenewed, StopsRenewal};

use desk_tables::ChangeList;
use grid_exact::{NoMemory, Text};
use oe_keeper::{KeepErr, Keeper, Table};
use std::alloc::Global;

/// Why a clerk could not be opened.
#[derive(Debug, Drop)]
pub enum OpenRefusal {
    /// The keeper failed.
    KeeperFault,
    /// The first row, in order of table and key, that is bad or missing.
    BadRow { table: Table, key: Text },
    /// Memory was refused.
    NoMemory,
}

impl From<NoMemory> for OpenRefusal {
    ghost use Rattle.std.specs.Prelude.{◌≡◌};
    ghost use Rattle.desk_receipts.specs.declared.renewal.OpenRefusal.TheVariants as errors;

    ghost from_gives = { λ _ e. e ≡ errors.NoMemory };

    fn from(_: NoMemory) -> OpenRefusal {
        OpenRefusal::NoMemory
    }
}

/// Has the keeper make these changes, all or none.
///
/// # Errors
///
/// `KeeperFault` only where the keeper failed, `NoMemory` where memory ran out.
#[tactic(auto, using(crate::proofs::Unasked::as_before))]
fn put_all<K: Keeper>(
    alloc: Global,
    keeper: &mut K,
    changes: &ChangeList,
) -> Result<(), OpenRefusal>
    requires loaded { ∥ K.IsLoaded keeper.old ∥₁ }
    ensures made { OnOk result (HasAll K.Tells keeper.old keeper.new changes.now) }
    ensures silent { OnOk result (StaysSilent K.Tells keeper.old keeper.new) }
    ensures loaded { ∥ K.IsLoaded keeper.new ∥₁ }
    ensures later { IsLater K.IsSteady K.faults keeper.old keeper.new }
    ensures cause { IfErr result (StopsRenewal K.IsSteady K.faults keeper.old keeper.new) }
{
    match keeper.apply(alloc, changes.as_slice()) {
        Ok(()) => Ok(()),
        Err(KeepErr::Failed) => Err(OpenRefusal::KeeperFault),
        Err(KeepErr::NoMemory) => Err(OpenRefusal::NoMemory),
    }
}

/// Brings a keeper's rows of an older format to that of today, by these changes. A keeper of others, for which there are none, is not asked.
///
/// # Errors
///
/// As `put_all`.
#[tactic(auto, using(crate::proofs::Unasked::as_before))]
pub fn renew<K: Keeper>(
    alloc: Global,
    keeper: &mut K,
    changes: &ChangeList,
) -> Result<(), OpenRefusal>
    requires loaded { ∥ K.IsLoaded keeper.old ∥₁ }
    ensures renewed { OnOk result (HasRenewed K.Tells changes.now keeper.old keeper.new) }
    ensures loaded { ∥ K.IsLoaded keeper.new ∥₁ }
    ensures later { IsLater K.IsSteady K.faults keeper.old keeper.new }
    ensures cause { IfErr result (StopsRenewal K.IsSteady K.faults keeper.old keeper.new) }
{
    if changes.is_empty() {
        return Ok(());
    }
    put_all(alloc, keeper, changes)
}
