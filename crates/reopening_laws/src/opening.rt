//! Reopening a clerk.

ghost use Rattle.std.specs.Prelude.{◌≡◌, [], IfOk, IfErr, option_copied};
ghost use Rattle.reopening_laws.specs.Refusals.{IsNoBadRow, StillTells};

use crate::{opened_is_one, opened_is_sound, reopens};
use filing_desk::{Clerk, OpenRefusal};
use oe_keeper::Keeper;
use std::alloc::Global;

/// Closes the clerk and opens it again over its own keeper. Where a load can find no rows but the keeper's own, or its rows are known
/// before the load and after it, the desk is the same and no row is bad. Nothing is accepted since the opening.
///
/// # Errors
///
/// `KeeperFault` where the keeper failed, `NoMemory` where memory ran out. `BadRow` only where the rows that were loaded are not known to
/// be the keeper's own.
pub fn reopened<K: Keeper + Drop>(
    alloc: Global,
    clerk: Clerk<K>,
    place: Option<&str>,
) -> Result<Clerk<K>, OpenRefusal>
    ensures same { IfOk result (λ c.
        StillTells K.Tells K.Finds clerk.keeper (option_copied place.entry) c.keeper
        → c.state ≡ clerk.state) }
    ensures new { IfOk result (λ c. c.accepted ≡ []) }
    ensures sound { IfErr result (IsNoBadRow K.Tells K.Finds clerk.keeper
        (option_copied place.entry)) }
{
    reopens();
    opened_is_one();
    opened_is_sound();
    Clerk::open(alloc, clerk.into_keeper(), place)
}
