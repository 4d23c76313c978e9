//! Opening a clerk.

ghost use Rattle.std.specs.Prelude.{◌≡◌, [], IfOk, IfErr, option_copied};
ghost use Rattle.desk_tables.specs.Opening.{Opens, renewal, renewed};
ghost use Rattle.desk_tables.specs.Rows.{AreRows};
ghost use Rattle.desk_machine.specs.States.{empty};
ghost use Rattle.desk_receipts.specs.Handed.{Told};
ghost use Rattle.filing_desk.specs.Loads.{HasOpenCause, IsOpened, NamesBadRow};

use crate::clerk::Clerk;
use crate::desk::Desk;
use crate::office::Office;
use desk_receipts::{OpenRefusal, renew};
use desk_tables::{ChangeList, Unread, desk_starts, opened_is_desk, opened_rows, read_desk};
use oe_keeper::{KeepErr, Keeper, NoKeeper, Tables};
use std::alloc::Global;

/// An office that was opened from tables.
#[derive(Drop)]
struct OpenedOffice {
    office: Office,
    /// The changes that bring the tables to the format of today.
    renewal: ChangeList,
}

/// Opens an office from the rows of a desk.
///
/// # Errors
///
/// `BadRow` gives the first bad or missing row, `NoMemory` where memory ran out.
fn office_of(alloc: Global, tables: Tables) -> Result<OpenedOffice, OpenRefusal>
    ensures opened { IfOk result (λ o. Opens tables o.office) }
    ensures rows { IfOk result (λ o. AreRows o.office (renewed tables)) }
    ensures renewal { IfOk result (λ o. o.renewal ≡ renewal tables) }
    ensures bad { IfErr result (λ why. NamesBadRow tables why) }
{
    opened_rows();
    match read_desk(alloc, tables) {
        Ok(opened) => {
            let (desk, renewal) = Desk::of(alloc, opened)?;
            let office = Office::of(alloc, desk)?;
            Ok(OpenedOffice { office, renewal })
        }
        Err(Unread::Bad(row)) => Err(OpenRefusal::BadRow {
            table: row.table,
            key: row.key,
        }),
        Err(Unread::NoMemory) => Err(OpenRefusal::NoMemory),
    }
}

impl<K: Keeper> Clerk<K> {
    /// A clerk with an empty desk, over a keeper that was loaded and has no rows. It allocates nothing.
    pub(crate) fn empty(alloc: Global, keeper: K) -> Clerk<K>
        requires loaded { ∥ K.IsLoaded keeper ∥₁ }
        requires told { Told K.Tells keeper empty }
        ensures { result ≡ record { state = empty; accepted = []; keeper = keeper } }
    {
        desk_starts();
        Clerk {
            office: Office::empty(alloc),
            keeper,
            base: 0,
        }
    }
}

impl<K: Keeper + Drop> Clerk<K> {
    /// Opens the desk from the rows that the keeper has at this place; an empty desk where it has none. Rows of an older format are brought
    /// to that of today, by one list of changes.
    ///
    /// # Errors
    ///
    /// `KeeperFault` only where the keeper failed. `BadRow` gives the first row, in order of table and key, that is bad, or the row of the
    /// format or of the desk's day where that is missing. `NoMemory` where memory ran out.
    pub fn open(alloc: Global, keeper: K, place: Option<&str>) -> Result<Clerk<K>, OpenRefusal>
        ensures opened { IfOk result (λ c. IsOpened K.Tells K.Finds K.IsSteady K.faults
            keeper (option_copied place.entry) c) }
        ensures cause { IfErr result (λ why. HasOpenCause K.Tells K.Finds K.IsSteady K.faults
            keeper (option_copied place.entry) why) }
    {
        opened_is_desk();
        let mut keeper = keeper;
        let tables = match keeper.load(alloc, place) {
            Ok(tables) => tables,
            Err(KeepErr::Failed) => return Err(OpenRefusal::KeeperFault),
            Err(KeepErr::NoMemory) => return Err(OpenRefusal::NoMemory),
        };
        let opened = match office_of(alloc, tables) {
            Ok(opened) => opened,
            Err(why) => return Err(why),
        };
        match renew(alloc, &mut keeper, &opened.renewal) {
            Ok(()) => {
                let base = opened.office.accepted();
                Ok(Clerk {
                    office: opened.office,
                    keeper,
                    base,
                })
            }
            Err(why) => Err(why),
        }
    }
}

impl Clerk<NoKeeper> {
    /// A clerk with an empty desk that is not stored. It allocates nothing.
    pub fn unkept(alloc: Global) -> Clerk<NoKeeper>
        ensures state { result.state ≡ empty }
        ensures accepted { result.accepted ≡ [] }
    {
        Clerk::empty(alloc, NoKeeper)
    }
}
