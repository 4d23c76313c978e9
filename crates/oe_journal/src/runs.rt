//! Calls of a journal, made one after another.

ghost use Rattle.std.specs.Prelude.{◌≡◌, true, List, Vec, IfOk, OnErr, length};
ghost use Rattle.crash_disks.specs.Crash.{LeavesDuring};
ghost use Rattle.oe_journal.specs.Frames.{rows_of};
ghost use Rattle.std.specs.declared.alloc.Global.{Global as OfMemory};
ghost use Rattle.oe_keeper.specs.Kept.{Kept};
ghost use Rattle.oe_keeper.specs.declared.change.RowChange.{RowChange as Change};
ghost use Rattle.oe_journal.specs.declared.runs.Call.TheVariants as calls_of;
ghost use Rattle.oe_journal.specs.declared.runs.Answer.{Answer as Answered};
ghost use Rattle.oe_journal.specs.declared.runs.Answer.TheVariants as answers_of;
ghost use Rattle.oe_journal.specs.Journal.{IsTelling, IsLoadedOver, IsFresh, acknowledged_by};
ghost use Rattle.oe_journal.specs.Runs.{Stand, just_loaded, after_load, after_apply, after_one, after_all, while_applied};
ghost use Rattle.oe_journal.specs.Runs.{IsOneOf, FindsOne, IsAsked, HasCauseOf, StandsSo, IsMade, AreMade};

use crate::journal::JournalKeeper;
use crash_disks::Disk;
use grid_exact::NoMemory;
use oe_keeper::{KeepErr, Keeper, RowChange, Tables};
use std::alloc::Global;

/// A call of a journal whose file is open.
#[derive(Debug, Drop)]
pub enum Call {
    /// The rows are loaded again.
    Load,
    /// The changes are made.
    Apply(Vec<RowChange>),
}

/// How a call ended.
#[derive(Debug, Drop)]
pub enum Answer {
    /// These rows were loaded.
    Loaded(Tables),
    /// All the changes are made.
    Applied,
    /// The disk was called and failed.
    Failed,
    /// Memory was refused. Changes were then not made: the disk was not called.
    NoMemory,
    /// The changes were not handed to the journal, since its last load did not answer Ok.
    Unasked,
}

/// Loads the rows again.
fn load_again<D: Disk>(alloc: Global, keeper: &mut JournalKeeper<D>, is_loaded: &mut bool) -> Answer
    requires open { keeper.old.is_open ≡ true }
    ensures open { keeper.new.is_open ≡ true }
    ensures loaded { is_loaded.new ≡ true
        → ∥ IsLoadedOver D.IsTold D.content D.MayLeave keeper.new ∥₁ }
    ensures flag { (stand : Stand) → stand.is_loaded ≡ is_loaded.old
        → (after_load stand result).is_loaded ≡ is_loaded.new }
    ensures stands { D.IsTold → (stand : Stand)
        → StandsSo D.IsTold D.content D.MayLeave keeper.old stand
        → StandsSo D.IsTold D.content D.MayLeave keeper.new (after_load stand result) }
    ensures found { D.IsTold → (stand : Stand)
        → StandsSo D.IsTold D.content D.MayLeave keeper.old stand → FindsOne stand result }
    ensures asked { (stand : Stand) → IsAsked stand calls_of.Load result }
    ensures kept { result ≡ answers_of.NoMemory → (rows : Kept)
        → IsTelling D.IsTold D.content keeper.old rows
        → IsTelling D.IsTold D.content keeper.new rows }
    ensures cause { HasCauseOf (D.faults keeper.old.disk) (D.faults keeper.new.disk) result }
    ensures crash { D.IsTold → D.TellsPast → (stand : Stand)
        → StandsSo D.IsTold D.content D.MayLeave keeper.old stand
        → LeavesDuring D.moment D.LeftSince keeper.old.disk keeper.new.disk
        (λ c. IsOneOf stand (rows_of c)) }
{
    *is_loaded = false;
    match keeper.load(alloc, None) {
        Ok(tables) => {
            *is_loaded = true;
            Answer::Loaded(tables)
        }
        Err(KeepErr::Failed) => Answer::Failed,
        Err(KeepErr::NoMemory) => Answer::NoMemory,
    }
}

/// Applies the list.
fn apply_one<D: Disk>(alloc: Global, keeper: &mut JournalKeeper<D>, list: &[RowChange]) -> Answer
    requires { ∥ IsLoadedOver D.IsTold D.content D.MayLeave keeper.old ∥₁ }
    ensures loaded { ∥ IsLoadedOver D.IsTold D.content D.MayLeave keeper.new ∥₁ }
    ensures stands { D.IsTold → (stand : Stand) → stand.is_loaded ≡ true
        → StandsSo D.IsTold D.content D.MayLeave keeper.old stand
        → StandsSo D.IsTold D.content D.MayLeave keeper.new (after_apply stand list.now result) }
    ensures found { (stand : Stand) → FindsOne stand result }
    ensures asked { (stand : Stand) (all : Vec Change OfMemory) → stand.is_loaded ≡ true
        → IsAsked stand (calls_of.Apply all) result }
    ensures refused { result ≡ answers_of.NoMemory → keeper.new ≡ keeper.old }
    ensures cause { HasCauseOf (D.faults keeper.old.disk) (D.faults keeper.new.disk) result }
    ensures crash { D.IsTold → D.TellsPast → (stand : Stand) → stand.is_loaded ≡ true
        → StandsSo D.IsTold D.content D.MayLeave keeper.old stand
        → LeavesDuring D.moment D.LeftSince keeper.old.disk keeper.new.disk
        (λ c. IsOneOf (while_applied stand list.now result) (rows_of c)) }
{
    match keeper.apply(alloc, list) {
        Ok(()) => Answer::Applied,
        Err(KeepErr::Failed) => Answer::Failed,
        Err(KeepErr::NoMemory) => Answer::NoMemory,
    }
}

/// Makes the call, but hands no changes to a journal that is not loaded.
fn call_one<D: Disk>(
    alloc: Global,
    keeper: &mut JournalKeeper<D>,
    call: &Call,
    is_loaded: &mut bool,
) -> Answer
    requires open { keeper.old.is_open ≡ true }
    requires loaded { is_loaded.old ≡ true
        → ∥ IsLoadedOver D.IsTold D.content D.MayLeave keeper.old ∥₁ }
    ensures open { keeper.new.is_open ≡ true }
    ensures loaded { is_loaded.new ≡ true
        → ∥ IsLoadedOver D.IsTold D.content D.MayLeave keeper.new ∥₁ }
    ensures flag { (stand : Stand) → stand.is_loaded ≡ is_loaded.old
        → (after_one stand call.now result).is_loaded ≡ is_loaded.new }
    ensures made { (stand : Stand) → stand.is_loaded ≡ is_loaded.old
        → (D.IsTold → StandsSo D.IsTold D.content D.MayLeave keeper.old stand)
        → IsMade D.IsTold D.TellsPast D.content D.MayLeave D.moment D.LeftSince D.faults
        keeper.old stand call.now result keeper.new }
{
    match call {
        Call::Load => load_again(alloc, keeper, is_loaded),
        Call::Apply(list) => {
            if *is_loaded {
                apply_one(alloc, keeper, list.as_slice())
            } else {
                Answer::Unasked
            }
        }
    }
}

/// Makes the calls in order, whatever each answers, after a load that answered Ok. Changes are not handed to
/// the journal after a load that did not answer Ok, until one does.
///
/// Of each call this holds (`made`). A crash at any moment of it leaves the rows of the last load that answered
/// Ok with the lists that were acknowledged since, in order and none in part, and then at most one list more,
/// whole: that of an apply after the last acknowledged one that called the disk and did not answer Ok, or has
/// not answered yet. No other rows may come to stand after it, and a load finds such rows. The disk's count of
/// faults has risen where it failed. Memory may be refused to any call; an apply has then left the journal and
/// its disk as they were.
///
/// # Errors
///
/// `NoMemory` where the answers could not be kept. The same then holds of the calls that were made, the first
/// ones.
pub fn run_all<D: Disk>(
    alloc: Global,
    keeper: &mut JournalKeeper<D>,
    calls: &[Call],
) -> Result<Vec<Answer>, NoMemory>
    requires loaded { ∥ IsLoadedOver D.IsTold D.content D.MayLeave keeper.old ∥₁ }
    requires fresh { D.IsTold → IsFresh D.content D.MayLeave keeper.old }
    ensures all { IfOk result (λ answers. length answers.items ≡ length calls.now) }
    ensures stands { D.IsTold
        → IfOk result (λ answers. StandsSo D.IsTold D.content D.MayLeave keeper.new
        (after_all (just_loaded (acknowledged_by D.content keeper.old)) calls.now answers.items)) }
    ensures made { IfOk result (λ answers.
        AreMade D.IsTold D.TellsPast D.content D.MayLeave D.moment D.LeftSince D.faults
        keeper.old (just_loaded (acknowledged_by D.content keeper.old)) calls.now answers.items
        keeper.new) }
    ensures unkept { OnErr result ((answers : List Answered) ×
        AreMade D.IsTold D.TellsPast D.content D.MayLeave D.moment D.LeftSince D.faults
        keeper.old (just_loaded (acknowledged_by D.content keeper.old)) calls.now answers
        keeper.new) }
{
    let mut answers = Vec::new(alloc);
    let mut is_loaded = true;
    'calls: for call in calls {
        let answer = call_one(alloc, keeper, call, &mut is_loaded);
        answers.push(answer)?;
    }
    Ok(answers)
}
