//! What a disk's calls do to its bytes, and what a crash may make of them.

ghost use Rattle.std.specs.Prelude.{◌≡◌, ◌≤◌, ◌<◌, ◌+◌, ◌^◌, ℕ, Bool, List, Option, is_ok, IfOk, OnOk, OnErr, length, option_copied, take};
ghost use Rattle.crash_disks.specs.Bytes.{Holds, Torn, Cut, IsPart};
ghost use Rattle.crash_disks.specs.Crash.{Only, Follows, Stays, GoesOn, HasCause};

/// A call of a disk that failed. The disk has counted it.
#[derive(Clone, Copy, Debug, PartialEq, Eq)]
pub struct Failed;

/// The bytes of one file. A disk may tell what a read of them gives and what a crash now may leave of them,
/// and what a crash at some moment since an earlier one might have left. What its calls say of these they say
/// where it tells them.
pub trait Disk {
    /// It tells what a read gives, and what a crash now may leave. The one goes with the other: after a call
    /// that failed, what a read gives is known only as one of the things that a crash may leave.
    ghost IsTold: { Type 0 };

    /// It tells what a crash at some moment since an earlier one might have left.
    ghost TellsPast: { Type 0 };

    /// The bytes that a read gives.
    ghost content: { Self → List ℕ };

    /// A crash now may leave these bytes.
    ghost MayLeave: { Self → List ℕ → Type 0 };

    /// The moment, as a number that does not fall.
    ghost moment: { Self → ℕ };

    /// A crash at some moment from that one on might have left these bytes.
    ghost LeftSince: { Self → ℕ → List ℕ → Type 0 };

    /// How often it has failed. It never falls.
    ghost faults: { Self → ℕ };

    /// An `open` of this place that answered Ok leads from the one disk to the other.
    ghost Opens: { Self → Option (List ℕ) → Self → Type 0 };

    /// An `open` of this place that failed leads from the one disk to the other.
    ghost FailsToOpen: { Self → Option (List ℕ) → Self → Type 0 };

    /// One call leads from the one disk to the other, and answered Ok or did not.
    ghost Called: { Self → Bool → Self → Type 0 };

    /// Opens the file at the place, or one of its own where none is named.
    ///
    /// # Errors
    ///
    /// `Failed` only where its count of faults rose, as in each call.
    fn open(&mut self, place: Option<&str>) -> Result<(), Failed>
        ensures opened { OnOk result (Opens self.old (option_copied place.entry) self.new) }
        ensures unopened { OnErr result (FailsToOpen self.old (option_copied place.entry) self.new) }
        ensures cause { HasCause (faults self.old) (faults self.new) result }
        ensures called { Called self.old (is_ok result) self.new };

    /// How many bytes there are.
    ///
    /// # Errors
    ///
    /// `Failed` only where its count of faults rose.
    fn size(&mut self) -> Result<u64, Failed>
        ensures size { IsTold → IfOk result (λ n. n ≡ length (content self.old)) }
        ensures bound { IfOk result (λ n. n ≤ 2 ^ 62) }
        ensures content { IsTold → content self.new ≡ content self.old }
        ensures crash { IsTold → Stays (MayLeave self.old) (MayLeave self.new) }
        ensures time { TellsPast → GoesOn moment LeftSince MayLeave self.old self.new }
        ensures cause { HasCause (faults self.old) (faults self.new) result }
        ensures called { Called self.old (is_ok result) self.new };

    /// Hands out bytes from this place on: at least one into a buffer that is not empty.
    ///
    /// # Errors
    ///
    /// `Failed` only where its count of faults rose.
    fn read_at(&mut self, at: u64, buf: &mut [u8]) -> Result<usize, Failed>
        requires { IsTold → at < length (content self.old) }
        ensures bound { IfOk result (λ n. n ≤ length buf.new) }
        ensures some { 0 < length buf.new → IfOk result (λ n. 1 ≤ n) }
        ensures bytes { IsTold → IfOk result (λ n. IsPart (content self.old) at n buf.new) }
        ensures content { IsTold → content self.new ≡ content self.old }
        ensures crash { IsTold → Stays (MayLeave self.old) (MayLeave self.new) }
        ensures time { TellsPast → GoesOn moment LeftSince MayLeave self.old self.new }
        ensures cause { HasCause (faults self.old) (faults self.new) result }
        ensures called { Called self.old (is_ok result) self.new };

    /// Writes over what is there, and past the end. Until a sync a crash may leave any bytes in the range.
    ///
    /// # Errors
    ///
    /// `Failed` only where its count of faults rose, as where the file would have more than 2^62 bytes.
    fn write_at(&mut self, at: u64, bytes: &[u8]) -> Result<(), Failed>
        requires { IsTold → at ≤ length (content self.old) }
        ensures written { IsTold
            → OnOk result (Holds (content self.old) at bytes.now (content self.new)) }
        ensures bound { OnOk result (at + length bytes.now ≤ 2 ^ 62) }
        ensures crash { IsTold
            → Follows (Torn at (length bytes.now)) (MayLeave self.old) (MayLeave self.new) }
        ensures time { TellsPast → GoesOn moment LeftSince MayLeave self.old self.new }
        ensures cause { HasCause (faults self.old) (faults self.new) result }
        ensures called { Called self.old (is_ok result) self.new };

    /// Cuts the file to a length. Until a sync a crash may leave any length between.
    ///
    /// # Errors
    ///
    /// `Failed` only where its count of faults rose.
    fn cut(&mut self, len: u64) -> Result<(), Failed>
        requires { IsTold → len ≤ length (content self.old) }
        ensures cut { IsTold → OnOk result (content self.new ≡ take len (content self.old)) }
        ensures crash { IsTold → Follows (Cut len) (MayLeave self.old) (MayLeave self.new) }
        ensures time { TellsPast → GoesOn moment LeftSince MayLeave self.old self.new }
        ensures cause { HasCause (faults self.old) (faults self.new) result }
        ensures called { Called self.old (is_ok result) self.new };

    /// Afterwards a crash leaves what a read gives.
    ///
    /// # Errors
    ///
    /// `Failed` only where its count of faults rose.
    fn sync(&mut self) -> Result<(), Failed>
        ensures durable { IsTold → OnOk result (Only (content self.new) (MayLeave self.new)) }
        ensures content { IsTold → OnOk result (content self.new ≡ content self.old) }
        ensures crash { IsTold → Stays (MayLeave self.old) (MayLeave self.new) }
        ensures time { TellsPast → GoesOn moment LeftSince MayLeave self.old self.new }
        ensures cause { HasCause (faults self.old) (faults self.new) result }
        ensures called { Called self.old (is_ok result) self.new };

    /// What a read gives is one of the things that a crash may leave.
    ghost content_left: { (d : Self) → IsTold → MayLeave d (content d) };

    /// This moment is one of those since an earlier one.
    ghost counts_now: { (d : Self) (t : ℕ) (c : List ℕ) → TellsPast → t ≤ moment d → MayLeave d c → LeftSince d t c };

    /// Since this moment there is no other.
    ghost only_now: { (d : Self) (c : List ℕ) → TellsPast → LeftSince d (moment d) c → MayLeave d c };
}
