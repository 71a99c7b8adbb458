//! Disks: files of bytes that a crash may leave in part.
ghost use Rattle.std.specs.Prelude.{◌≡◌, ℕ, ◌+◌, ◌<◌, ◌≤◌, ◌^◌, List, take, length, Option, IfOk, OnOk, IsErr};
ghost use Rattle.std.specs.Io.{ReadsAtMost};
ghost use Rattle.ps_disks.specs.Disk.{ReadsAt, written, Torn, Shortened, Follows, NoMore, Only, AreBounded, Elapses, CountsFault, Tells};
ghost use Rattle.ps_disks.specs.declared.disk.DiskCall.{DiskCall as Call};
ghost use Rattle.ps_disks.specs.declared.disk.DiskCall.TheVariants.{Write, Cut, Sync};

use ps_ports::fault::Failed;
use ps_time::items::Items;

/// A call that changes a disk, or makes sure of what is on it.
#[derive(Drop)]
pub enum DiskCall {
    /// The place and the bytes.
    Write(u64, Items<u8>),
    /// The length that is left.
    Cut(u64),
    Sync,
}

/// A file of at most 2^64 - 1 bytes, read and written at places.
///
/// Between two syncs a crash may leave any bytes in each range that was written and past the end that
/// the file had; other bytes stay. After a sync that answered `Ok` it leaves what a read gives. A call
/// that failed may have done any part of its work.
pub trait Disk {
    // The premise of all that is said of bytes and images. Disks in memory meet it. Of a real file
    // nobody knows whether it does, so there it is never taken to be met.
    ghost premise: { Type 0 };

    // The bytes that a read gives.
    ghost seen: { Self → List ℕ };

    // The images: what a crash at this moment may leave.
    ghost may_leave: { Self → List ℕ → Type 0 };

    // The moment, as a number that never falls.
    ghost moment: { Self → ℕ };

    // What a crash at some moment from that one on might have left, during a call or between two.
    ghost left_since: { Self → ℕ → List ℕ → Type 0 };

    // The writes, cuts and syncs so far, failed ones too, where the disk tells them.
    ghost told: { Self → Option (List Call) };

    // How many calls failed: a `u64` that never falls.
    ghost disk_faults: { Self → ℕ };

    // The second is the first after some calls in a row, reads too.
    ghost calls_advance: { Self → Self → Type 0 };

    /// Reads bytes from a place on to the front of `buf`, and answers how many. 0 for a buffer that
    /// isn't empty is the end of the file.
    fn read(&mut self, at: u64, buf: &mut [u8]) -> Result<usize, Failed>
        ensures bound { ReadsAtMost result buf.new }
        ensures bytes { premise → IfOk result (λ n. ReadsAt (seen self.old) at buf.new n) }
        ensures seen { premise → seen self.new ≡ seen self.old }
        ensures crash { premise → NoMore (may_leave self.old) (may_leave self.new) }
        ensures size { premise → AreBounded (may_leave self.new) }
        ensures time { premise → Elapses (moment self.old) (moment self.new) (left_since self.old) (left_since self.new) (may_leave self.new) }
        ensures told { told self.new ≡ told self.old }
        ensures cause { CountsFault (disk_faults self.old) (disk_faults self.new) result }
        ensures calls_advance { calls_advance self.old self.new };

    /// Writes over what is there, and past the end. A gap before the bytes is filled with zeros, and an
    /// empty piece changes nothing. Fails where the bytes would end past 2^64 - 1.
    fn write_at(&mut self, at: u64, bytes: &[u8]) -> Result<(), Failed>
        ensures written { premise → OnOk result (seen self.new ≡ written at bytes.now (seen self.old)) }
        ensures part { premise → Torn at (length bytes.now) (seen self.old) (seen self.new) }
        ensures crash { premise → Follows (Torn at (length bytes.now)) (may_leave self.old) (may_leave self.new) }
        ensures size { premise → AreBounded (may_leave self.new) }
        ensures time { premise → Elapses (moment self.old) (moment self.new) (left_since self.old) (left_since self.new) (may_leave self.new) }
        ensures too_far { 2 ^ 64 ≤ at + length bytes.now → IsErr result }
        ensures told { Tells (told self.old) (told self.new) (Write at bytes.now) }
        ensures cause { CountsFault (disk_faults self.old) (disk_faults self.new) result }
        ensures calls_advance { calls_advance self.old self.new };

    /// Cuts the file to at most `len` bytes. It never gets longer.
    fn cut(&mut self, len: u64) -> Result<(), Failed>
        ensures cut { premise → OnOk result (seen self.new ≡ take len (seen self.old)) }
        ensures part { premise → Shortened len (seen self.old) (seen self.new) }
        ensures crash { premise → Follows (Shortened len) (may_leave self.old) (may_leave self.new) }
        ensures size { premise → AreBounded (may_leave self.new) }
        ensures time { premise → Elapses (moment self.old) (moment self.new) (left_since self.old) (left_since self.new) (may_leave self.new) }
        ensures told { Tells (told self.old) (told self.new) (Cut len) }
        ensures cause { CountsFault (disk_faults self.old) (disk_faults self.new) result }
        ensures calls_advance { calls_advance self.old self.new };

    /// After it, a crash leaves what a read gives.
    fn sync(&mut self) -> Result<(), Failed>
        ensures durable { premise → OnOk result (Only (seen self.old) (may_leave self.new)) }
        ensures seen { premise → seen self.new ≡ seen self.old }
        ensures crash { premise → NoMore (may_leave self.old) (may_leave self.new) }
        ensures size { premise → AreBounded (may_leave self.new) }
        ensures time { premise → Elapses (moment self.old) (moment self.new) (left_since self.old) (left_since self.new) (may_leave self.new) }
        ensures told { Tells (told self.old) (told self.new) Sync }
        ensures cause { CountsFault (disk_faults self.old) (disk_faults self.new) result }
        ensures calls_advance { calls_advance self.old self.new };

    // What a read gives is one of the images.
    ghost reads_now: { (disk : Self) → premise → may_leave disk (seen disk) };

    // This moment is one of those since an earlier one.
    ghost counts_now: { (disk : Self) (t : ℕ) (c : List ℕ) → premise → t ≤ moment disk → may_leave disk c → left_since disk t c };

    // The count is a `u64`, at each moment.
    ghost disk_faults_fit: { (disk : Self) → disk_faults disk < 2 ^ 64 };

    // Calls in a row may be none, and others may follow them.
    ghost calls_advance_refl: { (disk : Self) → calls_advance disk disk };

    ghost calls_advance_trans: { (a b c : Self) → calls_advance a b → calls_advance b c → calls_advance a c };

    // Since this moment there is no other.
    ghost only_now: { (disk : Self) (c : List ℕ) → premise → left_since disk (moment disk) c → may_leave disk c };
}
