ghost use Rattle.std.specs.Prelude.{◌≡◌, ◌≢◌, ◌≤◌, ◌<◌, ◌+◌, ◌-◌, ◌^◌, ℕ, true, false, IsTrue, min, IfOk, OnOk, OnErr, IsErrOf};
ghost use Rattle.web_outside.specs.Causes.{Rose};
ghost use Rattle.web_disk.specs.View.{AreAmong};
ghost use Rattle.disk_trio.specs.Trio.{trio_view};
ghost use Rattle.server_limits.specs.Limits.{most_shelves};
ghost use Rattle.trio_rack.specs.Trios.{shelves_of, AreFrom, AreGivenTo, AsksForThree, CountsEach, CountsNoOther, CountsTake, CountsWhole, IsFrom, IsGivenTo, KeepsHome, LeavesAllDisks, LeavesAllShelves, LeavesOtherDisks, LeavesOtherShelves};

use disk_trio::Disks;
use server_limits::MOST_SHELVES;
use std::alloc::Global;
use web_disk::{Disk, Rack, RackFault};

/// Takes the three disks of a shelf out of the directory: its two files, and the root that names one of
/// them. Where one is not taken, those before it go back.
pub fn take_trio<D: Disk, R: Rack<D>>(
    rack: &mut R,
    alloc: Global,
    directory: &str,
    shelf: u32,
) -> Result<Disks<D>, RackFault>
    requires shelf { shelf < most_shelves }
    ensures unopened { IfOk result (λ disks. disks.known ≡ false) }
    ensures images { IsTrue R.tells → IfOk result (λ disks. IsFrom (R.view rack.old) shelf disks) }
    ensures each { IsTrue R.tells →
        IfOk result (λ disks. AreFrom (R.view rack.old) shelf disks) }
    ensures fresh { IfOk result (λ disks. (trio_view disks).faults ≡ 0) }
    ensures out { OnOk result ((shelves_of (R.view rack.new)).out shelf ≡ true) }
    ensures others { LeavesOtherShelves shelf (R.view rack.old) (R.view rack.new) }
    ensures other_disks { LeavesOtherDisks shelf (R.view rack.old) (R.view rack.new) }
    ensures others_out { (n : ℕ) → n ≢ shelf →
        (shelves_of (R.view rack.new)).out n ≡ (shelves_of (R.view rack.old)).out n }
    ensures err { IsTrue R.tells →
        OnErr result (LeavesAllShelves (R.view rack.old) (R.view rack.new)) }
    ensures err_disks { IsTrue R.tells →
        OnErr result (LeavesAllDisks (R.view rack.old) (R.view rack.new)) }
    ensures err_home { OnErr result (KeepsHome (R.view rack.old) (R.view rack.new)) }
    ensures failed { IsErrOf result RackFault.Failed →
        Rose (R.view rack.old).faults (R.view rack.new).faults }
    ensures later { (R.view rack.old).faults ≤ (R.view rack.new).faults }
    ensures asked { AsksForThree shelf result (R.view rack.old) (R.view rack.new) }
    ensures counted { CountsTake shelf result (R.view rack.old) (R.view rack.new) }
    ensures others_counted { CountsNoOther shelf (R.view rack.old) (R.view rack.new) }
{
    let a = match rack.take(alloc, directory, shelf) {
        Ok(a) => a,
        Err(fault) => return Err(fault),
    };
    let b = match rack.take(alloc, directory, MOST_SHELVES + shelf) {
        Ok(b) => b,
        Err(fault) => {
            give_unused(rack, shelf, a);
            return Err(fault);
        }
    };
    match rack.take(alloc, directory, 2 * MOST_SHELVES + shelf) {
        Ok(root) => Ok(Disks::new(a, b, root)),
        Err(fault) => {
            give_unused(rack, MOST_SHELVES + shelf, b);
            give_unused(rack, shelf, a);
            Err(fault)
        }
    }
}

/// Gives back the three disks of a shelf. Their faults count as the rack's, for this shelf.
pub fn give_trio<D: Disk, R: Rack<D>>(rack: &mut R, shelf: u32, disks: Disks<D>)
    requires shelf { shelf < most_shelves }
    ensures images { IsTrue R.tells → IsTrue D.tells → IsGivenTo (R.view rack.new) shelf disks }
    ensures each { IsTrue R.tells → AreGivenTo (R.view rack.new) shelf disks }
    ensures others { LeavesOtherShelves shelf (R.view rack.old) (R.view rack.new) }
    ensures home { (shelves_of (R.view rack.new)).out shelf ≡ false }
    ensures other_disks { LeavesOtherDisks shelf (R.view rack.old) (R.view rack.new) }
    ensures others_out { (n : ℕ) → n ≢ shelf →
        (shelves_of (R.view rack.new)).out n ≡ (shelves_of (R.view rack.old)).out n }
    ensures faults { (R.view rack.new).faults ≡ min
        ((R.view rack.old).faults + (trio_view disks).faults) (2 ^ 64 - 1) }
    ensures asked { (R.view rack.new).asked ≡ (R.view rack.old).asked }
    ensures counted { CountsEach shelf disks (R.view rack.old) (R.view rack.new) }
    ensures counted_whole { CountsWhole shelf disks (R.view rack.old) (R.view rack.new) }
    ensures others_counted { CountsNoOther shelf (R.view rack.old) (R.view rack.new) }
{
    let (a, b, root) = disks.close();
    rack.give(shelf, a);
    rack.give(MOST_SHELVES + shelf, b);
    rack.give(2 * MOST_SHELVES + shelf, root);
}

// Gives back the disk of this number, of which no call was made.
fn give_unused<D: Disk, R: Rack<D>>(rack: &mut R, number: u32, disk: D)
    requires { (D.view disk).faults ≡ 0 }
    ensures images { IsTrue R.tells →
        AreAmong ((R.view rack.new).holds number) (D.view disk).images }
    ensures others { (n : ℕ) → n ≢ number →
        AreAmong ((R.view rack.new).holds n) ((R.view rack.old).holds n) }
    ensures home { (R.view rack.new).out number ≡ false }
    ensures others_out { (n : ℕ) → n ≢ number → (R.view rack.new).out n ≡ (R.view rack.old).out n }
    ensures faults { (R.view rack.new).faults ≡ (R.view rack.old).faults }
    ensures asked { (R.view rack.new).asked ≡ (R.view rack.old).asked }
    ensures counted { (n : ℕ) → (R.view rack.new).failed n ≡ (R.view rack.old).failed n }
{
    // A count is below 2^64, so it does not fall where nothing is added.
    let _count = rack.faults();
    rack.give(number, disk);
}
