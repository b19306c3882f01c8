//! Opening the shelves of a site, and handing them back.
ghost use Rattle.std.specs.Prelude.{◌≡◌, ◌≤◌, ◌++◌, false, ℕ, Some, length, IfOk, IfErr, OnOk, OnErr, reverse, slice_get, vec_len};
ghost use Rattle.script_nodes.specs.Views.{scripts_of};
ghost use Rattle.shelf.specs.SetupReader.Texts.{IsReadSetup};
ghost use Rattle.shelf.specs.JournalRecords.Records.{IsInGrammar, begin_of};
ghost use Rattle.shelf.specs.Ranges.{AreInRange, numbered};
ghost use Rattle.disk_trio.specs.Trio.{trio_view};
ghost use Rattle.site.specs.Beginnings.{AreFresh, AreNew, CanBegin, IsFreshOn, AreOpened, IsNotOpened, AreNotOpened, AreCopies, AreLocked, HaveRoom, KeepRoom, AreGone, HasMany, disks_of, nonces_of, shelves_of, site_of};

use crate::entry::KeptEntry;
use crate::fault::SiteFault;
use crate::kept::KeptShelf;
use crate::pass::SitePass;
use crate::site::Site;
use disk_trio::Disks;
use ghost_history::History;
use lock_row::LockRow;
use script_nodes::{Library, Setup};
use server_limits::MOST_WORKERS;
use shelf::{BeginFault, Rules, Shelf};
use std::alloc::{AllocError, Global};
use std::sync::Wait;
use web_disk::Disk;
use web_outside::Nonces;

impl<F: Disk, N: Nonces + Drop> Site<Disks<F>, N> {
    ghost use Rattle.site.specs.Beginnings.{IsBegun, IsNotBegun, IsReady};

    /// Opens the shelves, each on the disks of its place, with the source of nonces of its place and under the limits with its
    /// place for their number, and puts them behind locks. Where a shelf is not opened, or memory ends, all disks and sources
    /// are handed back, in their order.
    ///
    /// A shelf whose disk tells own records is opened as an own one.
    ///
    /// It asks for one disk and one source a shelf, for limits in their ranges, and for a setup that is what its names and texts are
    /// read as and with which a journal can begin. It may wait, where memory ends and it takes shelves from their locks.
    pub fn begin<R: Wait>(
        rt: &R,
        alloc: Global,
        setup: Setup,
        disks: Vec<Disks<F>>,
        nonces: Vec<N>,
        rules: Rules,
    ) -> Result<Site<Disks<F>, N>, SiteFault<Disks<F>, N>>
        requires range { AreInRange (numbered rules 0) }
        requires disks { length disks.items ≡ rules.shelves }
        requires fresh { AreNew disks.items }
        requires nonces { length nonces.items ≡ rules.shelves }
        requires read { IsReadSetup (scripts_of setup) }
        requires begins { CanBegin (scripts_of setup) rules.shelves }
        ensures begun { IfOk result (IsBegun trio_view F.tells (scripts_of setup) rules disks.items nonces.items) }
        ensures ready { IfOk result IsReady }
        ensures fault { IfErr result (IsNotBegun trio_view F.tells (scripts_of setup) disks.items nonces.items) }
    {
        let mut disks = disks;
        let mut nonces = nonces;
        let Ok(histories) = Vec::with_capacity(alloc, disks.len()) else {
            return Err(SiteFault {
                shelf: 0,
                fault: BeginFault::Memory,
                disks,
                nonces,
            });
        };
        disks.reverse();
        nonces.reverse();
        let shelves = match open_all(alloc, &setup, rules, &mut disks, &mut nonces) {
            Ok(shelves) => shelves,
            Err((shelf, fault)) => return Err(handed(disks, nonces, shelf, fault)),
        };
        drop(setup);
        match lock_all(rt, alloc, shelves) {
            Ok(locked) => Ok(site_of(locked, rules.fuel, disks, nonces, histories)),
            Err(shelves) => {
                give_back(shelves, &mut disks, &mut nonces);
                Err(handed(disks, nonces, 0, BeginFault::Memory))
            }
        }
    }
}

impl<D: Disk, N: Nonces + Drop> Site<D, N> {
    ghost use Rattle.site.specs.Sites.{IsOwn};
    ghost use Rattle.site.specs.Ends.{AreBack, AllAreSeen};
    ghost use Rattle.server_limits.specs.Counts.{most_workers};
    ghost use Rattle.site.specs.Beginnings.{IsReady, IsWhole, AreFirstPasses, GivesOut};

    /// The passes of so many workers, 1 to `MOST_WORKERS`: that of place k is for worker k, and has seen nothing. Want of memory changes
    /// nothing; else the site gives no others.
    pub fn passes(&mut self, alloc: Global, n: u32) -> Result<Vec<SitePass<D, N>>, AllocError>
        requires ready { IsReady self.old }
        requires count { (1 ≤ n) × (n ≤ most_workers) }
        ensures whole { IsWhole self.new }
        ensures memory { OnErr result (self.new ≡ self.old) }
        ensures given { OnOk result (GivesOut n self.old self.new) }
        ensures count { IfOk result (λ v. length v.items ≡ n) }
        ensures passes { IfOk result (AreFirstPasses self.new) }
    {
        let mut passes = Vec::with_capacity(alloc, n as usize)?;
        for caller in 0..n {
            let _ = caller;
            passes.push_reserved(self.row.deal());
        }
        Ok(passes)
    }

    /// Waits for each shelf, and gives back, in their order, the disks, the sources of nonces and the histories. The history of
    /// a shelf that was opened as an own one is legal, and the disk stands for its book; the disk of any other stands for some
    /// book of its shelf. It takes no memory. Each pass has seen a beginning of each history, with all entries of its caller,
    /// and callers to whom the site gave no pass have none.
    ///
    /// What is told is told of the passes that are handed in, so it is handed all.
    pub fn close<R: Wait>(
        self,
        rt: &R,
        passes: Vec<SitePass<D, N>>,
    ) -> (Vec<D>, Vec<N>, Vec<History<KeptEntry>>)
        requires whole { IsWhole self }
        requires own { (j : ℕ) (p : _) → slice_get passes.items j ≡ Some p → IsOwn self p }
        ensures disks { length result.0.items ≡ length self.row.homes }
        ensures nonces { length result.1.items ≡ length self.row.homes }
        ensures histories { length result.2.items ≡ length self.row.homes }
        ensures back { AreBack D.view D.tells N.nonce self.row result }
        ensures told { AllAreSeen passes result.2 }
    {
        let Site {
            libraries: _,
            fuel: _,
            row,
            mut disks,
            mut nonces,
            mut histories,
        } = self;
        let mut shelves = row.close(rt, passes);
        shelves.reverse();
        while let Some(shelf) = shelves.pop() {
            let (disk, source, history) = shelf.close();
            disks.push_reserved(disk);
            nonces.push_reserved(source);
            histories.push_reserved(history);
        }
        shelves.destroy_empty();
        (disks, nonces, histories)
    }
}

// Opens one shelf.
fn open_one<F: Disk, N: Nonces + Drop>(
    alloc: Global,
    setup: &Setup,
    rules: Rules,
    disk: Disks<F>,
    source: N,
) -> Result<KeptShelf<Disks<F>, N>, (BeginFault, Disks<F>, N)>
    requires fresh { disk.known ≡ false }
    requires range { AreInRange rules }
    requires read { IsReadSetup (scripts_of setup.now) }
    requires begins { IsInGrammar (begin_of rules.number (scripts_of setup.now)) }
    ensures opened { IfOk result (IsFreshOn trio_view F.tells N.nonce (scripts_of setup.now) rules disk source) }
    ensures unopened { IfErr result (IsNotOpened trio_view F.tells (scripts_of setup.now) rules.number disk) }
    ensures source { IfErr result (λ e. e.2 ≡ source) }
{
    match Shelf::begin(alloc, disk, source, setup, rules) {
        Ok(shelf) => Ok(KeptShelf::new(shelf)),
        Err(unopened) => Err(unopened),
    }
}

// Opens the shelves on their disks, of which that of the first shelf is the last. Where one is not opened, all disks and sources
// are there again.
fn open_all<F: Disk, N: Nonces + Drop>(
    alloc: Global,
    setup: &Setup,
    rules: Rules,
    disks: &mut Vec<Disks<F>>,
    nonces: &mut Vec<N>,
) -> Result<Vec<KeptShelf<Disks<F>, N>>, (u32, BeginFault)>
    requires range { AreInRange (numbered rules 0) }
    requires fresh { AreNew disks.old.items }
    requires disks { length disks.old.items ≡ rules.shelves }
    requires nonces { length nonces.old.items ≡ rules.shelves }
    requires read { IsReadSetup (scripts_of setup.now) }
    requires begins { CanBegin (scripts_of setup.now) rules.shelves }
    ensures opened { IfOk result
        (AreOpened trio_view F.tells N.nonce (scripts_of setup.now) rules disks.old nonces.old) }
    ensures many { IfOk result (HasMany rules.shelves) }
    ensures gone { OnOk result (AreGone disks.new nonces.new) }
    ensures room { KeepRoom disks.old nonces.old disks.new nonces.new }
    ensures unopened { IfErr result (AreNotOpened trio_view F.tells (scripts_of setup.now) disks.old disks.new) }
    ensures sources { OnErr result (reverse nonces.new.items ≡ reverse nonces.old.items) }
{
    let Ok(mut shelves) = Vec::with_capacity(alloc, disks.len()) else {
        return Err((0, BeginFault::Memory));
    };
    for number in 0..rules.shelves {
        let disk = disks.pop().unwrap();
        let source = nonces.pop().unwrap();
        match open_one(alloc, setup, rules.numbered(number), disk, source) {
            Ok(shelf) => shelves.push_reserved(shelf),
            Err((fault, disk, source)) => {
                disks.push_reserved(disk);
                nonces.push_reserved(source);
                give_back(shelves, disks, nonces);
                return Err((number, fault));
            }
        }
    }
    Ok(shelves)
}

// What stands behind the locks of shelves, and beside them.
struct Locked<D: Disk, N: Nonces + Drop> {
    libraries: Vec<Library>,
    row: LockRow<KeptShelf<D, N>>,
}

// The site of these shelves, with this fuel for a visit and with room for what it hands back.
fn site_of<D: Disk, N: Nonces + Drop>(
    locked: Locked<D, N>,
    fuel: u64,
    disks: Vec<D>,
    nonces: Vec<N>,
    histories: Vec<History<KeptEntry>>,
) -> Site<D, N>
    ensures { result ≡ site_of locked fuel disks nonces histories }
{
    let Locked { libraries, row } = locked;
    Site {
        libraries,
        fuel,
        row,
        disks,
        nonces,
        histories,
    }
}

// Copies of what the journals of shelves told, in their order.
fn copies<D: Disk, N: Nonces + Drop>(
    alloc: Global,
    shelves: &[KeptShelf<D, N>],
) -> Result<Vec<Library>, AllocError>
    ensures { IfOk result (AreCopies shelves.now) }
{
    let mut libraries = Vec::with_capacity(alloc, shelves.len())?;
    for shelf in shelves {
        libraries.push_reserved(shelf.library(alloc)?);
    }
    Ok(libraries)
}

// Puts shelves that have no entry yet behind locks. Where memory ends they are handed back.
fn lock_all<R: Wait, D: Disk, N: Nonces + Drop>(
    rt: &R,
    alloc: Global,
    shelves: Vec<KeptShelf<D, N>>,
) -> Result<Locked<D, N>, Vec<KeptShelf<D, N>>>
    requires fresh { AreFresh D.view D.tells N.nonce shelves.items }
    ensures locked { IfOk result (AreLocked shelves.items) }
    ensures back { IfErr result (λ ks. shelves_of ks.items ≡ shelves_of shelves.items) }
    ensures many { IfErr result (λ ks. vec_len ks ≡ vec_len shelves) }
{
    let Ok(libraries) = copies(alloc, &shelves) else {
        return Err(shelves);
    };
    match LockRow::new(rt, alloc, shelves, MOST_WORKERS) {
        Ok(row) => Ok(Locked { libraries, row }),
        Err(shelves) => Err(shelves),
    }
}

// Closes shelves, and puts their disks and sources after the others, those of the last shelf first.
fn give_back<D: Disk, N: Nonces + Drop>(
    mut shelves: Vec<KeptShelf<D, N>>,
    disks: &mut Vec<D>,
    nonces: &mut Vec<N>,
)
    requires room { HaveRoom (vec_len shelves) disks.old nonces.old }
    ensures disks { disks.new.items ≡ disks.old.items ++ reverse (disks_of shelves.items) }
    ensures nonces { nonces.new.items ≡ nonces.old.items ++ reverse (nonces_of shelves.items) }
    ensures room { KeepRoom disks.old nonces.old disks.new nonces.new }
{
    while let Some(shelf) = shelves.pop() {
        let (disk, source, _) = shelf.close();
        disks.push_reserved(disk);
        nonces.push_reserved(source);
    }
    shelves.destroy_empty();
}

// What was not begun, with disks and sources that were turned.
fn handed<D, N>(
    mut disks: Vec<D>,
    mut nonces: Vec<N>,
    shelf: u32,
    fault: BeginFault,
) -> SiteFault<D, N>
    ensures disks { result.disks.items ≡ reverse disks.items }
    ensures nonces { result.nonces.items ≡ reverse nonces.items }
    ensures fault { (result.shelf ≡ shelf) × (result.fault ≡ fault) }
{
    disks.reverse();
    nonces.reverse();
    SiteFault {
        shelf,
        fault,
        disks,
        nonces,
    }
}
