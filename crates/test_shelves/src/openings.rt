ghost use Rattle.std.specs.Prelude.{true, IfOk};
ghost use Rattle.script_nodes.specs.Views.{scripts_of};
ghost use Rattle.disk_trio.specs.Trio.{trio_view};
ghost use Rattle.setup_reader.specs.Texts.{IsReadSetup};
ghost use Rattle.shelf.specs.Ranges.{AreInRange};
ghost use Rattle.shelf.specs.Views.{IsInOrder};

use crate::texts::{datum, target};
use disk_trio::Disks;
use journal_records::can_begin;
use script_nodes::Setup;
use script_value::{Reply, Value};
use shelf::{BeginFault, Rules, Shelf, run_ticket};
use std::alloc::Global;
use std::test::Fail;
use web_disk::{Disk, MemoryDisk, RepeatDisk};
use web_outside::Counting;

/// A shelf on disks in memory.
pub type MemoryShelf = Shelf<Disks<MemoryDisk>, Counting>;

/// A shelf on disks that repeat a block.
pub type LongShelf = Shelf<Disks<RepeatDisk>, Counting>;

const RULES: Rules = Rules {
    number: 7,
    shelves: 8,
    fuel: 100_000,
    life: 3_600,
    instances: 256,
    pages: 64,
};

/// The shelf of three disks under these rules; or why it was not opened, and the disks.
pub fn tried_under<F: Disk + Drop>(
    alloc: Global,
    disks: Disks<F>,
    setup: &Setup,
    rules: Rules,
) -> Result<Result<Shelf<Disks<F>, Counting>, (BeginFault, Disks<F>)>, Fail>
    requires read { IsReadSetup (scripts_of setup.now) }
    requires range { AreInRange rules }
    ensures { IfOk result (λ r. IfOk r (IsInOrder trio_view F.tells)) }
{
    if !can_begin(rules.number, setup) {
        return Err(Fail::from("no setup of a shelf"));
    }
    match Shelf::begin(alloc, disks.renew(), Counting::new(), setup, rules) {
        Ok(shelf) => Ok(Ok(shelf)),
        Err((fault, disks, _)) => Ok(Err((fault, disks))),
    }
}

/// The shelf of three disks under the rules of these tests; or why it was not opened, and the disks.
pub fn tried<F: Disk + Drop>(
    alloc: Global,
    disks: Disks<F>,
    setup: &Setup,
) -> Result<Result<Shelf<Disks<F>, Counting>, (BeginFault, Disks<F>)>, Fail>
    requires { IsReadSetup (scripts_of setup.now) }
    ensures { IfOk result (λ r. IfOk r (IsInOrder trio_view F.tells)) }
{
    tried_under(alloc, disks, setup, RULES)
}

// A disk in memory of these bytes.
fn memory_disk(alloc: Global, bytes: Vec<u8>) -> Result<MemoryDisk, Fail> {
    Ok(MemoryDisk::new(alloc, bytes, Vec::new(alloc))?)
}

/// This disk as the first of three; the others are empty.
pub fn with_others(alloc: Global, disk: MemoryDisk) -> Result<Disks<MemoryDisk>, Fail> {
    let other = memory_disk(alloc, Vec::new(alloc))?;
    let root = memory_disk(alloc, Vec::new(alloc))?;
    Ok(Disks::new(disk, other, root))
}

/// Three disks, the first of which has these bytes; the others are empty.
pub fn disks_of(alloc: Global, bytes: Vec<u8>) -> Result<Disks<MemoryDisk>, Fail> {
    with_others(alloc, memory_disk(alloc, bytes)?)
}

/// The shelf of disks whose first has these bytes, under these rules, which has to be opened.
pub fn reopened_under(
    alloc: Global,
    bytes: Vec<u8>,
    setup: &Setup,
    rules: Rules,
) -> Result<MemoryShelf, Fail>
    requires read { IsReadSetup (scripts_of setup.now) }
    requires range { AreInRange rules }
    ensures { IfOk result (IsInOrder trio_view true) }
{
    match tried_under(alloc, disks_of(alloc, bytes)?, setup, rules)? {
        Ok(shelf) => Ok(shelf),
        Err(_) => Err(Fail::from("no shelf")),
    }
}

/// The shelf of disks whose first has these bytes, under the rules of these tests, which has to be opened.
pub fn reopened(alloc: Global, bytes: Vec<u8>, setup: &Setup) -> Result<MemoryShelf, Fail>
    requires { IsReadSetup (scripts_of setup.now) }
    ensures { IfOk result (IsInOrder trio_view true) }
{
    reopened_under(alloc, bytes, setup, RULES)
}

/// The shelf of empty disks.
pub fn created(alloc: Global, setup: &Setup) -> Result<MemoryShelf, Fail>
    requires { IsReadSetup (scripts_of setup.now) }
    ensures { IfOk result (IsInOrder trio_view true) }
{
    reopened(alloc, Vec::new(alloc), setup)
}

/// What stands on the first disk of a shelf.
pub fn bytes_of(alloc: Global, shelf: MemoryShelf) -> Result<Vec<u8>, Fail> {
    let (disks, _nonces) = shelf.close();
    let (disk, _, _) = disks.close();
    Ok(disk.bytes().to_vec(alloc)?)
}

/// Closes a shelf whose disks are no longer wanted.
pub fn put_away(shelf: MemoryShelf) {
    let (_disks, _nonces) = shelf.close();
}

/// What a visit of a path with this answer is answered.
pub fn answered<D: Disk>(
    alloc: Global,
    shelf: &mut Shelf<D, Counting>,
    path: &str,
    answer: Value,
) -> Result<Reply, Fail>
    requires { IsInOrder D.view D.tells shelf.old }
    ensures { IsInOrder D.view D.tells shelf.new }
{
    let target = target(path)?;
    let ticket = match shelf.take(alloc, &target, answer) {
        Ok(ticket) => ticket,
        Err(reply) => return Ok(reply),
    };
    let fuel = shelf.rules().fuel;
    let segment = run_ticket(alloc, shelf.library(), &ticket, &ticket.cells, fuel)?;
    Ok(shelf.publish(alloc, ticket, Some(segment)))
}

/// The number that a start takes; none where the numbers are used up.
pub fn next_number(alloc: Global, shelf: &mut MemoryShelf) -> Result<Option<u64>, Fail>
    requires { IsInOrder trio_view true shelf.old }
{
    let target = target("/servlets/s")?;
    let answer = datum(alloc, "()")?;
    match shelf.take(alloc, &target, answer) {
        Ok(ticket) => Ok(Some(ticket.number)),
        Err(Reply::Worn) => Ok(None),
        Err(_) => Err(Fail::from("no ticket")),
    }
}
