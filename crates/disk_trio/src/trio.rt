ghost use Rattle.disk_trio.specs.Naming.{IsNamed};

use crate::side::Side;
use ghost_history::Past;
use std::snapshot::Snapshot;
use web_disk::Disk;

/// Three disks as they were at a moment; it has no bytes.
#[derive(Drop)]
pub struct Moment<D> {
    pub(crate) side: Side,
    pub(crate) current: Snapshot<D>,
    pub(crate) other: Snapshot<D>,
    pub(crate) root: Snapshot<D>,
}

/// Two files, and a root whose first byte names the current one of them; an empty root names a.
#[derive(Drop)]
pub struct Disks<D: Disk> {
    pub(crate) current: D,
    pub(crate) other: D,
    pub(crate) root: D,
    // Which one `current` is.
    pub(crate) side: Side,
    // Whatever a crash leaves of the root names that one.
    pub(crate) known: bool,
    // What a crash might have left at each earlier moment.
    pub(crate) past: Snapshot<Past<Moment<D>>>,
    ghost named: { IsNamed D.tells D.view known side root },
}
