use shelf::BeginFault;

/// Why a site was not begun, and all that it was given.
#[derive(Drop)]
pub struct SiteFault<D, N> {
    /// The shelf that was not opened. Where memory ended for all shelves together, it is the first.
    pub shelf: u32,
    pub fault: BeginFault,
    /// The disks, in the order of their shelves.
    pub disks: Vec<D>,
    /// The sources of nonces, in the order of their shelves.
    pub nonces: Vec<N>,
}
