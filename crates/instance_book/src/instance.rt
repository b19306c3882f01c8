use crate::in_order::InOrder;
use crate::page::KeptPage;
use instance_cells::Cells;
use transactions::Closed;

/// What is kept of a run of a script, under its number.
#[derive(Drop)]
pub struct KeptInstance {
    /// The place of the script among all that the journal told.
    pub script: usize,
    pub cells: Cells,
    pub closed: Closed,
    /// The numbers of the pages that a forward has revoked.
    pub revoked: InOrder<()>,
    pub pages: InOrder<KeptPage>,
}
