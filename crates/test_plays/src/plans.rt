use crate::racks::RackPlan;
use crate::streets::Street;
use std::alloc::{AllocError, Global};

/// How the next run is treated: what its rack holds, and what else comes to it.
#[derive(Drop)]
pub struct Plan {
    pub rack: RackPlan,
    pub street: Street,
}

impl Plan {
    /// All disks are empty, no link comes, and nothing fails.
    pub fn new(alloc: Global) -> Plan {
        Plan {
            rack: RackPlan::new(alloc),
            street: Street::new(alloc),
        }
    }

    /// Takes a line that says something of disks or of what else comes.
    pub fn line(&mut self, alloc: Global, word: &str, rest: &str) -> Result<(), AllocError> {
        self.rack.line(alloc, word, rest)?;
        self.street.line(alloc, word, rest)
    }
}
