ghost use Rattle.std.specs.Prelude.{◌<◌, ◌≤◌, ◌^◌, ℕ, Contains, length};

use crate::in_order::InOrder;
use crate::instance::KeptInstance;

/// The book of one shelf.
#[derive(Drop)]
pub struct Book {
    pub(crate) shelf: u32,
    pub(crate) clock: u64,
    pub(crate) drawn: u64,
    pub(crate) logged: u64,
    pub(crate) out: Vec<u64>,
    pub(crate) instances: InOrder<KeptInstance>,
    ghost ticks: { clock < 2 ^ 62 },
    ghost numbers: { drawn ≤ 2 ^ 62 },
    ghost few: { length instances.things.items < 2 ^ 32 },
    ghost below: { (n : ℕ) → Contains out.items n → n < drawn },
}
