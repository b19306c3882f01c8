ghost use Rattle.std.specs.Prelude.{◌≡◌, ◌+◌, ◌^◌, ◌<◌, ℕ, IfOk, replicate};
ghost use Rattle.web_outside.specs.Counted.{from_zero};

use std::alloc::{AllocFailed, Global};

/// A source of nonces, the numbers that make page names hard to guess.
pub trait Nonces {
    /// Each nonce by its place from now, the next one being of place 0.
    ghost nonce: { Self → ℕ → ℕ };

    /// The next nonce.
    fn next(&mut self) -> u64
        ensures first { result ≡ nonce self.old 0 }
        ensures rest { (k : ℕ) → nonce self.new k ≡ nonce self.old (k + 1) };

    /// A source of the same nonces; it takes no memory.
    fn again(&self) -> Self
        ensures { (k : ℕ) → nonce result k ≡ nonce self.now k };
}

/// The nonces 0, 1, 2 and so on; after the last number of 64 bits it begins at 0 again.
#[derive(Clone, Copy, Debug, PartialEq, Eq)]
pub struct Counting {
    next: u64,
}

impl Counting {
    ghost use Rattle.web_outside.specs.Counted.{counted};

    /// From 0 on.
    pub fn new() -> Counting
        ensures { (k : ℕ) → k < 2 ^ 64 → counted result k ≡ k }
    {
        Counting { next: 0 }
    }
}

impl Nonces for Counting {
    ghost use Rattle.web_outside.specs.Counted.{counted};

    ghost nonce = { counted };

    fn next(&mut self) -> u64 {
        let nonce = self.next;
        self.next = nonce.wrapping_add(1);
        nonce
    }

    fn again(&self) -> Counting {
        *self
    }
}

// So many counters from 0 on.
pub(crate) fn counters(alloc: Global, count: u32) -> Result<Vec<Counting>, AllocFailed<Counting>>
    ensures { IfOk result (λ counters. counters.items ≡ replicate count from_zero) }
{
    let mut counters = Vec::new(alloc);
    for _ in 0..count {
        counters.push(Counting { next: 0 })?;
    }
    Ok(counters)
}
