//! The 64-bit FNV-1a hash of bytes that come in pieces, none of which is kept.
//!
//! Source: The FNV Non-Cryptographic Hash Algorithm, Internet-Draft draft-eastlake-fnv.

ghost use Rattle.std.specs.Prelude.{◌≡◌, ◌++◌, ℕ, List, [], IfOk, string_bytes};
ghost use Rattle.measured_run.specs.Fnv.{HashGoesOn, mixed, goes_on, fnv1a};
ghost use Rattle.page_names.specs.Hex.{hex16};

use std::alloc::{AllocError, Global};
use std::marker::Model;

/// The hash of no bytes.
const OFFSET: u64 = 14_695_981_039_346_656_037;

/// What a hash is multiplied by.
const PRIME: u64 = 1_099_511_628_211;

/// The hash of the bytes that came so far.
#[derive(Drop)]
pub struct Fnv1a {
    hash: u64,
}

impl Model for Fnv1a {
    ghost use Rattle.std.specs.Prelude.{ℕ};

    ghost Value = { ℕ };

    ghost view = { λ f. f.hash };
}

impl Fnv1a {
    /// The hash before any byte came.
    pub fn new() -> Fnv1a
        ensures { result ≡ fnv1a [] }
    {
        Fnv1a { hash: OFFSET }
    }

    /// Goes on over these bytes.
    pub fn update(&mut self, bytes: &[u8])
        ensures hashed { self.new ≡ goes_on self.old bytes.now }
        ensures joined { (before : List ℕ)
            → self.old ≡ fnv1a before → self.new ≡ fnv1a (before ++ bytes.now) }
    {
        for byte in bytes {
            self.hash = mixed(self.hash, *byte);
        }
    }

    /// The hash of the bytes that came so far.
    pub fn value(&self) -> u64
        ensures { result ≡ self.now }
    {
        self.hash
    }
}

// One byte more.
#[tactic(auto, unfolding(crate::specs::Fnv::mixed))]
fn mixed(hash: u64, byte: u8) -> u64
    ensures { result ≡ mixed hash byte }
{
    (hash ^ u64::from(byte)).wrapping_mul(PRIME)
}

/// A hash in 16 hexadecimal digits, those above 9 in lower case.
#[tactic(auto, using(page_names::proofs::Hex::hex_written))]
pub fn hex_digits(alloc: Global, hash: u64) -> Result<String, AllocError>
    ensures { IfOk result (λ text. string_bytes text ≡ hex16 hash) }
{
    format!(in alloc; "{hash:016x}")
}

/// The hash of bytes in two pieces is that of the second, from the hash of the first.
pub fn hash_goes_on()
    ensures { HashGoesOn }
{}
