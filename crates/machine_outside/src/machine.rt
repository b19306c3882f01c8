// The machine's clock, and nonces from its randomness.
ghost use Rattle.std.specs.Prelude.{◌≡◌, None, IfOk, IsErrOf, vec_len};
ghost use Rattle.machine_outside.specs.Stream.{stream_nonce};
ghost use Rattle.machine_outside.specs.Streams as spec;

use rand_chacha::ChaCha20Rng;
use rand_core::SeedableRng;
use rand_core::utils::NextWord;
use std::alloc::Global;
use std::fs;
use std::fs::Files;
use std::io::{self, Read};
use std::time::SystemTime;
use web_outside::{Clock, Nonces, SeedFault, Seeds};

/// The machine's clock. Before 1970, and where it cannot be read, it shows 0.
#[derive(Drop)]
pub struct MachineClock<'r, R> {
    pub rt: &'r R,
}

impl<R: std::time::Clock> Clock for MachineClock<'_, R> {
    ghost shows = { λ _. None };

    fn now(&self) -> u64 {
        match SystemTime::now(self.rt) {
            Ok(time) => match time.duration_since(SystemTime::UNIX_EPOCH) {
                Ok(since) => since.as_secs(),
                Err(_) => 0,
            },
            Err(_) => 0,
        }
    }
}

/// The nonces of one stream of a key: each is two words of ChaCha20, the first the upper half.
#[derive(Drop)]
pub struct StreamNonces {
    words: ChaCha20Rng,
}

impl StreamNonces {
    /// The nonces of the words of a generator, from its next word on.
    pub fn new(words: ChaCha20Rng) -> StreamNonces
        ensures { result.words ≡ words }
    {
        StreamNonces { words }
    }
}

impl Nonces for StreamNonces {
    ghost nonce = { λ s k. stream_nonce s.words k };

    fn next(&mut self) -> u64 {
        let high = u64::from(self.words.next_word());
        let low = u64::from(self.words.next_word());
        high * 0x1_0000_0000 + low
    }

    fn again(&self) -> StreamNonces {
        match self.words.clone() {
            Ok(words) => StreamNonces::new(words),
            Err(_) => unreachable!(),
        }
    }
}

/// Draws sources from a fresh key: stream 0 of it, stream 1 and so on.
#[derive(Drop)]
pub struct MachineSeeds<'r, R> {
    pub rt: &'r R,
    pub faults: u64,
}

// A key of 32 bytes of the machine's randomness.
fn fresh_key<R: Files>(rt: &R) -> io::Result<[u8; 32]> {
    let mut key = [0u8; 32];
    fs::open(rt, "/dev/urandom")?.read_exact(&mut key)?;
    Ok(key)
}

// So many sources: stream 0 of the key, stream 1 and so on.
fn sources_of(alloc: Global, key: [u8; 32], count: u32) -> Result<Vec<StreamNonces>, SeedFault>
    ensures sources { IfOk result (λ sources. sources.items ≡ spec.sources_of key count) }
    ensures count { IfOk result (λ sources. vec_len sources ≡ count) }
    ensures failed { IsErrOf result SeedFault.Failed → ⊥ }
{
    let mut sources = Vec::new(alloc);
    for stream in 0..count {
        let mut words = ChaCha20Rng::from_seed(key);
        words.set_stream(u64::from(stream));
        sources.push(StreamNonces { words })?;
    }
    Ok(sources)
}

impl<R: Files + Eprint> Seeds<StreamNonces> for MachineSeeds<'_, R> {
    ghost view = { λ s. record { gives = λ _. None; faults = s.faults } };

    fn faults(&self) -> u64 {
        self.faults
    }

    fn draw(&mut self, alloc: Global, count: u32) -> Result<Vec<StreamNonces>, SeedFault> {
        match fresh_key(self.rt) {
            Ok(key) => sources_of(alloc, key, count),
            Err(fault) => {
                let _ = eprintln!(self.rt; "cannot draw a key: {fault}");
                self.faults = self.faults.saturating_add(1);
                Err(SeedFault::Failed)
            }
        }
    }
}
