ghost use Rattle.std.specs.Prelude.{◌<◌};
ghost use Rattle.test_requests.specs.Any.{any_rules};

use http_forms::Answering;
use page_names::Target;
use script_value::{Bytes, Fault, Reply, Value};
use std::alloc::{AllocError, Global};
use web_outside::Gate;

/// Answers each start with a page, and each page with a fault.
pub struct Counter;

/// What was asked of a counter.
#[derive(Drop)]
pub struct Asked {
    /// How many visits were made.
    pub visits: u64,
    /// How many bindings the last visit had.
    pub bindings: usize,
    /// The ticks, in order.
    pub ticks: Vec<u64>,
    /// From so many ticks on there is no memory for the list of answers.
    pub room: usize,
}

impl Asked {
    /// Nothing yet.
    pub fn nothing(alloc: Global, room: usize) -> Asked {
        Asked {
            visits: 0,
            bindings: 0,
            ticks: Vec::new(alloc),
            room,
        }
    }
}

fn page(alloc: Global) -> Reply {
    match b"<p>12345</p>".as_slice().to_vec(alloc) {
        Ok(bytes) => Reply::Finished(Bytes::new(bytes)),
        Err(_) => Reply::Memory,
    }
}

impl Answering for Counter {
    type Pass = Asked;

    ghost rules = { λ _. any_rules };

    fn visit<G: Gate>(
        &self,
        alloc: Global,
        pass: &mut Asked,
        target: &Target,
        answer: Value,
        gate: &G,
    ) -> Reply {
        gate.pass(pass.visits);
        pass.visits = pass.visits.saturating_add(1);
        if let Value::List(bindings) = answer {
            pass.bindings = bindings.len();
        }
        match target {
            Target::Start(_) => page(alloc),
            Target::Page(_, _) => Reply::Fault(Fault::Binding),
        }
    }

    fn tick(
        &self,
        alloc: Global,
        pass: &mut Asked,
        tick: u64,
    ) -> Result<Vec<Result<u32, Reply>>, AllocError> {
        pass.ticks.push(tick)?;
        if pass.ticks.len() > pass.room {
            return Err(AllocError);
        }
        Ok(Vec::new(alloc))
    }
}
