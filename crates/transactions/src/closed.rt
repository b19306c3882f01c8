ghost use Rattle.std.specs.Prelude.{◌≡◌, List, [], ◌∷◌, ◌++◌, IfOk, OnOk, OnErr};
ghost use Rattle.machine_states.specs.ReplaySpec.Names.{has};

use script_value::TxName;
use std::alloc::{AllocError, Global};
use std::collections::BTreeSet;
use std::marker::Model;

/// The names of closed transactions, in the order in which they were closed, and a set of them.
#[derive(Drop)]
pub struct Closed {
    names: Vec<TxName>,
    set: BTreeSet<(u64, u32)>,
}

impl Model for Closed {
    ghost use Rattle.std.specs.Prelude.{List};
    ghost use Rattle.script_value.specs.declared.outcome.TxName.{TxName};
    ghost use Rattle.transactions.specs.Sets.{HasJust};

    ghost Value = { List TxName };

    ghost view = { λ c. c.names.items };

    ghost invariant = { λ c. HasJust c.set c.names.items };
}

impl Closed {
    /// No transaction.
    pub fn new(alloc: Global) -> Closed
        ensures { result ≡ [] }
    {
        Closed {
            names: Vec::new(alloc),
            set: BTreeSet::new(alloc),
        }
    }

    /// Whether a transaction is closed; it takes no memory.
    pub fn has(&self, name: &TxName) -> bool
        ensures { result ≡ has name.now self.now }
    {
        self.set.contains(&(name.ticket, name.entry))
    }

    /// One more transaction is closed; where memory runs out, nothing changes.
    pub fn add(&mut self, name: TxName) -> Result<(), AllocError>
        ensures ok { OnOk result (self.new ≡ self.old ++ name ∷ []) }
        ensures err { OnErr result (self.new ≡ self.old) }
    {
        self.names.try_reserve(1)?;
        self.set.insert((name.ticket, name.entry))?;
        self.names.push(name)?;
        Ok(())
    }

    /// A copy, equal to its source.
    pub fn try_clone(&self, alloc: Global) -> Result<Closed, AllocError>
        ensures { IfOk result (λ copy. copy ≡ self.now) }
    {
        let mut copy = Closed::new(alloc);
        for name in &self.names {
            copy.add(*name)?;
        }
        Ok(copy)
    }
}
