//! Nodes that are put after each other.

ghost use Rattle.std.specs.Prelude.{◌≡◌, ◌≤◌, ◌∷◌, [], length, slice_set};
ghost use Rattle.core_syntax.specs.Laid.{Puts};
ghost use Rattle.core_syntax.specs.Limits.{most_nodes};

use script_nodes::Node;
use std::alloc::{AllocError, AllocFailed, Global};
use std::marker::Model;
use std::mem;

/// Why a tree was not laid out.
#[derive(Clone, Copy)]
pub enum LayFault {
    /// Memory ran out.
    Memory,
    /// A node was too many, or nested too deep.
    TooMany,
}

impl From<AllocError> for LayFault {
    ghost use Rattle.core_syntax.specs.declared.nodes.LayFault.TheVariants.{Memory};

    ghost from_gives = { λ _ e. e ≡ Memory };

    fn from(_e: AllocError) -> LayFault {
        LayFault::Memory
    }
}

impl<T: Drop> From<AllocFailed<T>> for LayFault {
    ghost use Rattle.core_syntax.specs.declared.nodes.LayFault.TheVariants.{Memory};

    ghost from_gives = { λ _ e. e ≡ Memory };

    fn from(_e: AllocFailed<T>) -> LayFault {
        LayFault::Memory
    }
}

/// The most nodes of a script.
const NODE_LIMIT: usize = 16_384;

/// At most 16,384 nodes.
#[derive(Drop)]
pub struct Nodes {
    nodes: Vec<Node>,
}

impl Model for Nodes {
    ghost use Rattle.std.specs.Prelude.{List, length, ◌≤◌};
    ghost use Rattle.std.specs.Coded.{coded_list};
    ghost use Rattle.core_syntax.specs.Limits.{most_nodes};
    ghost use Rattle.script_nodes.specs.contracts.script.Node as node_type;
    ghost use Rattle.script_nodes.specs.declared.script.Node.{Node as NodeOf};

    ghost Value = { List NodeOf };

    ghost coded = { coded_list node_type.the_row.coded };

    ghost view = { λ s. s.nodes.items };

    ghost invariant = { λ s. length s.nodes.items ≤ most_nodes };
}

impl Nodes {
    /// No nodes.
    pub fn new(alloc: Global) -> Nodes
        ensures { result ≡ [] }
    {
        Nodes {
            nodes: Vec::new(alloc),
        }
    }

    /// The number of the next node.
    pub fn next_number(&self) -> u32
        ensures number { result ≡ length self.now }
        ensures small { result ≤ most_nodes }
    {
        self.nodes.len() as u32
    }

    /// Puts a node after the others, where `left` levels may still nest, and gives its number.
    pub fn push(&mut self, left: u32, node: Node) -> Result<u32, LayFault>
        ensures { Puts result self.old self.new left (node ∷ []) 1 1 }
    {
        if left == 0 || self.nodes.len() >= NODE_LIMIT {
            return Err(LayFault::TooMany);
        }
        let number = self.next_number();
        self.nodes.push(node)?;
        Ok(number)
    }

    /// Writes a node in the place of another.
    pub fn write(&mut self, number: u32, node: Node)
        ensures written { self.new ≡ slice_set self.old number node }
        ensures count { length self.new ≡ length self.old }
    {
        let place = number as usize;
        if place < self.nodes.len() {
            drop(mem::replace(&mut self.nodes[place], node));
        }
    }

    /// The nodes.
    pub fn into_vec(self) -> Vec<Node>
        ensures { result.items ≡ self }
    {
        self.nodes
    }
}
