use instance_cells::Effect;
use machine_states::Suspended;
use script_nodes::SendKind;
use script_value::TxName;

/// A page that a segment showed, with what its segment did.
#[derive(Drop)]
pub struct ShownPage {
    pub kind: SendKind,
    pub effects: Vec<Effect>,
    /// The transactions that it is inside, the outermost first.
    pub inside: Vec<TxName>,
    pub left: Vec<TxName>,
    /// From this tick on it can't be answered, in seconds.
    pub deadline: u64,
    pub state: Suspended,
}
