use kept_states::{KeptState, Suspended};
use script_value::TxName;

/// What a page has that its record does not tell: its transactions and its state.
#[derive(Drop)]
pub struct ShownState {
    /// The transactions that it is inside, the outermost first.
    pub inside: Vec<TxName>,
    pub state: Suspended,
    /// What is kept of the state.
    pub kept: KeptState,
}
