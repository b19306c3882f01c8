use script_value::Value;

/// A node to visit, or a value to give.
#[derive(Drop)]
pub enum Control {
    /// The node of a number.
    Visit(u32),
    /// A value for the innermost frame.
    Give(Value),
}
