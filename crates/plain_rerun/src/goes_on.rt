ghost use Rattle.std.specs.Prelude.{◌≡◌};
ghost use Rattle.script_value.specs.Val.{truth};
ghost use Rattle.script_value.specs.Views.{meaning};
ghost use Rattle.plain_rerun.specs.Parts.{passes, starts};

use script_value::Value;
use segment_progress::is_false;

/// Which values of parts let the next part go on: the last that was reached is the value of all.
#[derive(Clone, Copy)]
pub enum GoesOn {
    /// Any, as in a sequence.
    Always,
    /// One that is not #f, as in a conjunction.
    WhileTrue,
    /// #f alone, as in a disjunction.
    WhileFalse,
}

impl GoesOn {
    /// The value where there is no part.
    pub fn start(self) -> Value
        ensures { meaning result ≡ truth (starts self) }
    {
        match self {
            GoesOn::Always | GoesOn::WhileFalse => Value::Truth(false),
            GoesOn::WhileTrue => Value::Truth(true),
        }
    }

    /// Whether the next part goes on after this value.
    pub fn passes(self, value: &Value) -> bool
        ensures { result ≡ passes self (meaning value.now) }
    {
        match self {
            GoesOn::Always => true,
            GoesOn::WhileTrue => !is_false(value),
            GoesOn::WhileFalse => is_false(value),
        }
    }
}
