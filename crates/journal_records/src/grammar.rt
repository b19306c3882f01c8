ghost use Rattle.std.specs.Prelude.{◌↔◌, ◌<◌, ◌+◌, IsTrue, length};
ghost use Rattle.script_nodes.specs.Views.{named_of, scripts_of};
ghost use Rattle.journal_records.specs.Fields.{ScriptFits};
ghost use Rattle.journal_records.specs.Records.{IsInGrammar, FitFrom, begin_of, renewal_of, text_of};

use script_nodes::{NamedScript, Setup};

// Tickets, instances, pages and clocks stay below this.
pub(crate) const NUMBERS_END: u64 = 1 << 62;

// Deadlines stay below this.
pub(crate) const DEADLINES_END: u64 = 1 << 63;

/// Whether a journal can begin with a setup: neither the scripts nor the bytes of one of their texts are 2^32 or more. It can tell it
/// later too, then. It takes no memory.
pub fn can_begin(shelf: u32, setup: &Setup) -> bool
    ensures begins { IsTrue result ↔ IsInGrammar (begin_of shelf (scripts_of setup.now)) }
    ensures renews { IsTrue result ↔ IsInGrammar (renewal_of (scripts_of setup.now)) }
{
    if setup.len() > u32::MAX as usize {
        return false;
    }
    for place in 0..setup.len() {
        if !place_fits(setup, place) {
            return false;
        }
    }
    true
}

// Whether the script of a place can be written, in front of those after it.
fn place_fits(setup: &Setup, place: usize) -> bool
    requires { place < length (scripts_of setup.now) }
    ensures { FitFrom place (scripts_of setup.now)
        ↔ (IsTrue result × FitFrom (place + 1) (scripts_of setup.now)) }
{
    match setup.get(place) {
        Some(named) => is_short(named),
        None => unreachable!(),
    }
}

fn is_short(named: &NamedScript) -> bool
    ensures { IsTrue result ↔ ScriptFits (text_of (named_of named.now)) }
{
    named.name.as_bytes().len() <= u32::MAX as usize && named.text.len() <= u32::MAX as usize
}
