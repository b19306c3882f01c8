ghost use Rattle.std.specs.Prelude.{◌≡◌, ◌<◌, ◌^◌, IfOk};
ghost use Rattle.send_suspend.specs.MachineStates.Fits.{Fits};
ghost use Rattle.send_suspend.specs.MachineStates.Views.{Keeps};
ghost use Rattle.send_suspend.specs.Segments.{FitsFrom, IsConsistent, ReplaysNewest};

use instance_cells::Cells;
use script_nodes::Script;
use script_value::{Str, Value};
use send_suspend::{Origin, Segment, Steps, run_segment};
use std::alloc::{AllocError, Global};
use std::marker::Brand;
use std::sync::ledger::{Blank, Ledger};

// The segment, over a ledger of its own for its steps.
fn uncounted<L: Ledger>(
    alloc: Global,
    blank: Blank,
    script: &Script,
    from: Origin,
    answer: &Value,
    cells: &Cells,
    number: u64,
    url: &Str,
    fuel: u64,
) -> Result<Segment, AllocError>
    requires name { blank.name ≡ L.name }
    requires parts { blank.parts ≡ L.parts }
    requires one { blank.parts ≡ 1 }
    requires fits { FitsFrom script.now from }
    requires fuel { fuel < 2 ^ 63 }
    ensures replays { IfOk result
        (ReplaysNewest from script.now answer.now number url.now cells.now fuel) }
    ensures consistent { IfOk result (IsConsistent from script.now cells.now) }
    ensures kept { IfOk result (λ r. Keeps r.outcome (λ d. Fits script.now d)) }
{
    let (book, share) = blank.open::<L>();
    let mut steps = Steps::from_ledger(book, share);
    run_segment(
        alloc, script, from, answer, cells, number, url, fuel, &mut steps,
    )
}

/// Runs a segment of a script after an answer, over these cells, from what it goes on from. Nobody asks how many steps it takes.
pub fn run_from(
    alloc: Global,
    script: &Script,
    from: Origin,
    answer: &Value,
    cells: &Cells,
    number: u64,
    url: &Str,
    fuel: u64,
) -> Result<Segment, AllocError>
    requires fits { FitsFrom script.now from }
    requires fuel { fuel < 2 ^ 63 }
    ensures replays { IfOk result
        (ReplaysNewest from script.now answer.now number url.now cells.now fuel) }
    ensures consistent { IfOk result (IsConsistent from script.now cells.now) }
    ensures kept { IfOk result (λ r. Keeps r.outcome (λ d. Fits script.now d)) }
{
    uncounted::<Brand>(
        alloc,
        Blank::new(1),
        script,
        from,
        answer,
        cells,
        number,
        url,
        fuel,
    )
}
