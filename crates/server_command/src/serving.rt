ghost use Rattle.std.specs.Prelude.{◌≡◌, ◌≤◌, length, IfErr, IfOk, IsErrOf, OnOk};
ghost use Rattle.web_outside.specs.Causes.{Rose};
ghost use Rattle.script_nodes.specs.Views.{scripts_of};
ghost use Rattle.server_limits.specs.Counts.{most_scripts};
ghost use Rattle.setup_reader.specs.Limits.{AreShort};
ghost use Rattle.setup_reader.specs.Texts.{IsReadSetup};
ghost use Rattle.play_desk.specs.declared.opening.OpenFault.{OpenFault};
ghost use Rattle.server_command.specs.declared.auditing.AuditEnd.{AuditEnd};
ghost use Rattle.server_command.specs.Command.{IsSetupOf, TellsNoSetup};
ghost use Rattle.server_command.specs.Output.{Hands, sinks_of};
ghost use Rattle.server_command.specs.Serving.{AreDrawn, told_as, watch_of};

use crate::auditing::AuditEnd;
use crate::program::Status;
use crate::telling::{no_memory, tell_fault};
use command_words::Service;
use play_desk::OpenFault;
use request_workers::Tally;
use script_nodes::Setup;
use setup_reader::{Ending, Parsed, SetupFault};
use site_serving::{ServingFault, Watch};
use std::alloc::Global;
use web_outside::{Nonces, SeedFault, Seeds, Sink};

/// Why a serving came to no counts.
#[derive(Clone, Copy, Debug, PartialEq, Eq)]
pub enum ServeFault {
    /// The seeds failed.
    Key,
    /// A shelf was not opened.
    Shelf(OpenFault),
    /// Audits ended at a shelf.
    Audit(AuditEnd),
    /// The door failed, or a porch.
    Door,
    /// Memory ran out.
    Memory,
}

/// What the service asks of its door.
pub(crate) fn watch_of(service: &Service) -> Watch
    ensures { result ≡ watch_of service.now }
{
    Watch {
        port: service.port,
        workers: service.workers,
        connections: service.connections,
        requests: service.requests,
    }
}

/// What was counted, or why nothing was, as the command tells it.
pub(crate) fn told_as(outcome: Result<Tally, ServingFault>) -> Result<Tally, ServeFault>
    ensures { result ≡ told_as outcome }
{
    match outcome {
        Ok(tally) => Ok(tally),
        Err(ServingFault::Door) => Err(ServeFault::Door),
        Err(ServingFault::Memory) => Err(ServeFault::Memory),
    }
}

/// The sources of nonces that the seeds give, one for each shelf.
pub(crate) fn draw_sources<N: Nonces + Drop, S: Seeds<N>>(
    alloc: Global,
    seeds: &mut S,
    count: u32,
) -> Result<Vec<N>, ServeFault>
    ensures count { IfOk result (λ sources. length sources.items ≡ count) }
    ensures drawn { IfOk result (λ sources. AreDrawn (S.view seeds.old) count sources.items) }
    ensures key { IsErrOf result ServeFault.Key →
        Rose (S.view seeds.old).faults (S.view seeds.new).faults }
    ensures later { (S.view seeds.old).faults ≤ (S.view seeds.new).faults }
    ensures other { IsErrOf result ServeFault.Door → ⊥ }
    ensures none { (f : OpenFault) → IsErrOf result (ServeFault.Shelf f) → ⊥ }
    ensures unaudited { (end : AuditEnd) → IsErrOf result (ServeFault.Audit end) → ⊥ }
{
    match seeds.draw(alloc, count) {
        Ok(sources) => Ok(sources),
        Err(SeedFault::Failed) => Err(ServeFault::Key),
        Err(SeedFault::Memory) => Err(ServeFault::Memory),
    }
}

/// Parses a setup that is a whole input, and tells why it is none.
pub(crate) fn parse_setup<O: Sink>(
    alloc: Global,
    bytes: &[u8],
    output: &mut O,
) -> Result<Setup, Status>
    ensures setup { IfOk result (λ setup. IsSetupOf bytes.now (scripts_of setup)) }
    ensures few { IfOk result (λ setup. length (scripts_of setup) ≤ most_scripts) }
    ensures short { IfOk result (λ setup. AreShort (scripts_of setup)) }
    ensures read { IfOk result (λ setup. IsReadSetup (scripts_of setup)) }
    ensures none { IfErr result (TellsNoSetup bytes.now
        (sinks_of (O.view output.old) (O.view output.new))) }
    ensures same { OnOk result (output.new ≡ output.old) }
    ensures hands { IfErr result (λ how. Hands how (O.view output.old) (O.view output.new)) }
{
    match Parsed::parse(alloc, Ending::Input, bytes) {
        Ok(parsed) => {
            let Parsed { setup, steps: _ } = parsed;
            Ok(setup)
        }
        Err(SetupFault::At(error)) => Err(tell_fault(alloc, &error, output)),
        Err(SetupFault::Memory) => Err(no_memory(output)),
    }
}
