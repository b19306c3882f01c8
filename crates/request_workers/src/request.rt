ghost use Rattle.std.specs.Prelude.{◌≤◌, IsErrOf};
ghost use Rattle.web_outside.specs.Causes.{Rose};
ghost use Rattle.request_workers.specs.Requests.{Comes};

use crate::read::read_bytes;
use http_forms::{Incoming, ReadStop, RequestScanner, incoming_of};
use std::alloc::Global;
use web_outside::Source;

/// Reads the bytes of one request, and not one too many.
pub(crate) fn read_request<S: Source>(alloc: Global, source: &mut S) -> Result<Incoming, ReadStop>
    ensures came { Comes (S.view source.old).left (S.view source.new).left result }
    ensures failed { IsErrOf result ReadStop.Failed →
        Rose (S.view source.old).faults (S.view source.new).faults }
    ensures later { (S.view source.old).faults ≤ (S.view source.new).faults }
{
    let mut bytes = Vec::new(alloc);
    let mut scanner = RequestScanner::new();
    let ended = read_bytes(source, &mut scanner, &mut bytes)?;
    incoming_of(alloc, &scanner, &bytes, ended)
}
