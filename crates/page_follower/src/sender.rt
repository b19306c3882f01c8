ghost use Rattle.std.specs.Prelude.{◌≡◌, ◌<◌, ◌^◌, false, length};
ghost use Rattle.page_follower.specs.Sending.{SendsBody};

use crate::writing::write_record;
use shelf::{Sink, Take, is_role};

/// Writes the records of a journal as those of a feed, one by one.
#[derive(Drop)]
pub struct Sender<'a, O> {
    sink: &'a mut O,
    // A write failed, and nothing is written after it.
    failed: bool,
}

impl<'a, O: Sink> Sender<'a, O> {
    /// No write failed yet.
    pub fn new(sink: &'a mut O) -> Sender<'a, O>
        ensures same_reference { result.sink.ghost_name ≡ sink.entry.ghost_name }
        ensures sink { result.sink.now ≡ sink.old }
        ensures failed { result.failed ≡ false }
    {
        Sender {
            sink,
            failed: false,
        }
    }

    /// Whether a write failed.
    pub fn failed(&self) -> bool
        ensures { result ≡ self.now.failed }
    {
        self.failed
    }

    // Writes a record, after writes of which none failed.
    fn send(&mut self, body: &[u8])
        requires { length body.now < 2 ^ 32 }
        ensures same_reference { self.new.sink.ghost_name ≡ self.old.sink.ghost_name }
        ensures sent { SendsBody (O.view self.old.sink.now) (O.view self.new.sink.now) body.now
            self.new.failed }
    {
        self.failed = write_record(self.sink, body).is_err();
    }
}

impl<O: Sink> Take for Sender<'_, O> {
    ghost use Rattle.std.specs.Prelude.{⊤};
    ghost use Rattle.page_follower.specs.Sending.{SenderTakes};

    ghost takes = { SenderTakes O.view };

    ghost ready = { λ sender place. ⊤ };

    fn body(&mut self, place: u64, body: &[u8]) {
        let _ = place;
        if !self.failed && !is_role(body) {
            self.send(body);
        }
    }
}
