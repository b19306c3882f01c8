ghost use Rattle.std.specs.Prelude.{◌≡◌};
ghost use Rattle.web_disk.specs.Change.{is_touched};
ghost use Rattle.web_disk.specs.Wrecks.{is_lost, sound_end, IsFilled, IsLeft};

use crate::trace::Span;

/// What a crash makes of the places that were written or cut since the last sync.
#[derive(Clone, Copy, Debug, PartialEq, Eq)]
pub struct Wreck {
    /// Those below this place hold what was written.
    pub reached: u64,
    /// Each other one is lost: it holds this byte.
    pub fill: u8,
    /// Whether lost places at the end are gone.
    pub short: bool,
}

fn touches(spans: &[Span], place: u64) -> bool
    ensures { result ≡ is_touched spans.now place }
{
    spans
        .iter()
        .any(|span| span.low <= place && place < span.high)
}

impl Wreck {
    fn loses(&self, touched: &[Span], place: u64) -> bool
        ensures { result ≡ is_lost self.now touched.now place }
    {
        touches(touched, place) && self.reached <= place
    }

    // Puts the byte into each lost place.
    fn fill(&self, bytes: &mut Vec<u8>, touched: &[Span])
        ensures { IsFilled self.now touched.now bytes.old.items bytes.new.items }
    {
        for i in 0..bytes.len() {
            if self.loses(touched, i as u64) {
                bytes[i] = self.fill;
            }
        }
    }

    // The length without the lost places at the end.
    fn sound_end(&self, touched: &[Span], len: usize) -> usize
        ensures { result ≡ sound_end self.now touched.now len }
    {
        let mut end = len;
        while end > 0 {
            if !self.loses(touched, end as u64 - 1) {
                return end;
            }
            end -= 1;
        }
        end
    }

    /// Makes of these bytes what such a crash leaves, where these places were touched.
    pub(crate) fn leave(&self, bytes: &mut Vec<u8>, touched: &[Span])
        ensures { IsLeft self.now touched.now bytes.old.items bytes.new.items }
    {
        self.fill(bytes, touched);
        if self.short {
            let end = self.sound_end(touched, bytes.len());
            bytes.truncate(end);
        }
    }
}
