ghost use Rattle.std.specs.Prelude.{◌≡◌};
ghost use Rattle.shelf.specs.Ranges.{numbered};

use crate::rules::Rules;

impl Rules {
    /// These limits, for the shelf of this number.
    pub fn numbered(self, number: u32) -> Rules
        ensures { result ≡ numbered self number }
    {
        Rules {
            number,
            shelves: self.shelves,
            fuel: self.fuel,
            life: self.life,
            instances: self.instances,
            pages: self.pages,
        }
    }
}
