ghost use Rattle.std.specs.Prelude.{◌≡◌, ◌≤◌, true, false, Option, IfOk, IfSome};
ghost use Rattle.web_outside.specs.Causes.{HasCause};
ghost use Rattle.web_outside.specs.View.{PorchView};
ghost use Rattle.web_outside.specs.Porches.{GivesFirst, GainsLast, given_after, lent_after, EndsOnly};

use crate::{Failed, Link};
use server_limits::MOST_CONNECTIONS;

/// The most links that one porch gives.
pub const CONNECTION_LIMIT: u64 = MOST_CONNECTIONS;

/// Where one worker gets its links, one after the other.
pub trait Porch {
    /// What it gives.
    type Link: Link;

    /// What contracts see of it.
    ghost view: { Self → PorchView Self.Link };

    /// How often a call failed, up to the type's end.
    fn faults(&self) -> u64
        ensures { result ≡ (view self.now).faults };

    /// The next link; none once it gave as many as it may, or where the list of its links ends.
    fn next(&mut self) -> Result<Option<Self::Link>, Failed>
        ensures first { GivesFirst result (view self.old).coming (view self.new).coming }
        ensures given { (view self.new).given ≡ given_after result (view self.old).given }
        ensures lent { (view self.new).lent ≡ lent_after result (view self.old).lent }
        ensures bound { IfOk result (λ next.
            IfSome next (λ _. (view self.new).given ≤ (view self.new).most)) }
        ensures most { (view self.new).most ≡ (view self.old).most }
        ensures limit { (view self.new).most ≤ CONNECTION_LIMIT }
        ensures ended { EndsOnly result (view self.old).given (view self.old).most
            (view self.old).coming }
        ensures served { (view self.new).served ≡ (view self.old).served }
        ensures cause { HasCause (view self.old).faults (view self.new).faults result };

    /// Takes back the link that it gave last.
    fn back(&mut self, link: Self::Link)
        requires { (view self.old).lent ≡ true }
        ensures served { GainsLast (view self.old).served (view self.new).served link }
        ensures home { (view self.new).lent ≡ false }
        ensures coming { (view self.new).coming ≡ (view self.old).coming }
        ensures given { (view self.new).given ≡ (view self.old).given }
        ensures most { (view self.new).most ≡ (view self.old).most }
        ensures faults { (view self.new).faults ≡ (view self.old).faults };
}
