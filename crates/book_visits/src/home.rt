ghost use Rattle.std.specs.Prelude.{◌≡◌, IfOk};
ghost use Rattle.replay_spec.specs.Next as next;
ghost use Rattle.book_visits.specs.Homes.{home_of};

use page_names::{PageName, ScriptName, url_text};
use script_value::Str;
use std::alloc::{AllocError, Global};

/// What the URLs of an instance's pages share.
#[derive(Clone, Copy)]
pub struct Home {
    pub name: ScriptName,
    pub shelf: u32,
    pub instance: u64,
}

impl Home {
    /// The URL of a page of the instance.
    pub fn url(&self, alloc: Global, number: u64, nonce: u64) -> Result<Str, AllocError>
        ensures { IfOk result (λ url. url ≡ next.url_of (home_of self.now) number nonce) }
    {
        let page = PageName {
            shelf: self.shelf,
            instance: self.instance,
            page: number,
            nonce,
        };
        Ok(Str::new(url_text(alloc, &self.name, page)?))
    }
}
