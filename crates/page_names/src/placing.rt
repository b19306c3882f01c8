ghost use Rattle.std.specs.Prelude.{◌≡◌, ◌<◌};
ghost use Rattle.page_names.specs.Placing.{shelf_for};
ghost use Rattle.page_names.specs.Views.{target_of};

use crate::names::Target;

/// The shelf of a target, of so many: a page names its own, and a start is spread over them by its worker.
pub fn shelf_for(count: usize, worker: u64, target: &Target) -> usize
    requires { 0 < count }
    ensures { result ≡ shelf_for count worker (target_of target.now) }
{
    match target {
        Target::Start(_) => worker as usize % count,
        Target::Page(_, page) => page.shelf as usize,
    }
}
