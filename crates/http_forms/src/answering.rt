ghost use Rattle.std.specs.Prelude.{◌<◌, ◌^◌, IfOk};
ghost use Rattle.script_value.specs.Views.{meaning};
ghost use Rattle.page_names.specs.Views.{target_of};
ghost use Rattle.http_forms.specs.Passes.{PassRules, AreSwept, KeepsSkips, MaySkip, swept};

use page_names::Target;
use script_value::{Reply, Value};
use std::alloc::{AllocError, Global};
use web_outside::Gate;

/// What answers requests: shelves, which are visited and ticked through passes.
pub trait Answering {
    /// What one worker visits through.
    type Pass;

    /// What a visit and a tick do to a pass.
    ghost rules: { Self → PassRules Self.Pass };

    /// Visits the target with the answer, and goes through the gate between the take and the publish.
    fn visit<G: Gate>(
        &self,
        alloc: Global,
        pass: &mut Self::Pass,
        target: &Target,
        answer: Value,
        gate: &G,
    ) -> Reply
        requires { (rules self.now).IsOwn pass.old }
        ensures own { (rules self.now).IsOwn pass.new }
        ensures visit { (rules self.now).Visits pass.old (target_of target.now)
            (meaning answer) result pass.new }
        ensures skips { KeepsSkips (rules self.now) pass.old pass.new };

    /// Sweeps each shelf at the tick, in seconds: how many instances it freed, or the reply that says why none, in the
    /// order of the shelves. An error is want of memory for their list. Where none refused, a sweep at the same tick has
    /// nothing to do from then on.
    fn tick(
        &self,
        alloc: Global,
        pass: &mut Self::Pass,
        tick: u64,
    ) -> Result<Vec<Result<u32, Reply>>, AllocError>
        requires own { (rules self.now).IsOwn pass.old }
        requires tick { tick < 2 ^ 62 }
        ensures own { (rules self.now).IsOwn pass.new }
        ensures tick { (rules self.now).Ticks pass.old tick (swept result) pass.new }
        ensures skip { IfOk result (λ answers. AreSwept answers.items →
            MaySkip (rules self.now) pass.new tick) };
}
