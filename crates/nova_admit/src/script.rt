//! Texts with their plans.
ghost use Rattle.nova_admit.specs.Texts as spec;

use nova_pig_parse::{ParseFault, parse};
use nova_pig_plan::{Channels, Plan, PlanFault, resolve};
use std::alloc::Global;

/// Why a text has no plan: it is no script, or the script has none.
#[derive(Clone, Copy, Debug, PartialEq, Eq, Drop)]
pub enum ScriptFault {
    Parse(ParseFault),
    Plan(PlanFault),
}

/// The plan of a text over the channels of a task. A text that is no script has the fault of
/// parsing; a script without a plan has the plan's first fault.
pub fn plan_of_text(alloc: Global, text: &str, channels: &Channels) -> Result<Plan, ScriptFault>
    ensures { spec.GivesPlan text.now channels.now result }
{
    match parse(alloc, text) {
        Ok(script) => match resolve(alloc, &script, channels) {
            Ok(plan) => Ok(plan),
            Err(fault) => Err(ScriptFault::Plan(fault)),
        },
        Err(fault) => Err(ScriptFault::Parse(fault)),
    }
}
