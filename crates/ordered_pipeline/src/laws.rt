//! That a pipeline is the machine of `specs/Machine.antt`: laws, with no code.
ghost use Rattle.ordered_pipeline.specs.Laws.{StartsNew, StatesAreOrdered, StepsAreEvents};

use crate::job::Job;

/// Between any two steps no item, no copy object and no baton is with two passes, and the items that are under way are less
/// than a queue ahead of the copied ones. At the start nothing is drawn, and the baton rests at item 0.
pub fn pipeline_states_are_ordered<J: Job>()
    ensures start { StartsNew J J.State J.Copy }
    ensures states { StatesAreOrdered J.has_room J.stands J.step }
{}

/// Each step that a pipeline makes is one event of the machine, and no other pass takes part in it.
pub fn pipeline_steps_are_events<J: Job>()
    ensures { StepsAreEvents J.has_room J.stands J.step }
{}
