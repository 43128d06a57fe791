//! That the pool is the machine of `specs/Machine.antt`: laws, with no code.
ghost use Rattle.scratch_pool.specs.Laws.{StartsNew, StatesAreExclusive, StepsAreEvents};

/// Between any two steps no object is with two passes, and each object is at home or with one. At the start all objects
/// are at home.
pub fn pool_states_are_exclusive<T>()
    ensures start { StartsNew T }
    ensures states { StatesAreExclusive T }
{}

/// Each step that the pool makes is one event of the machine, and no other pass takes part in it.
pub fn pool_steps_are_events<T>()
    ensures { StepsAreEvents T }
{}
