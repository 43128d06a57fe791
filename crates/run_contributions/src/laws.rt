ghost use Rattle.run_contributions.specs.RunContributions.{AllBlocksAreTwoSided, ContributionsAddUp};

/// The block of a part makes the same contributions from both sides of the part, in some order.
pub fn blocks_are_two_sided()
    ensures { AllBlocksAreTwoSided }
{}

/// Under `Once` for all parts the runs of all subdomains together make the contributions that the run over all
/// cells makes, in some order: of each kind as many, so also of those to one entry.
pub fn contributions_add_up()
    ensures { ContributionsAddUp }
{}
