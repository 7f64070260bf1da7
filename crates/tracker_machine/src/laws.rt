ghost use Rattle.tracker_machine.specs.Laws.{EffectsKeepTrackers, OperationsKeepEffects, OperationsOpenTrackers, OperationsAreSmall, OpeningIsSmall, MigrationsAreSmall, PartsMayBeKept, EffectsMayBeKept, OpeningMayBeKept, MigrationMayBeKept, FirstNameIsLeast};

/// What holds of every tracker stays: each call's effect, where it is allowed, leads from a tracker to a tracker.
pub fn effects_keep_trackers()
    ensures { EffectsKeepTrackers }
{}

/// What an effect does is kept: the rows of the tracker after it are those before it, with the effect's operations, and the
/// rows of a new tracker are what its opening operations leave where nothing is kept.
#[tactic(auto, using(crate::proofs::Kept::rows_applied, crate::proofs::Kept::rows_opening))]
pub fn operations_keep_effects()
    ensures later { OperationsKeepEffects }
    ensures opening { OperationsOpenTrackers }
{}

/// The numbers of all rows are below 2^63, which a table of signed numbers can hold.
#[tactic(auto, using(crate::proofs::Kept::ops_small, crate::proofs::Kept::opening_small, crate::proofs::Kept::migrating_small))]
pub fn operations_are_small()
    ensures later { OperationsAreSmall }
    ensures opening { OpeningIsSmall }
    ensures migration { MigrationsAreSmall }
{}

/// Each part of a tracker, each part that an effect puts, each part of a new tracker and each that rows of the first format lack
/// may be kept, so that it has a body.
#[tactic(auto, using(crate::proofs::Keepable::parts_kept, crate::proofs::Keepable::opening_kept, crate::proofs::Keepable::migrating_kept))]
pub fn parts_may_be_kept()
    ensures all { PartsMayBeKept }
    ensures later { EffectsMayBeKept }
    ensures opening { OpeningMayBeKept }
    ensures migration { MigrationMayBeKept }
{}

/// The name in `set` that a call is refused for is the least in byte order of those that are refused.
pub fn first_name_is_least()
    ensures { FirstNameIsLeast }
{}
