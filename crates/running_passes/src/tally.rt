//! What a pass counts and knows.
ghost use Rattle.running_passes.specs.Tallies.{IsTally};

/// What a pass counts and knows, as plain data of which no value is made. The tallies of two passes add up to one; `none` adds
/// nothing, and `core` is what a copy keeps: knowledge, which adds nothing to the tally that it came from.
pub trait Tally {
    ghost none: { Self };

    ghost add: { Self → Self → Self };

    ghost core: { Self → Self };

    ghost adds_up: { IsTally none add core };
}
