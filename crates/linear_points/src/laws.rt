//! What holds of every run.

ghost use Rattle.linear_points.specs.Linearization.{RunsAreLinear};

/// The points of every run are a linearization of it: indices rise, each lies in its call's interval, a returned
/// call has one and an open call at most one, and the calls in the order of their points answer what the one-thread
/// table answers, and what they returned.
pub fn runs_are_linear()
    ensures { RunsAreLinear }
{}
