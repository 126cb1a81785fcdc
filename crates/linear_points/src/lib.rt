//! Where each call of a run takes effect, and a checker of points that others name.
#![tactic(auto)]

mod checker;
mod course;
mod intervals;
pub mod laws;
mod linear;
mod point;
mod runs;

pub use checker::check_points;
pub use course::{Trace, call_intervals, run_trace};
pub use intervals::{End, Interval};
pub use linear::points;
pub use point::{Point, PointsError};
