// Document 01's angle functions, in place of Rust's, and the helpers on f64 that they and the finder use.

#![tactic(auto)]

pub mod circular;
pub mod float;
pub mod inverse;
mod series;

pub const PI: f64 = std::f64::consts::PI;

pub const HALF_PI: f64 = 0.5 * PI;

pub const QUARTER_PI: f64 = 0.25 * PI;

pub const EIGHTH_PI: f64 = 0.125 * PI;
