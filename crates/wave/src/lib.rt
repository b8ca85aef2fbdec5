//! Waves, weights, ratios, and the shortening of exact values.
#![tactic(auto)]

mod divisors;
pub mod ratios;
pub mod shortening;
pub mod waves;
pub mod weights;

pub use ratios::{LARGEST_NUMBER, Ratio, RatioRefusal};
pub use shortening::{Divisor, Shortened, shorten};
pub use waves::{LARGEST_WAVE, Wave};
pub use weights::{LARGEST_WEIGHT, Weight, WeightRefusal};

// Weights and ratios are of the second layer of all that may refuse.
const LAYER: u32 = 2;
