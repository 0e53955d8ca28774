// Test patterns: the generator, the counter of errors and its report.
#![tactic(auto)]

mod counter;
mod generator;
mod range;
mod report;
mod steps;

pub use counter::Counter;
pub use generator::Generator;
pub use report::Report;
