//! What benchmarks of a store are made of: their names, keys and values, and the table's lines.
#![tactic(auto)]

mod benchmark;
mod count;
mod keys;
mod measure;
mod random;
mod values;
mod walk;
mod words;
mod work;

pub use benchmark::{Benchmark, benchmarks_in};
pub use count::Count;
pub use keys::{key, missing_key};
pub use measure::{Measure, ProgressLine, TABLE_HEAD};
pub use random::Random;
pub use values::Values;
pub use walk::Walk;
pub use words::{Words, read_words};
pub use work::Work;
