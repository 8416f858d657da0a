//! Fields at the front of bytes: numbers, texts, and stored keys, which are the keys of entries.
//! Each has a writer and a reader; stored keys have their order too.
#![tactic(auto)]

mod format;
pub mod laws;
mod reading;
mod space;
mod stored_key;
mod writing;

pub use format::Format;
pub use reading::{read_text, read_u16, read_u32, read_u64};
pub use space::Space;
pub use stored_key::{KeyBuffer, LentKey, MAX_KEY, StoredKey};
pub use writing::{put_text, put_u32, put_u64};
