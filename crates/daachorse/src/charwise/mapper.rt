//! The codes of characters, which have a crate of their own.

pub use daachorse_charwise_states::mapper::{CodeMapper, INVALID_CODE};
