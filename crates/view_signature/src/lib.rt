//! The signature of a design, which names the files of its index.
//!
//! It is the MD5 digest (RFC 1321), in hexadecimal digits, of the text of `[language, views]`. So designs that say the same of
//! their views share an index, whatever else stands in their documents.
#![tactic(auto)]

mod laws;
mod sign;

pub use laws::equal_views_have_equal_signatures;
pub use sign::signature;
