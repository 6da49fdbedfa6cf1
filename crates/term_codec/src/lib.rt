//! The spelling of terms in bytes, as files hold them.
//!
//! A value begins with a byte for its kind: `01` a number, `02` `false`, `03` `null`, `04` `true`, `05` an object, `06`
//! an array, `07` a text. A number has 8 bytes in two's complement behind it, an object or an array the count of its
//! parts in 4 bytes and then the parts, a text and the name of a member its length in 4 bytes and then its bytes. The low
//! byte comes first.
//!
//! No spelling is the beginning of another, so one term at most stands at a place.
#![tactic(auto)]

mod decode;
mod encode;
mod fault;
mod laws;

pub use decode::{decode_term, read_count, read_short, read_text, read_whole};
pub use encode::{encode_term, put_count, put_short, put_text, put_whole};
pub use fault::CodecFault;
pub use laws::spellings_are_prefix_free;
