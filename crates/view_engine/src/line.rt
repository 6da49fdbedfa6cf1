//! From the bytes of a line to the request.

ghost use Rattle.std.specs.Prelude.{◌≡◌, ◌≢◌, IfOk, IfErr, Ok, Err};
ghost use Rattle.view_engine.specs.Refusals.{request_of};

use crate::forms::recognize;
use crate::refusal::Refusal;
use crate::request::Request;
use json_terms::read_term;
use std::alloc::Global;

/// The longest request line, in bytes.
pub const REQUEST_LIMIT: usize = 2_097_152;

/// The request that a line is, or the first of its refusals: too long, no term, no form.
pub fn read_request(alloc: Global, line: &[u8]) -> Result<Request, Refusal>
    ensures ok { IfOk result (λ request. request_of line.now ≡ Ok request) }
    ensures err { IfErr result (λ refusal. refusal ≢ Refusal.NoMemory
        → request_of line.now ≡ Err refusal) }
{
    if line.len() > REQUEST_LIMIT {
        return Err(Refusal::LineTooLong);
    }
    match read_term(alloc, line) {
        Ok(term) => match recognize(term) {
            Some(request) => Ok(request),
            None => Err(Refusal::UnknownRequest),
        },
        Err(fault) => Err(Refusal::from(fault)),
    }
}
