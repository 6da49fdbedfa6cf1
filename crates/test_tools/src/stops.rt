//! What a stop within a call on a folder may leave.

/// Whether a stop within this call may leave what is given, where `states` are what is seen after each number of writes, and
/// the writes ended at these calls: what is seen after the writes before it, or after its own too.
pub fn may_be_left(states: &[&str], ends: &[u64], call: u64, given: &[u8]) -> bool {
    let done = ends.iter().filter(|end| **end <= call).count();
    states
        .iter()
        .skip(done)
        .take(2)
        .any(|want| want.as_bytes() == given)
}
