//! What a commit names, and the limits of a file.

ghost use Rattle.std.specs.Prelude.{◌≡◌};
ghost use Rattle.gate_file.specs.Header.{newer, place_of};

/// How long a file may be, in bytes.
pub const MAX_LENGTH: u64 = 1 << 40;

/// How many commits a file may have.
pub const MAX_COMMITS: u64 = 1 << 50;

/// Where the data of a file begins; before it stand the two slots.
pub(crate) const DATA: u64 = 8192;

/// What an open slot says: the number of its commit, and where the root record stands.
#[derive(Clone, Copy, Debug, PartialEq, Eq)]
pub struct Root {
    /// Counted from 1, over both files of a pair.
    pub number: u64,
    /// The place of the root record in the file.
    pub offset: u64,
    /// The length of the root record in bytes.
    pub length: u64,
}

/// The place of the slot of the commit with this number: 0 or 4096.
pub(crate) fn place_of(number: u64) -> u64
    ensures { result ≡ place_of number }
{
    4096 * (number % 2)
}

/// The root of the commit with the greater number, and the first where the numbers are equal.
pub(crate) fn newer(first: Option<Root>, second: Option<Root>) -> Option<Root>
    ensures { result ≡ newer first second }
{
    match (first, second) {
        (None, _) => second,
        (Some(_), None) => first,
        (Some(a), Some(b)) => { if a.number < b.number { second } else { first } }
    }
}
