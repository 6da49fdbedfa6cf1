//! Changes of the bytes of a file, and ranges of them replaced as far as the file has them.

ghost use Rattle.std.specs.Prelude.{◌≡◌, ◌+◌, ◌≤◌, ◌++◌, length, replicate, OnOk, OnErr};
ghost use Rattle.view_ports.specs.File.{splice};
ghost use Rattle.crash_disk.specs.Patch.{IsCopied, IsFilled};

use json_terms::NoMemory;

/// Writes the bytes of `from` over those from the place `at` on.
pub fn write_over(bytes: &mut Vec<u8>, at: usize, from: &[u8])
    requires { at + length from.now ≤ length bytes.old.items }
    ensures { bytes.new.items ≡ splice bytes.old.items at from.now }
{
    bytes[at..at + from.len()].copy_from_slice(from);
}

/// Adds so many zero bytes at the end, or none.
pub fn add_zeros(bytes: &mut Vec<u8>, by: usize) -> Result<(), NoMemory>
    ensures ok { OnOk result (bytes.new.items ≡ bytes.old.items ++ replicate by 0) }
    ensures err { OnErr result (bytes.new.items ≡ bytes.old.items) }
{
    bytes.reserve(by)?;
    let long = bytes.len() + by;
    bytes.resize(long, 0)?;
    Ok(())
}

/// Puts the byte into every place of the range, a pair of the first place and the number of places.
pub fn fill(image: &mut Vec<u8>, range: (u64, u64), byte: u8)
    ensures { IsFilled range byte image.old.items image.new.items }
{
    let start = image.len().min(range.0 as usize);
    let count = (image.len() - start).min(range.1 as usize);
    for place in start..start + count {
        image[place] = byte;
    }
}

/// Copies what `from` has in the range.
pub fn copy(image: &mut Vec<u8>, range: (u64, u64), from: &[u8])
    ensures { IsCopied range from.now image.old.items image.new.items }
{
    let long = image.len().min(from.len());
    let start = long.min(range.0 as usize);
    let count = (long - start).min(range.1 as usize);
    for place in start..start + count {
        image[place] = from[place];
    }
}
