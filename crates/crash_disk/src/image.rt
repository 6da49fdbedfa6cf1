//! What a crash may leave of one file.

ghost use Rattle.std.specs.Prelude.{◌≡◌, ℕ, ◌<◌, length, slice_index, IfOk};
ghost use Rattle.view_ports.specs.File.{IsImage};
ghost use Rattle.crash_disk.specs.Pending.{file_of};
ghost use Rattle.crash_disk.specs.Chosen.{IsChosen, IsOverwritten, IsSound};

use crate::digits::Digits;
use crate::patch::{copy, fill};
use crate::pending::Pending;
use json_terms::NoMemory;
use std::alloc::Global;

// The bytes cut to the length, or filled up with zeros.
fn resized(alloc: Global, bytes: &[u8], long: usize) -> Result<Vec<u8>, NoMemory>
    ensures long { IfOk result (λ image. length image.items ≡ long) }
    ensures bytes { IfOk result (λ image. (place : ℕ) → place < long
        → slice_index image.items place ≡ slice_index bytes.now place) }
{
    let mut image = bytes.to_vec(alloc)?;
    image.resize(long, 0)?;
    Ok(image)
}

impl Pending {
    /// An image of the file. Choice 0 keeps nothing that wasn't synced, 1 keeps all, and 2 is 1 with
    /// 255 in each place that was written since the last sync. Any other choice takes from `digits`
    /// which of the lengths since then the image has (0 the newest), for each range that was added
    /// whether it is zero again (1) or what was synced there (0), and for each range that was written
    /// whether it has what was synced (0), what a read gives (1), or 255 (2); ranges come newest first.
    pub fn image(
        &self,
        alloc: Global,
        choice: u64,
        digits: &mut Digits,
    ) -> Result<Vec<u8>, NoMemory>
        requires { IsSound (file_of self.now) }
        ensures { IfOk result (λ image. IsChosen choice (file_of self.now) image.items) }
    {
        match choice {
            0 => Ok(self.durable.as_slice().to_vec(alloc)?),
            1 => Ok(self.seen.as_slice().to_vec(alloc)?),
            2 => self.overwritten(alloc),
            _ => self.mixed(alloc, digits),
        }
    }

    fn overwritten(&self, alloc: Global) -> Result<Vec<u8>, NoMemory>
        ensures { IfOk result (λ image. IsOverwritten (file_of self.now).written
            (file_of self.now).seen image.items) }
    {
        let mut image = self.seen.as_slice().to_vec(alloc)?;
        for range in &self.written {
            fill(&mut image, *range, 255);
        }
        Ok(image)
    }

    fn mixed(&self, alloc: Global, digits: &mut Digits) -> Result<Vec<u8>, NoMemory>
        requires { IsSound (file_of self.now) }
        ensures { IfOk result (λ image. IsImage (file_of self.now) image.items) }
    {
        let length = digits.next(self.lengths.len() as u64) as usize;
        let mut image = resized(alloc, &self.durable, self.lengths[length] as usize)?;
        for range in &self.added {
            if digits.next(2) == 1 {
                fill(&mut image, *range, 0);
            }
        }
        for range in &self.written {
            match digits.next(3) {
                0 => (),
                1 => copy(&mut image, *range, &self.seen),
                _ => fill(&mut image, *range, 255),
            }
        }
        Ok(image)
    }
}
