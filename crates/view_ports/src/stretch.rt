//! What holds at each moment of a stretch of calls on a folder.

ghost use Rattle.std.specs.Prelude.{Bool, ℕ, List, IsTrue};
ghost use Rattle.view_ports.specs.declared.file_name.FileName.{FileName};
ghost use Rattle.view_ports.specs.Disk.{Disk, LeavesOnly, IsImageOf, IsLeftSince, clock};

/// Does nothing: its contract is the law that what each moment of a stretch of calls leaves is what a
/// crash since the clock's time at its start may have left, and what a crash at its end leaves.
pub fn stretch_is_since_its_start()
    ensures since { (test : (FileName → List ℕ) → Bool) (old new : Disk FileName)
        → LeavesOnly (λ image. IsTrue (test image)) old new
        → (image : FileName → List ℕ) → IsLeftSince new (clock old) image → IsTrue (test image) }
    ensures end { (test : (FileName → List ℕ) → Bool) (old new : Disk FileName)
        → LeavesOnly (λ image. IsTrue (test image)) old new
        → (image : FileName → List ℕ) → IsImageOf new.now image → IsTrue (test image) }
{}
