//! Laws of the definitions. Each is the contract of a function that has nothing to do when it is
//! called.
ghost use Rattle.std.specs.Prelude.{◌≡◌, ◌++◌, ℕ, List, Ok};
ghost use Rattle.kfs_model.specs.Device.RawImage.{RawImage, image_of};
ghost use Rattle.kfs_model.specs.Device.ShownTree.{DeviceImage, IsLawful};
ghost use Rattle.kfs_model.specs.Device.Rules.{Test};
ghost use Rattle.kfs_model.specs.Device.Finding.{IsWellFormed, least_failed};
ghost use Rattle.kfs_model.specs.Device.Spelling.{ImageAnswer};
ghost use Rattle.kfs_shape.specs.Least.{merged};
ghost use Rattle.kfs_fsck.specs.SavedImages.{IsReadAgain};

/// The least number at which a test of two lists fails is the lesser of those of the lists. So a list
/// may be cut into parts, and each part tested in a thread of its own.
pub fn least_of_two_lists()
    ensures { (front back : List Test) → least_failed (front ++ back) ≡ merged (least_failed front) (least_failed back) }
{}

/// A saved image is accepted again: the bytes of a lawful image are those of rows that break no rule, and
/// that show an equal tree and placement on tiers of equal sizes.
pub fn saved_image()
    ensures { (image : DeviceImage) → IsLawful image → IsReadAgain image }
{}

/// Bytes of an image of version 1 that breaks no rule: what it shows is accepted again when it is saved.
/// So an old image is accepted, and written back as a new one.
pub fn old_image()
    ensures { (bytes : List ℕ) (raw : RawImage) → ImageAnswer bytes (Ok raw) → raw.version ≡ 1 → IsWellFormed raw → IsReadAgain (image_of raw) }
{}
