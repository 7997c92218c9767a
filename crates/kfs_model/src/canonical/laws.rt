//! Laws of the definitions. Each is the contract of a function that has nothing to do when it is
//! called.
ghost use Rattle.std.specs.Prelude.{Ok};
ghost use Rattle.kfs_model.specs.Device.ShownTree.{DeviceImage, IsLawful, shown_tree};
ghost use Rattle.kfs_model.specs.Device.Spelling.{ImageAnswer};
ghost use Rattle.kfs_model.specs.Device.Canonical.{canonical_rows, image_bytes};

/// The encoding of a lawful image is read: a decoder answers the rows of its state. So all of them fit
/// the format, and their counts are below 2^32.
pub fn spelling_is_read()
    ensures { (image : DeviceImage) → IsLawful image → ImageAnswer (image_bytes image) (Ok (canonical_rows image.sizes (shown_tree image) image.placement)) }
{}
