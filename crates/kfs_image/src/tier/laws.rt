//! A law of the definitions. It is the contract of a function that has nothing to do when it is called.

ghost use Rattle.std.specs.Prelude.{List};
ghost use Rattle.kfs_model.specs.Placement.{Place, Placement};
ghost use Rattle.kfs_model.specs.Device.Device.{Devices};
ghost use Rattle.kfs_image.specs.Tier.Tiers.{TiersShown};
ghost use Rattle.kfs_image.specs.Tier.Unused.{CountsUnused, FindsUnused, MissesNone, CanFollow, KeepsUnused};

/// If a place is marked free exactly when no block lies there, then the free count and the next free
/// place are right too. Marks can follow blocks that move, and stay right then.
pub fn free_places_are_the_unused()
    ensures counted { (placement : Placement) (tiers : TiersShown) → CountsUnused placement tiers }
    ensures found { (placement : Placement) (tiers : TiersShown) → FindsUnused placement tiers }
    ensures none { (placement : Placement) (tiers : TiersShown) → MissesNone placement tiers }
    ensures movable { (old new : Placement) (tiers : TiersShown) (given taken : List Place) → CanFollow old new tiers given taken }
    ensures kept { (old new : Placement) (tiers : TiersShown) (given taken : List Place) (devices : Devices) → KeepsUnused old new tiers given taken devices }
{}
