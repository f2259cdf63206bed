//! Laws of references, each the contract of a call that does nothing.
ghost use Rattle.std.specs.Prelude.{◌≡◌, List, ℕ};
ghost use Rattle.object_refs.specs.Locations.{IsLocation};
ghost use Rattle.object_refs.specs.Profiles.{IsFirstProfile, IsProfile};
ghost use Rattle.object_refs.specs.Reference.{Location, Profile, Reference};
ghost use Rattle.object_refs.specs.References.{IsReference};

/// A text names at most one location.
pub fn locations_one_way()
    ensures { (l m : Location) (text : List ℕ) → IsLocation l text → IsLocation m text → l ≡ m }
{}

/// Bytes mean at most one profile.
pub fn profiles_one_way()
    ensures { (p q : Profile) (bytes : List ℕ) → IsProfile p bytes → IsProfile q bytes → p ≡ q }
{}

/// A reference has at most one first profile.
pub fn first_profiles_one_way()
    ensures { (p q : Profile) (r : Reference) → IsFirstProfile p r → IsFirstProfile q r → p ≡ q }
{}

/// A text means at most one reference.
pub fn references_one_way()
    ensures { (r s : Reference) (text : List ℕ) → IsReference r text → IsReference s text → r ≡ s }
{}
