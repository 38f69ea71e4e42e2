//! Laws of targets. Each is the contract of a function without a body.

ghost use Rattle.wl_admission.specs.Laws.{NamedByItsOwn, OwnNamesIt};

/// An origin is named by one target, its own: a canonical one is taken, and no other spelling.
pub fn origins_have_one_target()
    ensures own { NamedByItsOwn }
    ensures taken { OwnNamesIt }
{}
