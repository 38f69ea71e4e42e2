//! Laws of realms. Each is the contract of a function without a body.

ghost use Rattle.wl_core.specs.Realm.{KeysStandApart};

/// The state of a key after some commands is its state after the commands with that key: what is done at one key
/// plays no part at another.
pub fn keys_stand_apart<K: Ord>()
    ensures { KeysStandApart K.cmp }
{}
