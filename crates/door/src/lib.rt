//! The tree of the door listing, proved of the definitions.
#![tactic(auto)]

ghost use Rattle.std.specs.Prelude.{◌≡◌, true};
ghost use Rattle.door.specs.Door.{DoorTree};

/// The branches of the door listing come down to the coil in series with the capacitor parallel to the resistor.
pub fn door_tree() -> bool
    ensures tree { DoorTree }
    ensures value { result ≡ true }
{
    true
}
