ghost use Rattle.std.specs.Prelude.{◌≡◌};
ghost use Rattle.net.specs.declared.wires.Wire.{Wire as WireIs};

use crate::wires::Wire;

/// A record of a branch that knows its ends.
pub trait Wired {
    ghost wired: { Self → WireIs };

    fn wire(&self) -> Wire
        ensures { result ≡ wired self.now };
}
