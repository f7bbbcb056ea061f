//! The outlet that the written files go to.
ghost use Rattle.std.specs.Prelude.{◌≤◌, ℕ, Option, IsErr};
ghost use Rattle.up_base.specs.Outside.{Files, IfTold, Rose, CountsCall, IsPut};

use crate::{Failed, Name};

/// A store of written files, by their names character by character.
pub trait Outlet {
    /// What the outlet holds, where it tells that.
    ghost held: { Self → Option Files };

    /// How many of its calls have failed.
    ghost faults: { Self → ℕ };

    /// How many calls it has had, where it tells that.
    ghost calls: { Self → Option ℕ };

    /// Makes these the bytes of the name. After a failure the name is absent or holds a prefix of them. All else stays.
    fn put_file(&mut self, name: &Name, bytes: &[u8]) -> Result<(), Failed>
        ensures held { IfTold (held self.old) (held self.new) (IsPut name.now bytes.now result) }
        ensures failed { IsErr result → Rose (faults self.old) (faults self.new) }
        ensures faults { faults self.old ≤ faults self.new }
        ensures calls { CountsCall (calls self.old) (calls self.new) };
}
