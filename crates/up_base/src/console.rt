//! The console that the outcome is said on.
ghost use Rattle.std.specs.Prelude.{◌≤◌, ℕ, List, Option, IsErr};
ghost use Rattle.up_base.specs.Outside.{IfTold, Rose, CountsCall, IsSaid};

use crate::Failed;

/// A console that takes bytes.
pub trait Console {
    /// What was said, where the console tells that.
    ghost said: { Self → Option (List ℕ) };

    /// How many of its calls have failed.
    ghost faults: { Self → ℕ };

    /// How many calls it has had, where it tells that.
    ghost calls: { Self → Option ℕ };

    /// Says a piece. After a failure a prefix of it was said.
    fn say(&mut self, bytes: &[u8]) -> Result<(), Failed>
        ensures said { IfTold (said self.old) (said self.new) (IsSaid bytes.now result) }
        ensures failed { IsErr result → Rose (faults self.old) (faults self.new) }
        ensures faults { faults self.old ≤ faults self.new }
        ensures calls { CountsCall (calls self.old) (calls self.new) };
}
