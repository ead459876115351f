//! Two passes meet.

ghost use Rattle.lane_lock.specs.History.{longer};
ghost use Rattle.lane_lock.specs.Outcomes.{Learns};
ghost use Rattle.lane_lock.specs.Passes.{Owns, SamePass, view_of};

use crate::kept::Kept;
use crate::lock::LaneLock;
use crate::pass::Pass;
use crate::steps::tell;

impl<K: Kept> LaneLock<K> {
    /// Lets two passes meet: afterwards both have seen the longer of the lists that they had seen. Nothing else
    /// changes.
    pub fn meet(&self, one: &mut Pass<K>, other: &mut Pass<K>)
        requires { Owns self.now one.old × Owns self.now other.old }
        ensures same_passes { SamePass one.old one.new × SamePass other.old other.new }
        ensures one { Learns (view_of one.old) (longer (view_of other.old).seen (view_of one.old).seen)
            (view_of one.new) }
        ensures other { Learns (view_of other.old) (longer (view_of other.old).seen (view_of one.old).seen)
            (view_of other.new) }
    {
        tell(&self.table.shared, &mut one.seat, &mut other.seat);
        tell(&self.table.shared, &mut other.seat, &mut one.seat);
        let seen = one.seen.max(other.seen);
        one.seen = seen;
        other.seen = seen;
    }
}
