// Whether a tree is within the blocks.
ghost use Rattle.std.specs.Prelude.{◌≡◌, ◌<◌, ◌≤◌, ◌↔◌, ◌⊎◌, IsTrue};
ghost use Rattle.btree_scan.specs.Levels.{Lies};

use crate::search::blocks_for;
use crate::tree::Tree;

fn is_payload(payload: u32) -> bool
    ensures { IsTrue result ↔ (payload ≡ 4096) ⊎ (payload ≡ 4080) }
{
    payload == 4096 || payload == 4080
}

/// Whether a level that is there ends within so many blocks.
fn is_within(below: u32, end: u64, count: u32) -> bool
    ensures { IsTrue result ↔ (1 < below → end ≤ count) }
{
    below <= 1 || end <= count as u64
}

impl Tree {
    /// Whether the payload is 4096 or 4080, the entries are at most 4,194,303, and the levels are
    /// within so many blocks.
    pub fn lies(&self, count: u32) -> bool
        ensures { IsTrue result ↔ Lies self.now count }
    {
        if !is_payload(self.payload) {
            return false;
        }
        if self.entries > 4194303 {
            return false;
        }
        let one = blocks_for(self.payload, self.entries);
        let two = blocks_for(self.payload, one);
        let three = blocks_for(self.payload, two);
        let end = self.first as u64 + one as u64;
        if end > count as u64 {
            return false;
        }
        if !is_within(one, end + two as u64, count) {
            return false;
        }
        if !is_within(two, end + two as u64 + three as u64, count) {
            return false;
        }
        true
    }
}
