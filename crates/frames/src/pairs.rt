// The forerunners of a change as the pairs of a frame.
ghost use Rattle.std.specs.Prelude.{◌≡◌, ◌≤◌, length, map, take};
ghost use Rattle.frames.specs.Clocks.{counts_of, machines_of};

use crate::frame::Forerunners;
use arrayvec::ArrayVec;

// The changes 1 to `count` of a machine come before the change that names them.
#[derive(Clone, Copy, Debug, Default, PartialEq, Eq)]
pub struct Pair {
    pub machine: u8,
    pub count: u8,
}

// The pairs as two columns, the machine numbers and the counts in the same order: the first `len` of each. It is copied as the
// forerunners themselves are, which a vector of pairs cannot be.
#[derive(Clone, Copy)]
pub struct Pairs {
    pub len: usize,
    pub machines: [u8; 9],
    pub counts: [u8; 9],
}

impl Forerunners {
    // The pairs, machine numbers rising: a machine whose count is 0 has none.
    pub fn pairs(&self) -> ArrayVec<Pair, 9>
        ensures machines { map (λ (p : Pair). p.machine) result.items ≡ machines_of 1 self.now.counts }
        ensures counts { map (λ (p : Pair). p.count) result.items ≡ counts_of self.now.counts }
        ensures len { length result.items ≡ length (counts_of self.now.counts) }
        ensures few { length result.items ≤ 9 }
    {
        let mut pairs = ArrayVec::new();
        for (i, count) in self.counts.iter().enumerate() {
            if *count != 0 {
                pairs.push(Pair {
                    machine: i as u8 + 1,
                    count: *count,
                });
            }
        }
        pairs
    }

    // The same pairs as columns.
    pub fn columns(&self) -> Pairs
        ensures machines { take result.len result.machines ≡ machines_of 1 self.now.counts }
        ensures counts { take result.len result.counts ≡ counts_of self.now.counts }
        ensures len { result.len ≡ length (counts_of self.now.counts) }
        ensures few { result.len ≤ 9 }
    {
        let mut columns = Pairs {
            len: 0,
            machines: [0; 9],
            counts: [0; 9],
        };
        for (i, count) in self.counts.iter().enumerate() {
            if *count != 0 {
                columns.machines[columns.len] = i as u8 + 1;
                columns.counts[columns.len] = *count;
                columns.len += 1;
            }
        }
        columns
    }
}
