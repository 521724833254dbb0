// Paths: addresses of two bytes each, one after the other.
// "P: 2 bytes an address of the path in hand. ... Q: 2 bytes an address in recorded paths."
ghost use Rattle.std.specs.Prelude.{◌≡◌};
ghost use Rattle.spec.specs.Lists.{same};
ghost use Rattle.tables.specs.Addrs.{addrs, Path, Summed, Beside, Packed, Left};

use crate::sum::{SUM, low, mix};
use lent::get16;

// The four addresses of `path` from `at` on, as one number, for which the compiler makes one load.
fn four(path: &[u8], at: usize) -> usize
    requires { Path path.now at 4 }
    ensures { Packed path.now at result }
{
    let front = get16(path, 2 * at) + get16(path, 2 * at + 2) * 65536;
    let back = get16(path, 2 * at + 4) + get16(path, 2 * at + 6) * 65536;
    front + back * 4294967296
}

// How many addresses are compared at once.
const STEP: usize = 4;

// The path in hand: the first np addresses of P, which is lent whole, since the path grows and shrinks in place (no heap, fixed memory).
#[derive(Clone, Copy)]
pub struct PathInHand<'a> {
    pub p: &'a [u8],
    pub np: usize,
}

impl PathInHand<'_> {
    // The sum of its addresses: four sums take turns, so that none waits for the one before it.
    pub fn sum(&self) -> usize
        requires { Path self.now.p.now 0 self.now.np }
        ensures { Summed (addrs self.now.p.now 0 self.now.np) result }
    {
        let mut first: u32 = 0;
        let mut second: u32 = 0;
        let mut third: u32 = 0;
        let mut fourth: u32 = 0;
        for i in 0..self.np {
            let sum = mix::<SUM>(first, low(get16(self.p, 2 * i)));
            first = second;
            second = third;
            third = fourth;
            fourth = sum;
        }
        mix::<SUM>(mix::<SUM>(mix::<SUM>(first, second), third), fourth) as usize
    }

    // So many addresses, by fours, that what is behind them decides whether its addresses are those of q from `at` on.
    fn alike(&self, q: &[u8], at: usize) -> usize
        requires { Beside self.now.p.now self.now.np q.now at }
        ensures { Left self.now.p.now self.now.np q.now at result }
    {
        for i in 0..self.np / STEP {
            if four(self.p, STEP * i) != four(q, at + STEP * i) {
                return STEP * i;
            }
        }
        self.np - self.np % STEP
    }

    // Whether its addresses are those of q from `at` on.
    pub fn is_at(&self, q: &[u8], at: usize) -> bool
        requires { Beside self.now.p.now self.now.np q.now at }
        ensures { result ≡ same (addrs self.now.p.now 0 self.now.np) (addrs q.now at self.now.np) }
    {
        for i in self.alike(q, at)..self.np {
            if get16(self.p, 2 * i) != get16(q, 2 * (at + i)) {
                return false;
            }
        }
        true
    }
}
