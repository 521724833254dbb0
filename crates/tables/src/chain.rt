// Rows on chains by a key: in the lent bytes a link holds one more than a row, and 0 ends the chain, as docs/LAYOUT.md has it (no heap, fixed memory).
// "rows in order of insertion, searched"
ghost use Rattle.std.specs.Prelude.{◌≡◌, ℕ, ◌<◌, Bool};
ghost use Rattle.tables.specs.Chains.{newest, link_of, any, Keyed};

// What is looked for among rows.
pub trait Chain {
    // A row's key, and the key of what is looked for.
    ghost key: { Self → ℕ → ℕ };

    ghost own: { Self → ℕ };

    // How many rows there are, and whether a row is what is looked for.
    ghost rows: { Self → ℕ };

    ghost hit: { Self → ℕ → Bool };

    // What has to hold of the rows.
    ghost holds: { Self → Type 0 };

    // The newest row on the chain of what is looked for, if there is one.
    fn newest(&self) -> Option<usize>
        requires { holds self.now }
        ensures { link_of result ≡ newest (key self.now) (own self.now) (rows self.now) };

    // The row before one on its chain, if there is one.
    fn link(&self, row: usize) -> Option<usize>
        requires held { holds self.now }
        requires below { row < rows self.now }
        ensures { link_of result ≡ newest (key self.now) (key self.now row) row };

    // Whether a row is what is looked for.
    fn fits(&self, row: usize) -> bool
        requires held { holds self.now }
        requires below { row < rows self.now }
        ensures { result ≡ hit self.now row };
}

// Whether one of the rows is what is looked for. How long the chain is stands nowhere, so nothing is counted.
pub fn found<C: Chain>(chain: &C) -> bool
    requires held { C.holds chain.now }
    requires keyed { Keyed (C.key chain.now) (C.hit chain.now) (C.rows chain.now) (C.own chain.now) }
    ensures { result ≡ any (C.hit chain.now) (C.rows chain.now) }
{
    let mut cur = chain.newest();
    while let Some(row) = cur {
        cur = chain.link(row);
        if chain.fits(row) {
            return true;
        }
    }
    false
}
