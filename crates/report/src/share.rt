// The share of unresolved dynamic blocks.
// "as two whole numbers in lowest terms, 0 over 1 if there are none"
ghost use Rattle.std.specs.Prelude.{◌≡◌};
ghost use Rattle.spec.specs.Report as definitions;
ghost use Rattle.report.specs.Numbers.{share_of};

#[derive(Clone, Copy)]
pub struct Share {
    pub part: usize,
    pub whole: usize,
}

// The greatest common divisor of two numbers (`gcd-greatest`).
fn gcd(first: usize, second: usize) -> usize
    ensures { result ≡ definitions.gcd first second }
{
    let mut x = first;
    let mut y = second;
    while y != 0 {
        let z = x % y;
        x = y;
        y = z;
    }
    x
}

// The share of `part` in `whole`, in lowest terms.
pub fn lowest(part: usize, whole: usize) -> Share
    ensures { share_of result ≡ definitions.lowest part whole }
{
    if whole == 0 {
        return Share { part: 0, whole: 1 };
    }
    let common = gcd(part, whole);
    Share {
        part: part / common,
        whole: whole / common,
    }
}
