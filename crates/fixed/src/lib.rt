// Signed fixed-point arithmetic, exact toward minus infinity, and the whole square root.
#![tactic(auto)]

ghost use Rattle.std.specs.Prelude.{◌≡◌, ◌*◌, T, ◌*ℤ◌};
ghost use Rattle.std.specs.Int.Signed.{non_neg};
ghost use Rattle.std.specs.Int.{w64};
ghost use Rattle.std.proofs.Common.{SFits};
ghost use Rattle.fixed.specs.Floor.{floor_div_of, Divisor, mirror_of};
ghost use Rattle.fixed.specs.Scaled.{one, ◌∘◌, dot_of};
ghost use Rattle.fixed.specs.Within.{Small, Is, Entries};
ghost use Rattle.fixed.specs.Root.{root_of};

// −1 − p, which takes numbers below 0 to those that are not, and back.
fn mirror(p: i64) -> i64
    ensures { result ≡ mirror_of p }
{
    -1 - p
}

// The floor of p / d for a p that is not below 0.
fn quotient(p: i64, d: u64) -> i64
    requires { (T (non_neg p)) × (Divisor d) }
    ensures { result ≡ floor_div_of p d }
{
    (p as u64 / d) as i64
}

// The floor of p / d. Below 0 it is that of the mirror, mirrored.
pub fn floor_div(p: i64, d: u64) -> i64
    requires { Divisor d }
    ensures { result ≡ floor_div_of p d }
{
    if p < 0 {
        mirror(quotient(mirror(p), d))
    } else {
        quotient(p, d)
    }
}

// The floor of p / 2^30, by a shift that copies the sign: no branch at each product.
fn unscaled(p: i64) -> i64
    ensures { result ≡ floor_div_of p one }
{
    p >> 30
}

// The scaled product a∘b.
pub fn scaled(a: i64, b: i64) -> i64
    requires { SFits w64 (a *ℤ b) }
    ensures { result ≡ a ∘ b }
{
    unscaled(a * b)
}

// a∘b of two numbers of at most one, which is at most one.
pub fn unit(a: i64, b: i64) -> i64
    requires { (Small a) × (Small b) }
    ensures { Is result (a ∘ b) one }
{
    scaled(a, b)
}

// The sum of p's entries each ∘ e's, of entries of at most two.
pub fn dot(p: [i64; 3], e: [i64; 3]) -> i64
    requires { (Entries p (2 * one)) × (Entries e (2 * one)) }
    ensures { result ≡ dot_of p e }
{
    scaled(p[0], e[0]) + scaled(p[1], e[1]) + scaled(p[2], e[2])
}

// The whole square root of any u64, by its 32 binary digits, the highest first. `rest` is n less the square of the digits found so far. One digit
// more makes that square grow by `bit`, the digit's own square, and by `root`, twice its product with those found; shifts take both on to the next
// digit. Behind the last one `root` is left with the digits themselves. The loop ends when `bit` has been shifted out, so nothing is counted.
pub fn whole_root(n: u64) -> u64
    ensures { result ≡ root_of n }
{
    let mut rest = n;
    let mut root: u64 = 0;
    let mut bit: u64 = 4_611_686_018_427_387_904;
    while bit > 0 {
        let growth = root + bit;
        if growth <= rest {
            rest = rest - growth;
            root = growth + bit;
        }
        root = root >> 1;
        bit = bit >> 2;
    }
    root
}
