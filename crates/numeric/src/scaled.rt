// Scaling by powers of two as it is shown on a board: both sides of a fraction n / 2^k are doubled, or both are halved.
// A number n * 2^k has no lower side, and is doubled itself.
ghost use Rattle.std.specs.Prelude.{◌≡◌, ◌+◌, ◌-◌, ◌*◌, ◌/◌, ◌^◌, ◌≤◌, min};
ghost use Rattle.std.specs.Int.{div_ceil};
ghost use Rattle.numeric.specs.Inner.{cut_down, cut_up};

// The greatest whole number that is not above a fraction, and the least that is not below it.
#[derive(Clone, Copy, Debug, PartialEq, Eq)]
pub(crate) struct Cut {
    pub(crate) low: u64,
    pub(crate) high: u64,
}

// n * 2^power / 2^149, cut. From 2^44 on it is held there.
// The lower side becomes 2^8, 2^16 or 2^24: seven steps at most where power is 118 to 148, a number typed from 1/256 up to 2^23.
#[tactic(auto, using(crate::proofs::Scaling::scaling))]
pub(crate) fn scaled(n: u64, power: u32) -> Cut
    requires { n ≤ 2 ^ 44 }
    ensures low { result.low ≡ cut_down (n * 2 ^ power) (2 ^ 149) }
    ensures high { result.high ≡ cut_up (n * 2 ^ power) (2 ^ 149) }
{
    match power {
        0..132 => stepped(n, 149 - power, 24),
        132..140 => stepped(n, 149 - power, 16),
        140..149 => stepped(n, 149 - power, 8),
        _ => {
            let m = doubled(n, power - 149);
            Cut { low: m, high: m }
        }
    }
}

// n / 2^k, cut: both sides are doubled while the lower one is less than 2^to, or halved while it is more, and then divided.
#[tactic(auto, using(crate::proofs::Stepping::dividing))]
fn stepped(n: u64, k: u32, to: u32) -> Cut
    requires small { n ≤ 2 ^ 44 }
    requires near { to ≤ k + 8 }
    requires few { to ≤ 24 }
    ensures low { result.low ≡ cut_down n (2 ^ k) }
    ensures high { result.high ≡ cut_up n (2 ^ k) }
{
    halved_down(doubled_up(n, k, to), k, to)
}

// The upper side of n / 2^k, both sides doubled until the lower one, 2^at, is 2^to. Where it is that or more, n.
#[tactic(auto, using(crate::proofs::Stepping::doubling))]
fn doubled_up(n: u64, k: u32, to: u32) -> u64
    requires small { n ≤ 2 ^ 44 }
    requires near { to ≤ k + 8 }
    ensures doubled { result ≡ n * 2 ^ (to - k) }
    ensures held { result ≤ 2 ^ 52 }
{
    let mut upper = n;
    for _at in k..to {
        upper *= 2;
    }
    upper
}

// upper / 2^(k-to) / 2^to, cut: both sides are halved until the lower one, 2^k, is 2^to, low cut down and high cut up, and each is divided by that.
// Stops early once low < 2^to. high is one more at most, so not above 2^to: low gives 0, and high 1, or 0 if it is 0, however often they are halved.
fn halved_down(upper: u64, k: u32, to: u32) -> Cut
    requires small { upper ≤ 2 ^ 52 }
    requires few { to ≤ 24 }
    ensures low { result.low ≡ upper / (2 ^ (k - to) * 2 ^ to) }
    ensures high { result.high ≡ div_ceil upper (2 ^ (k - to) * 2 ^ to) }
{
    let lower = 1 << to;
    let mut low = upper;
    let mut high = upper;
    for _at in to..k {
        if low < lower {
            break;
        }
        low /= 2;
        high = high.div_ceil(2);
    }
    Cut {
        low: low / lower,
        high: high.div_ceil(lower),
    }
}

// n * 2^k, held at 2^44: n is doubled k times, or less often. Not one with the doubling above, which never comes near a bound.
// Stops early once the next doubling reaches 2^44: from then on it is held there.
#[tactic(auto, using(crate::proofs::Stepping::doubling))]
fn doubled(n: u64, k: u32) -> u64
    ensures { result ≡ min (n * 2 ^ k) (2 ^ 44) }
{
    let mut m = n;
    for _done in 0..k {
        if 1 << 43 <= m {
            return 1 << 44;
        }
        m *= 2;
    }
    m.min(1 << 44)
}
