// A measure whose chain does not commute: two-by-two matrices of bits. It shows that worths are chained in kind order.
ghost use Rattle.std.specs.Prelude.{◌≡◌, ◌≤◌, ◌&&◌, ◌||◌};
ghost use Rattle.trials.specs.Matrices.{entry_of, matrices};
ghost use Rattle.trials.specs.Sixteen.{matrices_laws};

use measures::Measure;

// The four bits of a byte are the entries: 1 and 2 are the first row, 4 and 8 the second.
pub struct Matrices;

// One entry of a product: whether a row meets a column.
fn entry(p: u8, q: u8, r: u8, s: u8) -> u8
    ensures value { result ≡ entry_of p q r s }
    ensures low { result ≤ 1 }
{
    if (p == 1 && q == 1) || (r == 1 && s == 1) {
        1
    } else {
        0
    }
}

impl Measure for Matrices {
    type Value = u8;

    ghost means = { matrices };

    ghost lawful = { matrices_laws };

    fn zero() -> u8 {
        0
    }

    fn one() -> u8 {
        9
    }

    fn join(a: u8, b: u8) -> u8 {
        a | b
    }

    fn chain(a: u8, b: u8) -> u8 {
        let first = entry(a % 2, b % 2, a / 2 % 2, b / 4 % 2);
        let second = entry(a % 2, b / 2 % 2, a / 2 % 2, b / 8 % 2);
        let third = entry(a / 4 % 2, b % 2, a / 8 % 2, b / 4 % 2);
        let fourth = entry(a / 4 % 2, b / 2 % 2, a / 8 % 2, b / 8 % 2);
        first + 2 * second + 4 * third + 8 * fourth
    }

    // Count 0 is worth the unit matrix, and any other count a matrix that hangs on whether the price is odd.
    fn worth(price: u16, count: u8) -> u8 {
        if count == 0 {
            9
        } else if price % 2 == 1 {
            3
        } else {
            1
        }
    }
}
