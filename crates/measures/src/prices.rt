// The lowest and the highest price of a load: none where there is no load, else a price, cut off at 4,294,967,295.
ghost use Rattle.std.specs.Prelude.{◌≡◌, ◌*◌, if◌then◌else◌, min, max, Some};
ghost use Rattle.meaning.specs.Models.{added, highest, lowest, price_by, taken};
ghost use Rattle.meaning.proofs.Lawful.{picked_laws};

use crate::Measure;

// What no load costs.
const NO_PRICE: Option<u32> = None;

// What a load of nothing costs.
const FREE: Option<u32> = Some(0);

// The sum, cut off; none where either is none.
fn sum_of_prices(a: Option<u32>, b: Option<u32>) -> Option<u32>
    ensures { result ≡ added a b }
{
    a.zip(b).map(|(x, y)| x.saturating_add(y))
}

// The price of so many projects.
fn price_of(price: u16, count: u8) -> Option<u32>
    ensures { result ≡ Some (price * count) }
{
    Some(u32::from(price) * u32::from(count))
}

// Whether the price y is taken of a and y: it is no lower, or it is no higher.
fn takes_second<const HIGHEST: bool>(a: Option<u32>, y: u32) -> bool
    ensures { (if result then Some y else a) ≡ taken (if HIGHEST then max else min) a (Some y) }
{
    if HIGHEST {
        a.unwrap_or(0) <= y
    } else {
        a.unwrap_or(u32::MAX) >= y
    }
}

// The lowest price of a load, or the highest.
pub struct Extreme<const HIGHEST: bool>;

pub type Lowest = Extreme<false>;

pub type Highest = Extreme<true>;

// The lower of two prices: what the lowest price makes of two loads.
pub fn lower(a: Option<u32>, b: Option<u32>) -> Option<u32>
    ensures { result ≡ lowest.join a b }
{
    Lowest::join(a, b)
}

// The higher of two prices: what the highest price makes of two loads.
pub fn higher(a: Option<u32>, b: Option<u32>) -> Option<u32>
    ensures { result ≡ highest.join a b }
{
    Highest::join(a, b)
}

impl<const HIGHEST: bool> Measure for Extreme<HIGHEST> {
    type Value = Option<u32>;

    ghost means = { price_by (if HIGHEST then max else min) };

    ghost lawful = { picked_laws HIGHEST };

    fn zero() -> Option<u32> {
        NO_PRICE
    }

    fn one() -> Option<u32> {
        FREE
    }

    // One of the two as it stands, so that the inner loop writes whole values and mostly only reads.
    fn join(a: Option<u32>, b: Option<u32>) -> Option<u32> {
        match b {
            Some(y) if takes_second::<HIGHEST>(a, y) => b,
            _ => a,
        }
    }

    fn chain(a: Option<u32>, b: Option<u32>) -> Option<u32> {
        sum_of_prices(a, b)
    }

    fn worth(price: u16, count: u8) -> Option<u32> {
        price_of(price, count)
    }
}
