// What is tallied over loads.
#![tactic(auto)]

ghost use Rattle.std.specs.Prelude.{◌≡◌};
ghost use Rattle.meaning.specs.Measures.{Means, Laws};

pub mod loads;
pub mod prices;
pub mod yes_no;

// A measure has values, a zero, a one, a join and a chain of two values, and a worth for a price and a count. The tally of some loads
// is the join over them of the chains, in kind order, of the worths of their counts.
pub trait Measure {
    type Value: Copy;

    // What the functions below compute, and which values the measure has.
    ghost means: { Means Self.Value };

    fn zero() -> Self::Value
        ensures { result ≡ means.zero };

    fn one() -> Self::Value
        ensures { result ≡ means.one };

    fn join(a: Self::Value, b: Self::Value) -> Self::Value
        ensures { result ≡ means.join a b };

    fn chain(a: Self::Value, b: Self::Value) -> Self::Value
        ensures { result ≡ means.chain a b };

    // What a count of a kind at that price is worth.
    fn worth(price: u16, count: u8) -> Self::Value
        ensures { result ≡ means.worth price count };

    // Join is associative and commutative with zero neutral; chain is associative with one neutral on either side, gives zero if either
    // side is zero, and distributes over join on both sides.
    ghost lawful: { Laws means };
}
