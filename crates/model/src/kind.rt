// A kind of project.
ghost use Rattle.std.specs.Prelude.{◌≡◌, ◌<◌, ◌≤◌};

// Its size in blocks, its price, and the set of its allowed counts: bit d of the number says whether count d is allowed.
#[derive(Clone, Copy)]
pub struct Kind {
    size: u16,
    price: u16,
    allowed: u64,
    ghost small: { size ≤ 4095 },
    ghost cheap: { price ≤ 1000 },
    ghost some: { 0 < allowed },
}

impl Kind {
    pub(crate) fn new(size: u16, price: u16, allowed: u64) -> Kind
        requires small { size ≤ 4095 }
        requires cheap { price ≤ 1000 }
        requires some { 0 < allowed }
        ensures size { result.size ≡ size }
        ensures price { result.price ≡ price }
        ensures allowed { result.allowed ≡ allowed }
    {
        Kind {
            size,
            price,
            allowed,
        }
    }

    // The size of one project, in blocks.
    pub fn size(&self) -> u16
        ensures { result ≡ self.now.size }
    {
        self.size
    }

    // The price of one project.
    pub fn price(&self) -> u16
        ensures { result ≡ self.now.price }
    {
        self.price
    }

    // The set of allowed counts.
    pub fn allowed(&self) -> u64
        ensures { result ≡ self.now.allowed }
    {
        self.allowed
    }
}
