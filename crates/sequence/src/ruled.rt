// A rule-out of a file, with its answer.
ghost use Rattle.std.specs.Prelude.{◌≡◌};

#[derive(Clone, Copy)]
pub struct Ruled {
    kind: u8,
    count: u8,
    gone: u64,
}

impl Ruled {
    // That count of that kind was ruled out, and so many counts went.
    pub fn new(kind: u8, count: u8, gone: u64) -> Ruled
        ensures kind { result.kind ≡ kind }
        ensures count { result.count ≡ count }
        ensures gone { result.gone ≡ gone }
    {
        Ruled { kind, count, gone }
    }

    // The kind's number.
    pub fn kind(&self) -> u8
        ensures { result ≡ self.now.kind }
    {
        self.kind
    }

    // The count that was ruled out.
    pub fn count(&self) -> u8
        ensures { result ≡ self.now.count }
    {
        self.count
    }

    // How many counts went.
    pub fn gone(&self) -> u64
        ensures { result ≡ self.now.gone }
    {
        self.gone
    }
}
