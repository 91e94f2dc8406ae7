// What went wrong at a place in a file.
ghost use Rattle.std.specs.Prelude.{◌≡◌};

// A cause with the offset of its field's tag, or of where that would stand.
#[derive(Clone, Copy)]
pub struct Placed<C> {
    place: usize,
    cause: C,
}

impl<C> Placed<C> {
    // That cause, for the field at that place.
    pub fn new(place: usize, cause: C) -> Placed<C>
        ensures place { result.place ≡ place }
        ensures cause { result.cause ≡ cause }
    {
        Placed { place, cause }
    }

    // The offset of the field's tag.
    pub fn place(&self) -> usize
        ensures { result ≡ self.now.place }
    {
        self.place
    }
}

impl<C: Copy> Placed<C> {
    // What went wrong there.
    pub fn cause(&self) -> C
        ensures { result ≡ self.now.cause }
    {
        self.cause
    }
}
