// A stamped record: any record, with the place of the event that it belongs to.
ghost use Rattle.std.specs.Prelude.{◌≡◌};
ghost use Rattle.filling.specs.Stamps.{stamp};

// Places count from 0.
#[derive(Clone, Copy)]
pub struct Stamped<T> {
    pub place: usize,
    pub value: T,
}

impl<T> Stamped<T> {
    pub fn new(place: usize, value: T) -> Stamped<T>
        ensures { result ≡ stamp place value }
    {
        Stamped { place, value }
    }
}
