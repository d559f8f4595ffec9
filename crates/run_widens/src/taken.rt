// Which numbers a stream took, as far as what its repairs restore depends on it.
ghost use Rattle.std.specs.Prelude.{◌≡◌, Some};
ghost use Rattle.run_widens.specs.Taken.{no_numbers, greater, is_greater};
ghost use Rattle.run_widens.specs.Taken.{with_first, with_tried, with_restored};

// By what the next restored number is widened, and whether a number was taken.
#[derive(Clone, Copy)]
pub(crate) struct Taken {
    pub(crate) greatest: Option<u64>,
    pub(crate) begun: bool,
}

impl Taken {
    // Before any number.
    pub(crate) fn nothing() -> Self
        ensures { result ≡ no_numbers }
    {
        Taken {
            greatest: None,
            begun: false,
        }
    }

    fn raised(self, number: u64) -> Option<u64>
        ensures { result ≡ greater self.greatest number }
    {
        match self.greatest {
            Some(greatest) => Some(greatest.max(number)),
            None => Some(number),
        }
    }

    fn is_below(self, number: u64) -> bool
        ensures { result ≡ is_greater self.greatest number }
    {
        match self.greatest {
            Some(greatest) => greatest < number,
            None => true,
        }
    }

    // After the number of a datagram that is no repair.
    pub(crate) fn first(self, number: u64) -> Self
        ensures { result ≡ with_first number self }
    {
        Taken {
            greatest: self.raised(number),
            begun: true,
        }
    }

    // After the own number of a repair.
    pub(crate) fn tried(self, on_main: bool, number: u64) -> Self
        ensures { result ≡ with_tried on_main number self }
    {
        if !on_main || self.begun {
            return self;
        }
        Taken {
            greatest: self.raised(number),
            begun: false,
        }
    }

    // After the number that a repair restores.
    pub(crate) fn restored(self, number: u64) -> Self
        ensures { result ≡ with_restored number self }
    {
        Taken {
            greatest: self.raised(number),
            begun: self.begun || self.is_below(number),
        }
    }
}
