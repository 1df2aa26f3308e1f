// Looking a row up in a table.
ghost use Rattle.std.specs.Prelude.{◌≡◌, Bool};
ghost use Rattle.codes.specs.Rows.{first_fit};

// A row of a table of algorithms.
pub(crate) trait Row: Copy {
    // what a row is looked up by
    type Key: Copy;

    // whether a row goes with a key
    ghost goes_with: { Self.Key → Self → Bool };

    fn fits(self, key: Self::Key) -> bool
        ensures whether_it_goes_with_the_key { result ≡ goes_with key self };
}

// The first row that goes with a key, if one does.
pub(crate) fn first_row<R: Row>(rows: &[R], key: R::Key) -> Option<R>
    ensures first_that_goes_with_the_key { result ≡ first_fit (R.goes_with key) rows.now }
{
    rows.iter().copied().find(|row| row.fits(key))
}
