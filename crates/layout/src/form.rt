// The two forms of a descriptor, and how far an arriving one reaches.
ghost use Rattle.std.specs.Prelude.{◌≡◌};
ghost use Rattle.layout.specs.Layout.{form_of, lead, span_of};

// The bytes of SAI and SQN, which stand in a row in both forms.
pub(crate) const HEAD_LEN: usize = 12;

// The long form begins with DESCRIPTOR LENGTH, the short form with the SAI.
#[derive(Clone, Copy, Drop)]
pub enum Form {
    Long,
    Short,
}

// How far an arriving descriptor reaches: as its own DESCRIPTOR LENGTH says, or as many bytes as are given with the call.
// Stays: it has the shape of an Option, but its two names are the forms, which a `None` would not say.
#[derive(Clone, Copy, Drop)]
pub enum Span {
    Long,
    Short(usize),
}

impl Span {
    // The form of what reaches so far.
    pub fn form(self) -> Form
        ensures { result ≡ form_of self }
    {
        match self {
            Span::Long => Form::Long,
            Span::Short(_) => Form::Short,
        }
    }
}

impl Form {
    // The bytes before the SAI.
    pub fn lead(self) -> usize
        ensures { result ≡ lead self }
    {
        match self {
            Form::Long => 4,
            Form::Short => 0,
        }
    }

    // How far a descriptor of `length` bytes reaches in this form.
    pub fn span(self, length: usize) -> Span
        ensures how_far_it_reaches { result ≡ span_of self length }
    {
        match self {
            Form::Long => Span::Long,
            Form::Short => Span::Short(length),
        }
    }
}
