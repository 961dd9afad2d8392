// What a line refuses. docs/REFUSALS.md gives every refusal a number and a place.
ghost use Rattle.std.specs.Prelude.{◌≡◌};
ghost use Rattle.line.specs.Ends.{told};

// A refusal of a line tells no place of its own.
const PLACE: u16 = 0;

#[derive(Clone, Copy, PartialEq, Eq, Debug)]
pub enum LineRefusal {
    // A feed where nothing more may be fed.
    NoHold,
    // A send where nothing more may be sent.
    NoRoom,
    // A take of more bytes than wait.
    TooFew,
}

impl LineRefusal {
    pub fn number(self) -> u16
        ensures { result ≡ (told self).0 }
    {
        match self {
            LineRefusal::NoHold => 50,
            LineRefusal::NoRoom => 51,
            LineRefusal::TooFew => 52,
        }
    }

    pub fn place(self) -> u16
        ensures { result ≡ (told self).1 }
    {
        PLACE
    }
}
