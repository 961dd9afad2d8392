// What goes by a number kind: which constants it has, and which operators take it.
ghost use Rattle.std.specs.Prelude.{◌≡◌};
ghost use Rattle.table.specs.Kinds.{constant_count, operates};

use crate::shape::{Binary, Kind};

impl Kind {
    // How many constants there are of the kind; they are the numbers below.
    pub fn constants(&self) -> u16
        ensures { result ≡ constant_count self.now }
    {
        match self {
            Kind::Int => 32768,
            Kind::Byte => 256,
        }
    }
}

impl Binary {
    // Whether the operator takes operands of a kind: `&` and the or-sign take bytes only.
    pub fn takes(&self, kind: Kind) -> bool
        ensures { result ≡ operates self.now kind }
    {
        match self {
            Binary::ByteAnd | Binary::ByteOr => kind == Kind::Byte,
            _ => true,
        }
    }
}
