// Why a table is refused.
ghost use Rattle.std.specs.Prelude.{◌≡◌};
ghost use Rattle.walk.specs.declared.fault.CheckFault.TheVariants.{Table};

use table::TableFault;

// The rule that is broken first, and the node where it is.
#[derive(Clone, Copy)]
pub enum CheckFault {
    Table(TableFault),
    NoNode(usize),
    Nesting(usize),
    Field(usize),
    Sort(usize),
    Variable(usize),
    Child(usize),
    Function(usize),
    Loop(usize),
    Exit(usize),
    Height(usize),
}

impl From<TableFault> for CheckFault {
    ghost from_gives = { λ e r. r ≡ Table e };

    fn from(e: TableFault) -> CheckFault {
        CheckFault::Table(e)
    }
}
