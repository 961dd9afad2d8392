// A program's table and what is read off it determine each other.
#![tactic(auto)]

ghost use Rattle.layout.specs.Stored.{LayoutsRead, LayoutsWritten, LayoutsRecorded};

// Where a table's layout passes, every function has a record within the limits.
pub fn layouts_recorded() -> u8
    ensures { LayoutsRecorded }
{
    0
}

// The table of a program within the limits is read as that program.
pub fn layouts_read() -> u8
    ensures { LayoutsRead }
{
    0
}

// Bytes that are read as a program are that program's table.
pub fn layouts_written() -> u8
    ensures { LayoutsWritten }
{
    0
}
