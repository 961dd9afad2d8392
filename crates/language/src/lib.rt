// Dana: its programs as trees, what they mean, and the laws of that meaning.
// Nothing here is to be run: each function's contract is a law, and its answer is 0.
#![tactic(auto)]

ghost use Rattle.language.specs.Laws.{MoreEntries, MoreBytes, BoundNeverShows, TakenAndSent, CausesKnown};
ghost use Rattle.language.specs.Ranges.{ValuesInRange};

// More node entries only extend what is reported; an end, a fault or a wait stays.
pub fn more_entries() -> u8
    ensures { MoreEntries }
{
    0
}

// More bytes fed only extend what is reported; an end or a fault stays.
pub fn more_bytes() -> u8
    ensures { MoreBytes }
{
    0
}

// The bound that the definition sets to calls and rounds makes no difference.
pub fn bound_never_shows() -> u8
    ensures { BoundNeverShows }
{
    0
}

// What is taken is a first part of what waited, and what is sent fits the room.
pub fn taken_and_sent() -> u8
    ensures { TakenAndSent }
{
    0
}

// A fault is of one of the causes 61 to 65: bad code is none of the meaning's.
pub fn causes_known() -> u8
    ensures { CausesKnown }
{
    0
}

// Where main's variables are reported of a program that keeps the rules, each is a number of its kind.
pub fn values_in_range() -> u8
    ensures { ValuesInRange }
{
    0
}
