// Reading the records of a table.
ghost use Rattle.std.specs.Prelude.{◌≡◌};
ghost use Rattle.std.specs.List.{slice_get};
ghost use Rattle.table.specs.Faults.{told_of_table};
ghost use Rattle.table.specs.Fields.{header_of, record_fits, function_from, record_holds, first_broken, layout_of, kind_bit, variables_of};
ghost use Rattle.table.specs.View.{view, node_of, function_of};

use crate::number::result_of;
use crate::record::{Function, Header, Node, TableFault};
use crate::shape::Kind;
use crate::view::Table;

// The header, by its rules in order: three bytes at least, the version, the counts, the length.
fn header(bytes: &[u8]) -> Result<Header, TableFault>
    ensures { result ≡ header_of bytes.now }
{
    let [first, second, third, rest @ ..] = bytes else {
        return Err(TableFault::Length(bytes.len()));
    };
    if first / 16 != 1 {
        return Err(TableFault::Version);
    }
    let functions = usize::from(first % 16) * 4 + usize::from(second / 64);
    let nodes = usize::from(second % 64) * 256 + usize::from(*third);
    if functions == 0 || functions > 32 || nodes == 0 || nodes > 8192 {
        return Err(TableFault::Counts);
    }
    if rest.len() != 6 * functions + 3 * nodes {
        return Err(TableFault::Length(bytes.len()));
    }
    Ok(Header { functions, nodes })
}

// Whether the limits of a function record hold; the spare bits and the kinds past the last variable are 0.
fn record_fits(parameters: u8, variables: u8, spare: u8, kinds: u32) -> bool
    ensures { result ≡ record_fits parameters variables spare kinds }
{
    if parameters > 8 || variables > 32 || parameters > variables || spare != 0 {
        return false;
    }
    u64::from(kinds) % (1 << (32 - variables)) == 0
}

// A function by its fields, or none if they are broken.
fn function_from(res: u8, parameters: u8, variables: u8, spare: u8, kinds: u32) -> Option<Function>
    ensures { result ≡ function_from res parameters variables spare kinds }
{
    let result = result_of(res).ok()?;
    record_fits(parameters, variables, spare, kinds).then_some(Function {
        result,
        parameters,
        variables,
        kinds,
    })
}

// Whether a record may stand for function f: main has no result and no parameters.
fn record_holds(f: usize, found: Option<Function>) -> bool
    ensures { result ≡ record_holds f found }
{
    found.is_some_and(|record| f != 0 || (record.result.is_none() && record.parameters == 0))
}

impl Table<'_> {
    // The record of function f, or none if there is no such function or its record is broken.
    pub fn function(&self, f: usize) -> Option<Function>
        ensures { result ≡ function_of (view self.now) f }
    {
        // A test by the count, and no `get` of the records: that would divide their bytes by six at each call.
        if f >= self.functions {
            return None;
        }
        let (records, _) = self.bytes[3..3 + 6 * self.functions].as_chunks::<6>();
        let [first, second, kinds0, kinds1, kinds2, kinds3] = records[f];
        function_from(
            first / 64,
            first / 4 % 16,
            first % 4 * 16 + second / 16,
            second % 16,
            u32::from_be_bytes([kinds0, kinds1, kinds2, kinds3]),
        )
    }

    // Node `at`'s record, or none if there is no such node.
    pub fn node(&self, at: usize) -> Option<Node>
        ensures { result ≡ node_of (view self.now) at }
    {
        // a test by the count, as above
        if at >= self.nodes {
            return None;
        }
        let (nodes, _) = self.bytes[3 + 6 * self.functions..].as_chunks::<3>();
        let [first, high, low] = nodes[at];
        Some(Node {
            kind: first / 4,
            aux: first % 4,
            operand: u16::from_be_bytes([high, low]),
        })
    }
}

// The first function whose record is broken.
fn first_broken(t: &Table) -> Option<usize>
    ensures { result ≡ first_broken t.now.bytes.now t.now.functions 0 }
{
    (0..t.functions).find(|f| !record_holds(*f, t.function(*f)))
}

// Takes a table's header and function records apart, and answers the two counts. Where a rule is broken it
// answers the first: of the header in the order length below 3, version, counts, length, then of the records.
pub fn read_layout(bytes: &[u8]) -> Result<Header, TableFault>
    ensures { result ≡ layout_of bytes.now }
{
    let found = header(bytes)?;
    let t = Table {
        bytes,
        functions: found.functions,
        nodes: found.nodes,
    };
    match first_broken(&t) {
        None => Ok(found),
        Some(f) => Err(TableFault::Record(f)),
    }
}

// The kind that a slot's bit tells; that of slot 0 is the most significant.
fn kind_bit(kinds: u32, slot: u16) -> Kind
    ensures { result ≡ kind_bit kinds slot }
{
    if (kinds >> 31u16.saturating_sub(slot)) % 2 == 0 {
        Kind::Int
    } else {
        Kind::Byte
    }
}

impl Function {
    // The kind of the variable in a slot, or none if there is no such slot.
    pub fn variable(&self, slot: u16) -> Option<Kind>
        ensures { result ≡ slice_get (variables_of self.now) slot }
    {
        (slot < u16::from(self.variables)).then_some(kind_bit(self.kinds, slot))
    }
}

impl TableFault {
    // The refusal's number and the place that it tells: a method, since a pair made by From would not say what it is.
    pub fn told(&self) -> (u8, usize)
        ensures { result ≡ told_of_table self.now }
    {
        match self {
            TableFault::Length(length) => (1, *length),
            TableFault::Version => (2, 0),
            TableFault::Counts => (3, 0),
            TableFault::Record(f) => (4, *f),
        }
    }
}
