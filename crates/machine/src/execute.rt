// One step as far as no line is needed: what each instruction does to the machine.
ghost use Rattle.std.specs.Prelude.{◌≡◌, ◌-◌, ◌<◌, ◌≤◌, IfSome, MatchResult};
ghost use Rattle.machine.specs.View.{State, act_of, seen, view};
ghost use Rattle.machine.specs.Acts.{pushed, dropped, act_by};
ghost use Rattle.machine.specs.States.{concluded, settled, from_main, to_main, has_result, entry_at, called, left, returned, to_read, to_send, run, fetched, main_entry, advanced, undone};

use crate::plan::{Cause, Plan, Site, after};
use crate::state::{Activation, Core};
use code::{Entry, Instruction, decode, decode_entry, node_of};
use table::{Format, Kind, Scope};

// The entry word of a function, if the code has it.
fn entry_at(code: &[u64], function: usize) -> Option<Entry>
    ensures is { result ≡ entry_at code.now function }
    ensures few { IfSome result (λ e. (e.variables ≤ 32) × (e.parameters ≤ e.variables)) }
{
    decode_entry(*code.get(function)?)
}

// Main's entry word, which has neither a result nor parameters.
#[tactic(auto, unfolding(crate::specs::States::main_entry))]
fn main_entry(code: &[u64]) -> Option<Entry>
    ensures is { result ≡ main_entry code.now }
    ensures few { IfSome result (λ e. (e.variables ≤ 32) × (e.parameters ≡ 0)) }
{
    let found = entry_at(code, 0)?;
    (found.result.is_none() && found.parameters == 0).then_some(found)
}

// A new activation with its cells, in which the arguments stand first.
fn open(found: Entry, cells: [i16; 64], back: usize) -> Activation
    requires { found.variables ≤ 64 }
    ensures { seen result ≡ act_of cells found.variables found.variables (has_result found.result) back }
{
    let variables = usize::from(found.variables);
    Activation {
        cells,
        variables,
        count: variables,
        gives: found.result.is_some(),
        back,
    }
}

fn to_read(free: bool, format: Format, site: Site) -> Plan
    ensures { result ≡ to_read free format site.node site.next }
{
    if free {
        Plan::Read(format, site.node, site.next)
    } else {
        Plan::Fault(Cause::BadCode, site.node)
    }
}

fn to_send(last: Option<i16>, format: Format, site: Site) -> Plan
    ensures { result ≡ to_send last format site.node site.next }
{
    match last {
        None => Plan::Fault(Cause::BadCode, site.node),
        Some(value) => Plan::Send(format, value, site.node, site.next),
    }
}

// `act`, `receive` and `release` differ in the act alone. As one function that takes the act as a closure they would be
// no plainer: its contract would have to speak of every closure's effect on what an activation stands for.
// That main is open is asked for and is no fact of the type, since the same machine rests before its first step. A fault's
// cause and node are two values: the act tells the one and the word the other.
impl Core {
    fn conclude(&mut self, effect: Result<Option<u32>, Cause>, site: Site) -> Plan
        ensures { (view self.new, result) ≡ concluded effect site.node site.next (view self.old) }
    {
        match effect {
            Err(cause) => Plan::Fault(cause, site.node),
            Ok(target) => {
                self.at = after(target, site.next);
                Plan::Went
            }
        }
    }

    // Here and below `_read` stands since the prover follows the change of an element, in a struct with a fact of its own,
    // only where one was read before.
    fn act(&mut self, instruction: Instruction, site: Site) -> Plan
        requires { 0 < self.old.depth }
        ensures { (view self.new, result) ≡ settled (act_by instruction) site.node site.next (view self.old) }
    {
        let top = self.depth - 1;
        let _read = &self.activations[top];
        let effect = self.activations[top].act(instruction);
        self.conclude(effect, site)
    }

    // One operand more on the newest activation, if there is one.
    pub fn receive(&mut self, value: i16, site: Site) -> Plan
        ensures { (view self.new, result) ≡ settled (pushed value) site.node site.next (view self.old) }
    {
        if self.depth == 0 {
            return Plan::Fault(Cause::BadCode, site.node);
        }
        let top = self.depth - 1;
        let _read = &self.activations[top];
        let effect = self.activations[top].push(value);
        self.conclude(effect, site)
    }

    // One operand fewer on the newest activation, if there is one.
    pub fn release(&mut self, site: Site) -> Plan
        ensures { (view self.new, result) ≡ settled dropped site.node site.next (view self.old) }
    {
        if self.depth == 0 {
            return Plan::Fault(Cause::BadCode, site.node);
        }
        let top = self.depth - 1;
        let _read = &self.activations[top];
        let effect = self.activations[top].discard();
        self.conclude(effect, site)
    }

    fn load_main(&mut self, slot: usize, site: Site) -> Plan
        requires { 0 < self.old.depth }
        ensures { (view self.new, result) ≡ from_main slot site.node site.next (view self.old) }
    {
        match self.activations[0].variable(slot) {
            None => Plan::Fault(Cause::BadCode, site.node),
            Some(value) => self.receive(value, site),
        }
    }

    fn store_main(&mut self, slot: usize, site: Site) -> Plan
        requires { 0 < self.old.depth }
        ensures { (view self.new, result) ≡ to_main slot site.node site.next (view self.old) }
    {
        let top = self.depth - 1;
        let Some(value) = self.activations[top].last() else {
            return Plan::Fault(Cause::BadCode, site.node);
        };
        if !self.activations[0].has(slot) {
            return Plan::Fault(Cause::BadCode, site.node);
        }
        self.activations[0].assign(slot, value);
        let _ = self.activations[top].discard();
        self.at = site.next;
        Plan::Went
    }

    // Inlined, since a plan that a call of this function hands back lies in memory, and so would every other step's.
    #[inline(always)]
    fn call(&mut self, function: u32, site: Site, code: &[u64]) -> Plan
        requires { 0 < self.old.depth }
        ensures { (view self.new, result) ≡ called code.now function site.node site.next (view self.old) }
    {
        let Some(found) = entry_at(code, function as usize) else {
            return Plan::Fault(Cause::BadCode, site.node);
        };
        let depth = self.depth;
        let given = usize::from(found.parameters);
        if self.activations[depth - 1].operands().len() < given {
            return Plan::Fault(Cause::BadCode, site.node);
        }
        if depth >= 32 {
            return Plan::Fault(Cause::TooDeep, site.node);
        }
        let cells = self.activations[depth - 1].arguments(given);
        self.activations[depth - 1].release(given);
        self.activations[depth] = open(found, cells, site.next);
        self.depth = depth + 1;
        self.at = usize::from(found.address);
        Plan::Went
    }

    fn leave(&mut self, cause: Cause, node: u16) -> Plan
        requires { 0 < self.old.depth }
        ensures { (view self.new, result) ≡ left cause node (view self.old) }
    {
        let top = self.depth - 1;
        if top == 0 {
            return Plan::Over;
        }
        if self.activations[top].gives {
            return Plan::Fault(cause, node);
        }
        self.at = self.activations[top].back;
        self.depth = top;
        Plan::Went
    }

    fn give_back(&mut self, node: u16) -> Plan
        requires { 0 < self.old.depth }
        ensures { (view self.new, result) ≡ returned node (view self.old) }
    {
        let top = self.depth - 1;
        if top == 0 {
            return Plan::Fault(Cause::BadCode, node);
        }
        if !self.activations[top].gives {
            return Plan::Fault(Cause::BadCode, node);
        }
        let Some(value) = self.activations[top].last() else {
            return Plan::Fault(Cause::BadCode, node);
        };
        if !self.activations[top - 1].free() {
            return Plan::Fault(Cause::BadCode, node);
        }
        self.at = self.activations[top].back;
        let _ = self.activations[top - 1].push(value);
        self.depth = top;
        Plan::Went
    }

    fn run(&mut self, instruction: Instruction, site: Site, code: &[u64]) -> Plan
        requires { 0 < self.old.depth }
        ensures { (view self.new, result) ≡ run instruction site.node site.next code.now (view self.old) }
    {
        match instruction {
            Instruction::Variable(Scope::Main, slot) => self.load_main(slot as usize, site),
            Instruction::Assign(Scope::Main, slot) => self.store_main(slot as usize, site),
            Instruction::Call(function) => self.call(function, site, code),
            Instruction::Perform(function) => self.call(function, site, code),
            Instruction::Exit => self.leave(Cause::BadCode, site.node),
            Instruction::Close => self.leave(Cause::NoReturn, site.node),
            Instruction::Return => self.give_back(site.node),
            Instruction::Read(format) => {
                let free = self.activations[self.depth - 1].free();
                to_read(free, format, site)
            }
            Instruction::Write(format) => {
                let last = self.activations[self.depth - 1].last();
                to_send(last, format, site)
            }
            _ => self.act(instruction, site),
        }
    }

    fn fetch(&mut self, code: &[u64]) -> Plan
        requires { 0 < self.old.depth }
        ensures { (view self.new, result) ≡ fetched code.now (view self.old) }
    {
        if self.at >= code.len() {
            return Plan::Fault(Cause::BadCode, 0);
        }
        let word = code[self.at];
        let site = Site {
            node: node_of(word),
            next: self.at + 1,
        };
        match decode(word) {
            None => Plan::Fault(Cause::BadCode, site.node),
            Some(instruction) => self.run(instruction, site, code),
        }
    }

    // Sees to it that main is open.
    fn start(&mut self, code: &[u64]) -> Result<(), Cause>
        ensures { MatchResult result (λ _. (fetched code.now (view self.new) ≡ advanced code.now (view self.old)) × (0 < self.new.depth))
            (λ cause. ◌≡◌ {A = State × Plan} (view self.new, Plan.Fault cause 0) (advanced code.now (view self.old))) }
    {
        if self.depth > 0 {
            return Ok(());
        }
        let found = main_entry(code).ok_or(Cause::BadCode)?;
        self.activations[0] = open(found, [0; 64], 0);
        self.depth = 1;
        self.at = usize::from(found.address);
        Ok(())
    }

    // A step as far as no line is needed; the first one opens main.
    pub fn advance(&mut self, code: &[u64]) -> Plan
        ensures { (view self.new, result) ≡ advanced code.now (view self.old) }
    {
        match self.start(code) {
            Ok(()) => self.fetch(code),
            Err(cause) => Plan::Fault(cause, 0),
        }
    }

    // Takes the opening of main back, if it was opened in this step: then `opened_at` is the address from before.
    pub fn undo(&mut self, opened_at: Option<usize>)
        ensures { view self.new ≡ undone opened_at (view self.old) }
    {
        if let Some(at) = opened_at {
            self.depth = 0;
            self.at = at;
        }
    }
}
