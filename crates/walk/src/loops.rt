// The loops that are open around a node.
ghost use Rattle.std.specs.Prelude.{◌≡◌, ◌<◌, [], ◌∷◌, length, drop};
ghost use Rattle.language.specs.Rules.{is_open, named};
ghost use Rattle.walk.specs.Names.{names};

use arrayvec::ArrayVec;

// Their names, the innermost last.
#[derive(Drop)]
pub struct Loops {
    pub names: ArrayVec<u16, 16>,
}

impl Loops {
    pub fn new() -> Loops
        ensures { names result ≡ [] }
    {
        Loops {
            names: ArrayVec::new(),
        }
    }

    // How many loops are open.
    pub fn open_count(&self) -> usize
        ensures { result ≡ length (names self.now) }
    {
        self.names.len()
    }

    fn has_name(&self, name: u16) -> bool
        ensures { result ≡ named name (names self.now) }
    {
        self.names.contains(&name)
    }

    // Whether a break or continue with this name means an open loop; 0 means the innermost.
    pub fn is_open(&self, name: u16) -> bool
        ensures { result ≡ is_open name (names self.now) }
    {
        if name == 0 {
            self.open_count() > 0
        } else {
            self.has_name(name)
        }
    }

    // Opens a loop of that name.
    pub(crate) fn push(&mut self, name: u16)
        requires { length (names self.old) < 16 }
        ensures { names self.new ≡ name ∷ names self.old }
    {
        self.names.push(name);
    }

    // Takes the innermost loop's name off.
    pub fn pop(&mut self)
        ensures { names self.new ≡ drop 1 (names self.old) }
    {
        self.names.pop();
    }
}

// Holds the innermost loop open; its name is taken off where the guard is dropped, on every way out.
pub struct LoopGuard<'a> {
    pub held: &'a mut Loops,
}

impl Drop for LoopGuard<'_> {
    fn drop(self)
        ensures { names self.exit.0.now ≡ drop 1 (names self.entry.held.now) }
    {
        self.held.pop();
        let LoopGuard { held: _ } = self;
    }
}
