// The loops that are open around a statement.
ghost use Rattle.std.specs.Prelude.{◌≡◌, ◌<◌, [], ◌∷◌, length, drop};
ghost use Rattle.translate.specs.Aims.{aims};
ghost use Rattle.translate.specs.Code.{target_of};

use arrayvec::ArrayVec;

// A loop: its name, the address of its block's first word, and the address behind its own word.
#[derive(Clone, Copy, Default)]
pub struct Target {
    pub name: u16,
    pub start: u32,
    pub end: u32,
}

// The open loops, the innermost last. A loop takes two of the 128 levels, so there are never more than 64.
#[derive(Drop)]
pub struct Targets {
    items: ArrayVec<Target, 64>,
}

impl Targets {
    pub(crate) fn new() -> Targets
        ensures { aims result ≡ [] }
    {
        Targets {
            items: ArrayVec::new(),
        }
    }

    pub(crate) fn open(&mut self, target: Target)
        requires { length (aims self.old) < 64 }
        ensures { aims self.new ≡ target ∷ aims self.old }
    {
        self.items.push(target);
    }

    pub(crate) fn close(&mut self)
        ensures { aims self.new ≡ drop 1 (aims self.old) }
    {
        self.items.pop();
    }

    // The innermost open loop of that name, 0 asking for the innermost.
    pub(crate) fn find(&self, name: u16) -> Target
        ensures { result ≡ target_of name (aims self.now) }
    {
        self.items
            .iter()
            .rev()
            .find(|target| name == 0 || target.name == name)
            .copied()
            .unwrap_or_default()
    }
}
