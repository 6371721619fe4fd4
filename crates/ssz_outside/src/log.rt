// What files in memory were asked for, in order.
ghost use Rattle.std.specs.Prelude.{◌≡◌, [], ◌∷◌, ◌++◌, OnOk, OnErr};

use std::alloc::{AllocError, Global};
use std::marker::Model;

#[derive(Drop)]
struct Ask {
    name: Vec<u8>,
    max: u64,
}

impl Model for Ask {
    ghost use Rattle.std.specs.Prelude.{List, ℕ};

    ghost Value = { List ℕ × ℕ };

    ghost view = { λ a. (a.name.items, a.max) };
}

#[derive(Drop)]
pub struct Log {
    alloc: Global,
    asks: Vec<Ask>,
}

impl Model for Log {
    ghost use Rattle.std.specs.Prelude.{List, ℕ};

    ghost Value = { List (List ℕ × ℕ) };

    ghost view = { λ l. l.asks.items };
}

impl Log {
    pub fn new(alloc: Global) -> Self
        ensures { result ≡ [] }
    {
        Log {
            alloc,
            asks: Vec::new(alloc),
        }
    }

    /// Takes one more ask, or leaves all as it was.
    pub fn append(&mut self, name: &str, max: u64) -> Result<(), AllocError>
        ensures ok { OnOk result (self.new ≡ self.old ++ (name.now, max) ∷ []) }
        ensures err { OnErr result (self.new ≡ self.old) }
    {
        let name = Vec::from_slice(self.alloc, name.as_bytes())?;
        self.asks.reserve(1)?;
        self.asks.push_reserved(Ask { name, max });
        Ok(())
    }
}
