ghost use Rattle.std.specs.Prelude.{◌≡◌, ◌<◌, IfOk, OnOk};
ghost use Rattle.ssz_machine.specs.Drawing.{next_seed, drawn, drawn_below, seed_after, drawn_bytes, drawn_bit};

use ssz_bytes::ByteRun;
use std::alloc::{AllocError, Global};
use std::marker::Model;

/// A generator of numbers that are all determined by the one that it begins with. It is seen as its
/// state.
#[derive(Clone, Copy, Debug)]
pub struct Generator {
    state: u64,
}

impl Model for Generator {
    ghost use Rattle.std.specs.Prelude.{ℕ};

    ghost Value = { ℕ };

    ghost view = { λ a. a.state };

    ghost inverse = { λ n. record { state = n } };
}

// The greatest number below which one draw is spread.
const MOST: u64 = 1 << 31;

impl Generator {
    /// The generator that begins with this number.
    pub fn new(seed: u64) -> Self
        ensures { result ≡ seed }
    {
        Generator { state: seed }
    }

    /// The next number below k, of the highest 31 bits of the next state.
    pub(crate) fn draw(&mut self, k: u64) -> u64
        requires { 0 < k }
        ensures drawn { result ≡ drawn k self.old }
        ensures next { self.new ≡ next_seed self.old }
        ensures below { result < k }
    {
        self.state = self
            .state
            .wrapping_mul(6364136223846793005)
            .wrapping_add(1442695040888963407);
        self.state / (1 << 33) % k
    }

    /// The next number below n, of which the first 2^31 alone are drawn.
    pub(crate) fn draw_below(&mut self, n: u64) -> u64
        requires { 0 < n }
        ensures drawn { result ≡ drawn_below n self.old }
        ensures next { self.new ≡ next_seed self.old }
        ensures below { result < n }
    {
        self.draw(n.min(MOST))
    }

    /// So many bytes, one draw each.
    pub(crate) fn draw_bytes(&mut self, alloc: Global, count: u64) -> Result<ByteRun, AllocError>
        ensures drawn { IfOk result (λ run. run ≡ drawn_bytes count self.old) }
        ensures next { OnOk result (self.new ≡ seed_after count self.old) }
    {
        let mut bytes = Vec::new(alloc);
        for _i in 0..count {
            bytes.push(self.draw(256) as u8)?;
        }
        Ok(ByteRun::from_bytes(bytes))
    }

    /// The byte of a drawn bit.
    pub(crate) fn draw_bit(&mut self, alloc: Global) -> Result<ByteRun, AllocError>
        ensures drawn { IfOk result (λ run. run ≡ drawn_bit self.old) }
        ensures next { OnOk result (self.new ≡ next_seed self.old) }
    {
        let bit = self.draw(2) as u8;
        ByteRun::copy_of(alloc, &[bit])
    }
}
