//! Numbers that look random and are the same in each run.

ghost use Rattle.std.specs.Prelude.{◌<◌};
ghost use Rattle.std.specs.List.Sorted.{IsPermutation};

use heap_model::Name;

/// The numbers of a linear congruential generator of 32 bits. It returns the upper 16 bits.
#[derive(Drop)]
pub(crate) struct Numbers {
    state: u32,
}

impl Numbers {
    pub(crate) fn new() -> Numbers {
        Numbers { state: 1 }
    }

    /// Returns the next number below a limit.
    pub(crate) fn below(&mut self, limit: usize) -> usize
        requires { 0 < limit }
        ensures { result < limit }
    {
        self.state = self
            .state
            .wrapping_mul(1_664_525)
            .wrapping_add(1_013_904_223);
        (self.state / 0x1_0000) as usize % limit
    }

    /// Shuffles names.
    pub(crate) fn shuffle(&mut self, names: &mut [Name])
        ensures { IsPermutation names.old names.new }
    {
        for i in 1..names.len() {
            let j = self.below(i + 1);
            names.swap(i, j);
        }
    }
}
