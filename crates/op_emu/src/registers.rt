//! The registers x0 to x31.
ghost use Rattle.std.specs.Prelude.{◌≡◌, ◌<◌, slice_index, replicate};
ghost use Rattle.op_emu.specs.Registers.{value_of, with_value};

/// 32 words, of which the first is always 0.
#[derive(Clone, Copy)]
pub struct Registers {
    words: [u32; 32],
    ghost zero: { slice_index words 0 ≡ 0 },
}

impl Registers {
    pub fn new() -> Registers
        ensures { result.words ≡ replicate 32 0 }
    {
        Registers { words: [0; 32] }
    }

    #[inline(always)]
    pub fn get(&self, r: u8) -> u32
        requires { r < 32 }
        ensures { result ≡ value_of self.now.words r }
    {
        self.words[r as usize]
    }

    /// A write of x0 is lost.
    #[inline(always)]
    pub fn set(&mut self, r: u8, value: u32)
        requires { r < 32 }
        ensures { self.new.words ≡ with_value self.old.words r value }
    {
        if r != 0 {
            self.words[r as usize] = value;
        }
    }
}
