// A run of bits of a word, bits HI:LO in the notation of document 01: read, and put. A word has 64 bits, and HI and LO count modulo 64.
ghost use Rattle.std.specs.Prelude.{◌≡◌, ◌+◌, ◌-◌, ◌*◌, ◌%◌, ◌^◌};
ghost use Rattle.words.specs.Runs.{bits, low, FieldAlone};

// As many ones as bits HI:LO are, from bit 0 on.
fn ones<const HI: u32, const LO: u32>() -> u64
    ensures { result ≡ 2 ^ (HI % 64 + 1 - LO % 64) - 1 }
{
    u64::MAX >> (63 - HI % 64) >> (LO % 64)
}

// What stands in bits HI:LO.
pub fn read<const HI: u32, const LO: u32>(w: u64) -> u64
    ensures { result ≡ bits w (HI % 64) (LO % 64) }
{
    (w >> (LO % 64)) & ones::<HI, LO>()
}

// A number's low bits at bits HI:LO, and no other bit.
pub fn placed<const HI: u32, const LO: u32>(v: u64) -> u64
    ensures { result ≡ low (HI % 64 + 1 - LO % 64) v * 2 ^ (LO % 64) }
{
    (v & ones::<HI, LO>()) << (LO % 64)
}

// The word with a number's low bits at bits HI:LO, and every other bit as it was.
pub fn put<const HI: u32, const LO: u32>(w: u64, v: u64) -> u64
    ensures { FieldAlone w result (HI % 64) (LO % 64) (low (HI % 64 + 1 - LO % 64) v) }
{
    (w & !placed::<HI, LO>(u64::MAX)) | placed::<HI, LO>(v)
}
