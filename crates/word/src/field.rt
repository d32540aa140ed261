// All work on single bits: a field read, and a field put above those already there.
ghost use Rattle.std.specs.Prelude.{◌≡◌, ◌+◌, ◌*◌, ◌^◌, ◌<◌};
ghost use Rattle.word.specs.Field.{field, Readable, Puttable};

// Where a field stands in its word.
#[derive(Clone, Copy)]
pub struct Field {
    // Its lowest bit.
    pub low: u32,
    // How many bits it has.
    pub width: u32,
}

pub fn field_of(w: u32, f: Field) -> u32
    requires { Readable f }
    ensures { result ≡ field w f }
{
    (w >> f.low) & ((1 << f.width) - 1)
}

// `below`, which has no bit from the field on, with `value` in the field.
pub fn put_at(below: u32, value: u32, f: Field) -> u32
    requires { Puttable below value f }
    ensures { result ≡ below + value * 2 ^ f.low }
{
    below | (value << f.low)
}
