// The eight kinds of word: their numbers, and what their words are ordered by.
ghost use Rattle.std.specs.Prelude.{◌≡◌, ◌+◌, ◌*◌, ◌^◌, ◌<◌, ◌≤◌};
ghost use Rattle.word.specs.Kinds.{kind_field, kind_of, key_of, is_of_kind, below_kind, is_bare, grade_of, grade_at};

use crate::field::{Field, field_of, put_at};

// A struct and no enum: the row of a kind is its two numbers, which an enum would give by two matches over all kinds.
#[derive(Clone, Copy)]
pub struct Kind {
    pub number: u32,
    // How many bits the lowest field has: the key, by which the words of a kind are ordered.
    pub width: u32,
}

pub const HEAD: Kind = Kind {
    number: 1,
    width: 10,
};

pub const CLASS: Kind = Kind {
    number: 2,
    width: 14,
};

pub const CLOSE: Kind = Kind {
    number: 3,
    width: 20,
};

pub const VOLUME: Kind = Kind {
    number: 4,
    width: 24,
};

pub const EXPIRATION: Kind = Kind {
    number: 5,
    width: 10,
};

pub const STRIKE: Kind = Kind {
    number: 6,
    width: 15,
};

// The day's low or its high.
pub const DAY_PRICE: Kind = Kind {
    number: 7,
    width: 20,
};

// What a program counts over the book.
pub const COUNTER: Kind = Kind {
    number: 8,
    width: 8,
};

// Where the number of its kind stands in a word.
pub const NUMBER: Field = Field { low: 28, width: 4 };

// How many words of one kind there are, and the highest number below a kind.
pub const KINDRED: u32 = 268435456;

const HIGHEST_BELOW: u32 = 268435455;

// The number of the kind of a word.
pub fn kind_of(w: u32) -> u32
    ensures { result ≡ kind_of w }
{
    w >> NUMBER.low
}

// The key of a word of the kind.
pub fn key_of(w: u32, k: Kind) -> u32
    requires { k.width < 32 }
    ensures { result ≡ key_of k w }
{
    field_of(
        w,
        Field {
            low: 0,
            width: k.width,
        },
    )
}

pub fn is_of_kind(w: u32, k: Kind) -> bool
    ensures { result ≡ is_of_kind k w }
{
    kind_of(w) == k.number
}

// All bits of a word below its kind.
pub fn below_kind(w: u32) -> u32
    ensures { result ≡ below_kind w }
{
    field_of(
        w,
        Field {
            low: 0,
            width: NUMBER.low,
        },
    )
}

// `below`, the fields of a word, with its kind above them.
pub fn with_kind(below: u32, k: Kind) -> u32
    requires { (below < 2 ^ kind_field.low) × (k.number < 2 ^ kind_field.width) }
    ensures { result ≡ below + k.number * 2 ^ kind_field.low }
{
    put_at(below, k.number, NUMBER)
}

// Whether a word is of the kind and has no other bit from bit `end` on.
pub fn is_bare(w: u32, k: Kind, end: u32) -> bool
    requires { (end ≤ kind_field.low) × (k.number < 2 ^ kind_field.width) }
    ensures { result ≡ is_bare k end w }
{
    w >> end == k.number << (NUMBER.low - end)
}

// A word by its kind, and in its kind by how low its key is. The mask is made of a constant, so that the compiler knows
// that the key is below the kind.
pub fn grade(w: u32, k: Kind) -> u32
    requires { k.width ≤ kind_field.low }
    ensures { result ≡ grade_of k w }
{
    let mask = HIGHEST_BELOW >> (NUMBER.low - k.width);
    kind_of(w) * KINDRED + (HIGHEST_BELOW - (w & mask))
}

// The grade of a word of the kind with this key.
pub fn grade_at(k: Kind, key: u32) -> u32
    requires { (k.number < 2 ^ kind_field.width) × (key < 2 ^ kind_field.low) }
    ensures { result ≡ grade_at k key }
{
    k.number * KINDRED + (HIGHEST_BELOW - key)
}
