// The head of a book: its month, how many words it uses, and where its first class begins. Its counters have a module
// of their own.
ghost use Rattle.std.specs.Prelude.{◌≡◌, ◌≤◌, length, slice_set};
ghost use Rattle.word.specs.Codec.{Fits, Head, packed};
ghost use Rattle.word.specs.Head.{first_place, month_in, used_in, is_head};

use crate::codec::head_word;
use crate::counter::are_counters;
use crate::field::{Field, field_of};
use crate::kind::{HEAD, is_bare, key_of};
use crate::limits::SHORTEST_RUN;

// Where the first class begins: after the head and the counters, which the shortest run just holds.
pub const FIRST: usize = SHORTEST_RUN;

// Where the head holds the count of the words used.
pub const USED: Field = Field { low: 10, width: 16 };

pub fn month(run: &[u32]) -> u32
    requires { first_place ≤ length run.now }
    ensures { result ≡ month_in run.now }
{
    key_of(run[0], HEAD)
}

// How many words are used, the head with them.
pub fn used(run: &[u32]) -> usize
    requires { first_place ≤ length run.now }
    ensures { result ≡ used_in run.now }
{
    field_of(run[0], USED) as usize
}

// Whether the run begins with the head of a run of its length and with counters.
pub fn is_head(run: &[u32]) -> bool
    requires { first_place ≤ length run.now }
    ensures { result ≡ is_head run.now }
{
    let count = used(run);
    is_bare(run[0], HEAD, USED.low + USED.width)
        & ((FIRST <= count) & ((count <= run.len()) & are_counters(run)))
}

// Writes the head.
pub fn write(run: &mut [u32], month: u32, count: usize)
    requires { (first_place ≤ length run.old) × Fits (Head month count) }
    ensures { run.new ≡ slice_set run.old 0 (packed (Head month count)) }
{
    run[0] = head_word(month, count as u32);
}
