// The words of a class's figures, which begin at a place of a run: the class word, then the close, the volume, the
// day's low and its high.
ghost use Rattle.std.specs.Prelude.{◌≡◌, ◌+◌, ◌≤◌, T, [], map, length};
ghost use Rattle.std.proofs.lemmas.List.Edits.{sets};
ghost use Rattle.word.specs.Codec.{packed};
ghost use Rattle.word.specs.Figures.{figures_length, figures_words, figures_at, are_figures, is_class_above, is_volume_word, are_figures_at};

use crate::class::ClassRecord;
use crate::codec::{class_word, close_word, day_price_word, volume_word};
use crate::field::field_of;
use crate::kind::{CLASS, CLOSE, DAY_PRICE, VOLUME, below_kind, is_bare, is_of_kind, key_of};
use crate::limits::{are_day_prices, is_volume};
use crate::programs::{
    DESIGNATIONS_END, DOLLAR_BITS, HALF_BITS, TWO_FIFTY_BITS, is_designation_in,
};

// How many words there are.
pub const LENGTH: usize = 5;

// What they say.
pub fn read(run: &[u32], at: usize) -> ClassRecord
    requires { at + figures_length ≤ length run.now }
    ensures { result ≡ figures_at at run.now }
{
    let designations = [
        field_of(run[at], DOLLAR_BITS),
        field_of(run[at], HALF_BITS),
        field_of(run[at], TWO_FIFTY_BITS),
    ];
    ClassRecord {
        number: key_of(run[at], CLASS),
        close: key_of(run[at + 1], CLOSE),
        volume: key_of(run[at + 2], VOLUME),
        low: key_of(run[at + 3], DAY_PRICE),
        high: key_of(run[at + 4], DAY_PRICE),
        designations,
    }
}

// The words of these figures.
pub fn words(figures: ClassRecord) -> [u32; LENGTH]
    requires { T (are_figures figures) }
    ensures { result ≡ map packed (figures_words figures []) }
{
    [
        class_word(figures),
        close_word(figures.close),
        volume_word(figures.volume),
        day_price_word(figures.low),
        day_price_word(figures.high),
    ]
}

pub fn write(run: &mut [u32], at: usize, figures: ClassRecord)
    requires { (at + figures_length ≤ length run.old) × T (are_figures figures) }
    ensures { run.new ≡ sets run.old at (map packed (figures_words figures [])) }
{
    run[at..at + LENGTH].copy_from_slice(&words(figures));
}

// A class word whose number is above the one before it.
fn is_class_above(w: u32, above: u32) -> bool
    ensures { result ≡ is_class_above above w }
{
    is_bare(w, CLASS, DESIGNATIONS_END)
        & ((above < key_of(w, CLASS))
            & (is_designation_in(w, DOLLAR_BITS)
                & (is_designation_in(w, HALF_BITS) & is_designation_in(w, TWO_FIFTY_BITS))))
}

fn is_volume_word(w: u32) -> bool
    ensures { result ≡ is_volume_word w }
{
    is_of_kind(w, VOLUME) & is_volume(below_kind(w))
}

// Whether the words are those of figures in their limits, of a class whose number is above the one before it.
pub fn are_figures(run: &[u32], at: usize, above: u32) -> bool
    requires { at + figures_length ≤ length run.now }
    ensures { result ≡ are_figures_at above at run.now }
{
    let close = run[at + 1];
    let low = run[at + 3];
    let high = run[at + 4];
    is_class_above(run[at], above)
        & (is_volume_word(run[at + 2])
            & (is_of_kind(close, CLOSE)
                & (is_of_kind(low, DAY_PRICE)
                    & (is_of_kind(high, DAY_PRICE)
                        & are_day_prices(below_kind(low), below_kind(close), below_kind(high))))))
}
