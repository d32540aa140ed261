// The eight kinds of word, packed.
ghost use Rattle.std.specs.Prelude.{◌≡◌};
ghost use Rattle.word.specs.Codec.{Class, Close, Counter, DayPrice, Expiration, Fits, Head, Strike, Volume, packed};

use crate::class::ClassRecord;
use crate::counter::STRIKES;
use crate::field::put_at;
use crate::head::USED;
use crate::kind::{CLASS, CLOSE, COUNTER, DAY_PRICE, EXPIRATION, HEAD, STRIKE, VOLUME, with_kind};
use crate::programs::{DOLLAR_BITS, HALF_BITS, TWO_FIFTY_BITS};
use crate::strike::{CALL, GROUND, PUT};

pub fn head_word(now: u32, used: u32) -> u32
    requires { Fits (Head now used) }
    ensures { result ≡ packed (Head now used) }
{
    with_kind(put_at(now, used, USED), HEAD)
}

pub fn class_word(figures: ClassRecord) -> u32
    requires { Fits (Class figures.number figures.designations) }
    ensures { result ≡ packed (Class figures.number figures.designations) }
{
    let designations = figures.designations;
    let dollar = put_at(figures.number, designations[0], DOLLAR_BITS);
    let half = put_at(dollar, designations[1], HALF_BITS);
    with_kind(put_at(half, designations[2], TWO_FIFTY_BITS), CLASS)
}

pub fn close_word(price: u32) -> u32
    requires { Fits (Close price) }
    ensures { result ≡ packed (Close price) }
{
    with_kind(price, CLOSE)
}

pub fn volume_word(contracts: u32) -> u32
    requires { Fits (Volume contracts) }
    ensures { result ≡ packed (Volume contracts) }
{
    with_kind(contracts, VOLUME)
}

pub fn expiration_word(month: u32) -> u32
    requires { Fits (Expiration month) }
    ensures { result ≡ packed (Expiration month) }
{
    with_kind(month, EXPIRATION)
}

pub fn strike_word(h: u32, ground: u32, put: u32, call: u32) -> u32
    requires { Fits (Strike h ground put call) }
    ensures { result ≡ packed (Strike h ground put call) }
{
    let below = put_at(put_at(h, ground, GROUND), put, PUT);
    with_kind(put_at(below, call, CALL), STRIKE)
}

pub fn day_price_word(price: u32) -> u32
    requires { Fits (DayPrice price) }
    ensures { result ≡ packed (DayPrice price) }
{
    with_kind(price, DAY_PRICE)
}

pub fn counter_word(own: u32, strikes: u32) -> u32
    requires { Fits (Counter own strikes) }
    ensures { result ≡ packed (Counter own strikes) }
{
    with_kind(put_at(own, strikes, STRIKES), COUNTER)
}
