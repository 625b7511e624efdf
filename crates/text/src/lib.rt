// Numbers and words as text in a lent buffer, for the programs that print answers.
// Promised: `put_number` puts the decimal digits, `put_hex` those in base 16 and `put_word` the bytes, at the place that was asked for, and says how many
// they are; where they have no room nothing is written, and the count is 0. What lies around them stays.
#![tactic(auto)]

ghost use Rattle.std.specs.Prelude.{◌≡◌, ◌+◌, ◌<◌, ◌≤◌, leb, length};
ghost use Rattle.std.proofs.lemmas.List.Edits.{sets};
ghost use Rattle.text.specs.Text.{up_to, decimal, digits_in, hex_digit, hex, Put};

// The powers of a base that 32 bits hold: a number has a digit more than there are powers up to it.
const TENS: [u32; 9] = [
    10,
    100,
    1_000,
    10_000,
    100_000,
    1_000_000,
    10_000_000,
    100_000_000,
    1_000_000_000,
];

const SIXTEENS: [u32; 7] = [
    0x10,
    0x100,
    0x1000,
    0x1_0000,
    0x10_0000,
    0x100_0000,
    0x1000_0000,
];

// The first power above a number ends the search: short numbers are found soon.
fn places(powers: &[u32], n: u32) -> usize
    ensures { result ≡ up_to n powers.now + 1 }
{
    powers
        .iter()
        .position(|power| n < *power)
        .unwrap_or(powers.len())
        + 1
}

// Whether n bytes have room from a place on; no sum, so that none can wrap.
pub fn has_room(text: &[u8], at: usize, n: usize) -> bool
    ensures { result ≡ leb (at + n) (length text.now) }
{
    at <= text.len() && n <= text.len() - at
}

// A digit of a base up to 16.
#[tactic(auto, unfolding(crate::specs::Text::hex_digit))]
fn digit(d: u32) -> u8
    requires { d < 16 }
    ensures { result ≡ hex_digit d }
{
    if d < 10 {
        return 48 + d as u8;
    }
    55 + d as u8
}

// The last k digits of n, from the last place to the first. A buffer and a place, no pen: what the public functions promise (`Put`) names both.
fn spell<const BASE: u32>(text: &mut [u8], at: usize, k: usize, n: u32)
    requires base { (1 < BASE) × (BASE ≤ 16) }
    requires room { at + k ≤ length text.old }
    ensures { text.new ≡ sets text.old at (digits_in BASE k n) }
{
    let mut rest = n;
    for i in (0..k).rev() {
        text[at + i] = digit(rest % BASE);
        rest /= BASE;
    }
}

fn put_digits<const BASE: u32>(text: &mut [u8], at: usize, k: usize, n: u32) -> usize
    requires { (1 < BASE) × (BASE ≤ 16) }
    ensures { Put text.old at (digits_in BASE k n) result text.new }
{
    if !has_room(text, at, k) {
        return 0;
    }
    spell::<BASE>(text, at, k, n);
    k
}

// A count, and 0 where there is no room: no `Option`, since `Put` is promised of every place.
pub fn put_number(text: &mut [u8], at: usize, n: u32) -> usize
    ensures { Put text.old at (decimal n) result text.new }
{
    put_digits::<10>(text, at, places(&TENS, n), n)
}

// At least so many digits.
pub fn put_hex(text: &mut [u8], at: usize, least: usize, n: u32) -> usize
    ensures { Put text.old at (hex least n) result text.new }
{
    put_digits::<16>(text, at, least.max(places(&SIXTEENS, n)), n)
}

pub fn put_word(text: &mut [u8], at: usize, word: &[u8]) -> usize
    ensures { Put text.old at word.now result text.new }
{
    if !has_room(text, at, word.len()) {
        return 0;
    }
    text[at..at + word.len()].copy_from_slice(word);
    word.len()
}
