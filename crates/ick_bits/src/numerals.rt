//! Numbers as letters, some of them with bars.

ghost use Rattle.std.specs.Prelude.{◌≡◌, ◌≤◌, ◌<◌, ◌++◌, ◌+◌, pos, length};
ghost use Rattle.arrayvec.specs.ArrayVec.{array_vec_len};
ghost use Rattle.ick_bits.specs.Numeral.{numeral_of, worth, digit_symbols, letters_of, symbol};

use arrayvec::ArrayVec;
use itoa::Buffer;

/// A letter of a numeral (Revised Manual, 4.4.13). A bar over it makes it worth a thousand times as
/// much. A small letter is worth a million times its capital.
#[derive(Clone, Copy, Debug, Default)]
pub struct Symbol {
    /// The letter, as an ASCII byte.
    pub letter: u8,
    /// Whether it has a bar over it.
    pub barred: bool,
}

/// The letters for one, five and ten of a decimal place.
#[derive(Clone, Copy)]
pub(crate) struct Letters {
    pub(crate) one: Symbol,
    pub(crate) five: Symbol,
    pub(crate) ten: Symbol,
}

/// A letter, and whether it has a bar.
type Letter = (u8, bool);

/// The letters for one, five and ten of each decimal place, from the units up. The last letter is
/// never used, because the digit at the last place is at most 4.
pub(crate) static PLACES: [(Letter, Letter, Letter); 10] = [
    ((b'I', false), (b'V', false), (b'X', false)),
    ((b'X', false), (b'L', false), (b'C', false)),
    ((b'C', false), (b'D', false), (b'M', false)),
    ((b'M', false), (b'V', true), (b'X', true)),
    ((b'X', true), (b'L', true), (b'C', true)),
    ((b'C', true), (b'D', true), (b'M', true)),
    ((b'M', true), (b'v', false), (b'x', false)),
    ((b'x', false), (b'l', false), (b'c', false)),
    ((b'c', false), (b'd', false), (b'm', false)),
    ((b'm', false), (b'v', true), (b'x', true)),
];

/// Returns the letter as a symbol.
fn symbol_of(letter: Letter) -> Symbol
    ensures { result ≡ symbol letter }
{
    Symbol {
        letter: letter.0,
        barred: letter.1,
    }
}

/// Returns the letters of the place that has `digits_after` digits to its right.
fn letters_at(digits_after: usize) -> Letters
    requires { digits_after < 10 }
    ensures { result ≡ letters_of digits_after }
{
    let (one, five, ten) = PLACES[digits_after];
    Letters {
        one: symbol_of(one),
        five: symbol_of(five),
        ten: symbol_of(ten),
    }
}

/// Returns the numeral of a number: for each decimal digit, from the left, the letters of its place
/// (Revised Manual, 4.4.13). Zero has no symbols (this profile).
///
/// The numeral's worth is the number. The worth adds the symbols' values, but subtracts a symbol if
/// the next one is worth more. A numeral has at most 39 symbols, as 3888888888 has.
pub fn numeral(number: u32) -> ArrayVec<Symbol, 39>
    ensures symbols { result.items ≡ numeral_of number }
    ensures worth { worth result.items ≡ pos number }
    ensures short { length result.items ≤ 39 }
{
    let mut buffer = Buffer::new();
    let digits = buffer.format(number).as_bytes();
    let mut symbols = ArrayVec::new();
    for (index, digit) in digits.iter().enumerate() {
        push_digit(
            &mut symbols,
            letters_at(digits.len() - 1 - index),
            *digit - b'0',
        );
    }
    symbols
}

/// Pushes the symbols of one digit.
#[tactic(auto, unfolding(crate::specs::Numeral::digit_symbols))]
fn push_digit(symbols: &mut ArrayVec<Symbol, 39>, letters: Letters, digit: u8)
    requires digit { digit < 10 }
    requires room { array_vec_len symbols.old + length (digit_symbols letters digit) ≤ 39 }
    ensures { symbols.new.items ≡ symbols.old.items ++ digit_symbols letters digit }
{
    let Letters { one, five, ten } = letters;
    match digit {
        0..=3 => push_all(symbols, &[one, one, one][..usize::from(digit)]),
        4 => push_all(symbols, &[one, five]),
        5..=8 => push_all(symbols, &[five, one, one, one][..usize::from(digit - 4)]),
        _ => push_all(symbols, &[one, ten]),
    }
}

/// Pushes these symbols, for which there is room.
fn push_all(symbols: &mut ArrayVec<Symbol, 39>, more: &[Symbol])
    requires { array_vec_len symbols.old + length more.now ≤ 39 }
    ensures { symbols.new.items ≡ symbols.old.items ++ more.now }
{
    symbols.try_extend_from_slice(more).unwrap();
}
