//! The two lines of a numeral, digit by digit, from tables.

ghost use Rattle.std.specs.Prelude.{◌≡◌, ◌<◌, length, map, take};
ghost use Rattle.ick_bits.specs.Numeral.{place_symbols, digit_symbols};
ghost use Rattle.ick_bits.specs.Numeral.{letter_byte, bar_byte, bar_line};
ghost use Rattle.ick_bits.specs.declared.numerals.Letters.{Letters};

/// Returns the letters of a digit, in the first of four bytes.
pub(crate) fn row_of_letters(place: usize, digit: usize) -> [u8; 4]
    requires place { place < 10 }
    requires digit { digit < 10 }
    ensures { let symbols = place_symbols place digit in
        take (length symbols) result ≡ map letter_byte symbols }
{
    LETTERS[place][digit]
}

/// Returns the bars and spaces over the letters of a digit, in the first of four bytes.
pub(crate) fn row_of_bars(place: usize, digit: usize) -> [u8; 4]
    requires place { place < 10 }
    requires digit { digit < 10 }
    ensures { let symbols = place_symbols place digit in
        take (length symbols) result ≡ map bar_byte symbols }
{
    BARS[place][digit]
}

/// Returns how many letters a digit has up to its last barred letter.
pub(crate) fn inked_count(place: usize, digit: usize) -> usize
    requires place { place < 10 }
    requires digit { digit < 10 }
    ensures count { result ≡ length (bar_line (place_symbols place digit)) }
    ensures few { result < 5 }
{
    usize::from(INKED[place][digit])
}

/// Returns how many letters a digit has, which is the same at each place.
pub(crate) fn letter_count(digit: usize) -> usize
    requires { digit < 10 }
    ensures count { (letters : Letters) → result ≡ length (digit_symbols letters digit) }
    ensures few { result < 5 }
{
    usize::from(COUNTS[digit])
}

/// For each place, from the units up, the letters of each digit.
static LETTERS: [[[u8; 4]; 10]; 10] = [
    [
        *b"    ", *b"I   ", *b"II  ", *b"III ", *b"IV  ", *b"V   ", *b"VI  ", *b"VII ", *b"VIII",
        *b"IX  ",
    ],
    [
        *b"    ", *b"X   ", *b"XX  ", *b"XXX ", *b"XL  ", *b"L   ", *b"LX  ", *b"LXX ", *b"LXXX",
        *b"XC  ",
    ],
    [
        *b"    ", *b"C   ", *b"CC  ", *b"CCC ", *b"CD  ", *b"D   ", *b"DC  ", *b"DCC ", *b"DCCC",
        *b"CM  ",
    ],
    [
        *b"    ", *b"M   ", *b"MM  ", *b"MMM ", *b"MV  ", *b"V   ", *b"VM  ", *b"VMM ", *b"VMMM",
        *b"MX  ",
    ],
    [
        *b"    ", *b"X   ", *b"XX  ", *b"XXX ", *b"XL  ", *b"L   ", *b"LX  ", *b"LXX ", *b"LXXX",
        *b"XC  ",
    ],
    [
        *b"    ", *b"C   ", *b"CC  ", *b"CCC ", *b"CD  ", *b"D   ", *b"DC  ", *b"DCC ", *b"DCCC",
        *b"CM  ",
    ],
    [
        *b"    ", *b"M   ", *b"MM  ", *b"MMM ", *b"Mv  ", *b"v   ", *b"vM  ", *b"vMM ", *b"vMMM",
        *b"Mx  ",
    ],
    [
        *b"    ", *b"x   ", *b"xx  ", *b"xxx ", *b"xl  ", *b"l   ", *b"lx  ", *b"lxx ", *b"lxxx",
        *b"xc  ",
    ],
    [
        *b"    ", *b"c   ", *b"cc  ", *b"ccc ", *b"cd  ", *b"d   ", *b"dc  ", *b"dcc ", *b"dccc",
        *b"cm  ",
    ],
    [
        *b"    ", *b"m   ", *b"mm  ", *b"mmm ", *b"mv  ", *b"v   ", *b"vm  ", *b"vmm ", *b"vmmm",
        *b"mx  ",
    ],
];

/// For each place and each digit, a bar or a space over each letter.
static BARS: [[[u8; 4]; 10]; 10] = [
    [
        *b"    ", *b"    ", *b"    ", *b"    ", *b"    ", *b"    ", *b"    ", *b"    ", *b"    ",
        *b"    ",
    ],
    [
        *b"    ", *b"    ", *b"    ", *b"    ", *b"    ", *b"    ", *b"    ", *b"    ", *b"    ",
        *b"    ",
    ],
    [
        *b"    ", *b"    ", *b"    ", *b"    ", *b"    ", *b"    ", *b"    ", *b"    ", *b"    ",
        *b"    ",
    ],
    [
        *b"    ", *b"    ", *b"    ", *b"    ", *b" _  ", *b"_   ", *b"_   ", *b"_   ", *b"_   ",
        *b" _  ",
    ],
    [
        *b"    ", *b"_   ", *b"__  ", *b"___ ", *b"__  ", *b"_   ", *b"__  ", *b"___ ", *b"____",
        *b"__  ",
    ],
    [
        *b"    ", *b"_   ", *b"__  ", *b"___ ", *b"__  ", *b"_   ", *b"__  ", *b"___ ", *b"____",
        *b"__  ",
    ],
    [
        *b"    ", *b"_   ", *b"__  ", *b"___ ", *b"_   ", *b"    ", *b" _  ", *b" __ ", *b" ___",
        *b"_   ",
    ],
    [
        *b"    ", *b"    ", *b"    ", *b"    ", *b"    ", *b"    ", *b"    ", *b"    ", *b"    ",
        *b"    ",
    ],
    [
        *b"    ", *b"    ", *b"    ", *b"    ", *b"    ", *b"    ", *b"    ", *b"    ", *b"    ",
        *b"    ",
    ],
    [
        *b"    ", *b"    ", *b"    ", *b"    ", *b" _  ", *b"_   ", *b"_   ", *b"_   ", *b"_   ",
        *b" _  ",
    ],
];

/// For each place and each digit, the number of letters up to the last barred letter.
static INKED: [[u8; 10]; 10] = [
    [0, 0, 0, 0, 0, 0, 0, 0, 0, 0],
    [0, 0, 0, 0, 0, 0, 0, 0, 0, 0],
    [0, 0, 0, 0, 0, 0, 0, 0, 0, 0],
    [0, 0, 0, 0, 2, 1, 1, 1, 1, 2],
    [0, 1, 2, 3, 2, 1, 2, 3, 4, 2],
    [0, 1, 2, 3, 2, 1, 2, 3, 4, 2],
    [0, 1, 2, 3, 1, 0, 2, 3, 4, 1],
    [0, 0, 0, 0, 0, 0, 0, 0, 0, 0],
    [0, 0, 0, 0, 0, 0, 0, 0, 0, 0],
    [0, 0, 0, 0, 2, 1, 1, 1, 1, 2],
];

/// For each digit, the number of its letters.
static COUNTS: [u8; 10] = [0, 1, 2, 3, 2, 1, 2, 3, 4, 2];
