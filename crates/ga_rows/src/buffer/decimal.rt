//! Numbers in decimal behind a piece of text: bytes from a table, sums digit by digit.
ghost use Rattle.ga_rows.specs.Text.{numbers_text};
ghost use Rattle.std.specs.Prelude.{◌≡◌, ◌+◌, ◌*◌, ◌<◌, ◌≤◌, [], ◌∷◌, ◌++◌, decimal, length, reverse, take};

use super::{PIECE_SIZE, Piece};

// How many bytes a text of the table has, and so how many are put for each number.
const TEXT_SIZE: usize = 4;

/// Each byte in decimal, with spaces behind it.
static TEXTS: [[u8; TEXT_SIZE]; 256] = [
    *b"0   ", *b"1   ", *b"2   ", *b"3   ", *b"4   ", *b"5   ", *b"6   ", *b"7   ", *b"8   ",
    *b"9   ", *b"10  ", *b"11  ", *b"12  ", *b"13  ", *b"14  ", *b"15  ", *b"16  ", *b"17  ",
    *b"18  ", *b"19  ", *b"20  ", *b"21  ", *b"22  ", *b"23  ", *b"24  ", *b"25  ", *b"26  ",
    *b"27  ", *b"28  ", *b"29  ", *b"30  ", *b"31  ", *b"32  ", *b"33  ", *b"34  ", *b"35  ",
    *b"36  ", *b"37  ", *b"38  ", *b"39  ", *b"40  ", *b"41  ", *b"42  ", *b"43  ", *b"44  ",
    *b"45  ", *b"46  ", *b"47  ", *b"48  ", *b"49  ", *b"50  ", *b"51  ", *b"52  ", *b"53  ",
    *b"54  ", *b"55  ", *b"56  ", *b"57  ", *b"58  ", *b"59  ", *b"60  ", *b"61  ", *b"62  ",
    *b"63  ", *b"64  ", *b"65  ", *b"66  ", *b"67  ", *b"68  ", *b"69  ", *b"70  ", *b"71  ",
    *b"72  ", *b"73  ", *b"74  ", *b"75  ", *b"76  ", *b"77  ", *b"78  ", *b"79  ", *b"80  ",
    *b"81  ", *b"82  ", *b"83  ", *b"84  ", *b"85  ", *b"86  ", *b"87  ", *b"88  ", *b"89  ",
    *b"90  ", *b"91  ", *b"92  ", *b"93  ", *b"94  ", *b"95  ", *b"96  ", *b"97  ", *b"98  ",
    *b"99  ", *b"100 ", *b"101 ", *b"102 ", *b"103 ", *b"104 ", *b"105 ", *b"106 ", *b"107 ",
    *b"108 ", *b"109 ", *b"110 ", *b"111 ", *b"112 ", *b"113 ", *b"114 ", *b"115 ", *b"116 ",
    *b"117 ", *b"118 ", *b"119 ", *b"120 ", *b"121 ", *b"122 ", *b"123 ", *b"124 ", *b"125 ",
    *b"126 ", *b"127 ", *b"128 ", *b"129 ", *b"130 ", *b"131 ", *b"132 ", *b"133 ", *b"134 ",
    *b"135 ", *b"136 ", *b"137 ", *b"138 ", *b"139 ", *b"140 ", *b"141 ", *b"142 ", *b"143 ",
    *b"144 ", *b"145 ", *b"146 ", *b"147 ", *b"148 ", *b"149 ", *b"150 ", *b"151 ", *b"152 ",
    *b"153 ", *b"154 ", *b"155 ", *b"156 ", *b"157 ", *b"158 ", *b"159 ", *b"160 ", *b"161 ",
    *b"162 ", *b"163 ", *b"164 ", *b"165 ", *b"166 ", *b"167 ", *b"168 ", *b"169 ", *b"170 ",
    *b"171 ", *b"172 ", *b"173 ", *b"174 ", *b"175 ", *b"176 ", *b"177 ", *b"178 ", *b"179 ",
    *b"180 ", *b"181 ", *b"182 ", *b"183 ", *b"184 ", *b"185 ", *b"186 ", *b"187 ", *b"188 ",
    *b"189 ", *b"190 ", *b"191 ", *b"192 ", *b"193 ", *b"194 ", *b"195 ", *b"196 ", *b"197 ",
    *b"198 ", *b"199 ", *b"200 ", *b"201 ", *b"202 ", *b"203 ", *b"204 ", *b"205 ", *b"206 ",
    *b"207 ", *b"208 ", *b"209 ", *b"210 ", *b"211 ", *b"212 ", *b"213 ", *b"214 ", *b"215 ",
    *b"216 ", *b"217 ", *b"218 ", *b"219 ", *b"220 ", *b"221 ", *b"222 ", *b"223 ", *b"224 ",
    *b"225 ", *b"226 ", *b"227 ", *b"228 ", *b"229 ", *b"230 ", *b"231 ", *b"232 ", *b"233 ",
    *b"234 ", *b"235 ", *b"236 ", *b"237 ", *b"238 ", *b"239 ", *b"240 ", *b"241 ", *b"242 ",
    *b"243 ", *b"244 ", *b"245 ", *b"246 ", *b"247 ", *b"248 ", *b"249 ", *b"250 ", *b"251 ",
    *b"252 ", *b"253 ", *b"254 ", *b"255 ",
];

/// How many digits each byte has.
static DIGITS: [u8; 256] = [
    1, 1, 1, 1, 1, 1, 1, 1, 1, 1, 2, 2, 2, 2, 2, 2, 2, 2, 2, 2, 2, 2, 2, 2, 2, 2, 2, 2, 2, 2, 2, 2,
    2, 2, 2, 2, 2, 2, 2, 2, 2, 2, 2, 2, 2, 2, 2, 2, 2, 2, 2, 2, 2, 2, 2, 2, 2, 2, 2, 2, 2, 2, 2, 2,
    2, 2, 2, 2, 2, 2, 2, 2, 2, 2, 2, 2, 2, 2, 2, 2, 2, 2, 2, 2, 2, 2, 2, 2, 2, 2, 2, 2, 2, 2, 2, 2,
    2, 2, 2, 2, 3, 3, 3, 3, 3, 3, 3, 3, 3, 3, 3, 3, 3, 3, 3, 3, 3, 3, 3, 3, 3, 3, 3, 3, 3, 3, 3, 3,
    3, 3, 3, 3, 3, 3, 3, 3, 3, 3, 3, 3, 3, 3, 3, 3, 3, 3, 3, 3, 3, 3, 3, 3, 3, 3, 3, 3, 3, 3, 3, 3,
    3, 3, 3, 3, 3, 3, 3, 3, 3, 3, 3, 3, 3, 3, 3, 3, 3, 3, 3, 3, 3, 3, 3, 3, 3, 3, 3, 3, 3, 3, 3, 3,
    3, 3, 3, 3, 3, 3, 3, 3, 3, 3, 3, 3, 3, 3, 3, 3, 3, 3, 3, 3, 3, 3, 3, 3, 3, 3, 3, 3, 3, 3, 3, 3,
    3, 3, 3, 3, 3, 3, 3, 3, 3, 3, 3, 3, 3, 3, 3, 3, 3, 3, 3, 3, 3, 3, 3, 3, 3, 3, 3, 3, 3, 3, 3, 3,
];

impl Piece {
    /// Appends a number of at most four digits in decimal, without leading zeros. There is room for
    /// four.
    #[inline]
    #[tactic(auto, using(std::proofs::lemmas::Fmt::decimal_digit))]
    pub fn push_decimal(&mut self, number: u16)
        requires small { number < 10000 }
        requires room { length self.old + 4 ≤ PIECE_SIZE }
        ensures text { self.new ≡ self.old ++ decimal number }
        ensures digits { length self.new ≤ length self.old + 4 }
    {
        if number < 1000 {
            self.push_below_1000(number);
        } else {
            self.push_below_1000(number / 10);
            self.push_digit(number % 10);
        }
    }

    #[inline]
    #[tactic(auto, using(std::proofs::lemmas::Fmt::decimal_digit))]
    fn push_below_1000(&mut self, number: u16)
        requires small { number < 1000 }
        requires room { length self.old + 3 ≤ PIECE_SIZE }
        ensures text { self.new ≡ self.old ++ decimal number }
        ensures digits { length self.new ≤ length self.old + 3 }
    {
        if number < 10 {
            self.push_digit(number);
        } else if number < 100 {
            self.push_digit(number / 10);
            self.push_digit(number % 10);
        } else {
            self.push_digit(number / 100);
            self.push_digit(number / 10 % 10);
            self.push_digit(number % 10);
        }
    }

    #[inline]
    fn push_digit(&mut self, digit: u16)
        requires small { digit < 10 }
        requires room { length self.old < PIECE_SIZE }
        ensures { self.new ≡ self.old ++ (48 + digit) ∷ [] }
    {
        self.push(b'0' + digit as u8);
    }

    /// Appends numbers in decimal, joined by one space. There is room for four bytes each.
    #[inline]
    pub fn push_numbers(&mut self, numbers: &[u8])
        requires { length self.old + 4 * length numbers.now ≤ PIECE_SIZE }
        ensures text { self.new ≡ self.old ++ numbers_text numbers.now }
        ensures bytes { length self.new ≤ length self.old + 4 * length numbers.now }
    {
        let Some((first, others)) = numbers.split_first() else {
            return;
        };
        let mut end = put_number(&mut self.bytes, self.len, *first);
        for number in others {
            self.bytes[end] = b' ';
            end = put_number(&mut self.bytes, end + 1, *number);
        }
        self.len = end;
    }

    /// Appends numbers in decimal, from the last to the first, joined by one space. There is room
    /// for four bytes each.
    #[inline]
    pub fn push_numbers_back(&mut self, numbers: &[u8])
        requires { length self.old + 4 * length numbers.now ≤ PIECE_SIZE }
        ensures text { self.new ≡ self.old ++ numbers_text (reverse numbers.now) }
        ensures bytes { length self.new ≤ length self.old + 4 * length numbers.now }
    {
        let Some((last, others)) = numbers.split_last() else {
            return;
        };
        let mut end = put_number(&mut self.bytes, self.len, *last);
        for number in others.iter().rev() {
            self.bytes[end] = b' ';
            end = put_number(&mut self.bytes, end + 1, *number);
        }
        self.len = end;
    }
}

// Puts one number in decimal into the text from `start` on, and returns where it ends. What is
// behind that end may change too, as far as the table's text goes.
#[inline]
fn put_number(text: &mut [u8], start: usize, number: u8) -> usize
    requires { start + 4 ≤ length text.old }
    ensures text { take result text.new ≡ take start text.old ++ decimal number }
    ensures bytes { result ≤ start + 3 }
{
    let (digits, count) = digits_of(number);
    text[start..start + TEXT_SIZE].copy_from_slice(digits);
    start + count
}

// The table's text of a number, and how many digits that has.
#[inline]
fn digits_of(number: u8) -> (&'static [u8; TEXT_SIZE], usize)
    ensures digits { take result.1 result.0.now ≡ decimal number }
    ensures count { result.1 ≤ 3 }
{
    let place = usize::from(number);
    (&TEXTS[place], usize::from(DIGITS[place]))
}
