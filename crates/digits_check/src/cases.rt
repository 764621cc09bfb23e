//! The cases: tables, and every form of a few places by its number.

ghost use Rattle.std.specs.Prelude.{◌<◌, length};

/// Forms with a radix: refused for the radix, for a digit, and not at all.
pub const BAD_FORMS: [(u8, [i8; 4]); 14] = [
    (0, [0, 0, 0, 0]),
    (1, [0, 0, 0, 0]),
    (17, [9, 9, 9, 9]),
    (2, [2, 0, 0, 0]),
    (2, [0, -2, 0, 0]),
    (2, [0, 0, 0, 2]),
    (2, [0, -2, 3, 2]),
    (16, [16, 0, 0, 0]),
    (16, [0, 0, -16, 0]),
    (16, [15, -15, 15, -16]),
    (16, [-128, 127, 15, 0]),
    (10, [5, 5, -5, -5]),
    (16, [8, -8, 8, 8]),
    (2, [1, 1, -1, -1]),
];

/// Plain digits with a radix: refused for the radix, for a digit, and not at all.
pub const PLAIN: [(u8, [u8; 4]); 12] = [
    (0, [0, 0, 0, 0]),
    (1, [0, 0, 0, 0]),
    (17, [1, 1, 1, 1]),
    (2, [2, 1, 1, 1]),
    (2, [1, 1, 1, 2]),
    (2, [1, 3, 2, 1]),
    (16, [15, 255, 0, 16]),
    (2, [1, 0, 1, 1]),
    (4, [1, 1, 3, 1]),
    (10, [5, 4, 5, 5]),
    (15, [7, 7, 14, 0]),
    (16, [8, 8, 15, 15]),
];

/// The digits of forms of radix 2.
pub const TERNARY: [i8; 3] = [-1, 0, 1];

/// The digits of forms of radix 3.
pub const QUINARY: [i8; 5] = [-2, -1, 0, 1, 2];

/// The form with this number among those of these digits, its top digit first to change.
pub fn numbered_form(number: usize, digits: &[i8]) -> [i8; 5]
    requires { 0 < length digits.now }
{
    let mut rest = number;
    let mut form = [0; 5];
    for place in &mut form {
        *place = digits[rest % digits.len()];
        rest /= digits.len();
    }
    form
}
