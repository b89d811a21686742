//! Check digits: the characters' values, weighted 7, 3, 1 in turn and summed, by 10.
ghost use Rattle.std.specs.Prelude.{◌≡◌, ℕ, ◌+◌, ◌*◌, ◌%◌, ◌≤◌, ◌++◌, [], ◌∷◌};
ghost use Rattle.text.specs.Digits.{value_of, weight_at, weighted, check_digit_of, ChangesShow};

/// The value of each character, by its code.
static VALUES: [u8; 256] = [
    0, 0, 0, 0, 0, 0, 0, 0, 0, 0, 0, 0, 0, 0, 0, 0, 0, 0, 0, 0, 0, 0, 0, 0, 0, 0, 0, 0, 0, 0, 0, 0,
    0, 0, 0, 0, 0, 0, 0, 0, 0, 0, 0, 0, 0, 0, 0, 0, 0, 1, 2, 3, 4, 5, 6, 7, 8, 9, 0, 0, 0, 0, 0, 0,
    0, 10, 11, 12, 13, 14, 15, 16, 17, 18, 19, 20, 21, 22, 23, 24, 25, 26, 27, 28, 29, 30, 31, 32,
    33, 34, 35, 0, 0, 0, 0, 0, 0, 0, 0, 0, 0, 0, 0, 0, 0, 0, 0, 0, 0, 0, 0, 0, 0, 0, 0, 0, 0, 0, 0,
    0, 0, 0, 0, 0, 0, 0, 0, 0, 0, 0, 0, 0, 0, 0, 0, 0, 0, 0, 0, 0, 0, 0, 0, 0, 0, 0, 0, 0, 0, 0, 0,
    0, 0, 0, 0, 0, 0, 0, 0, 0, 0, 0, 0, 0, 0, 0, 0, 0, 0, 0, 0, 0, 0, 0, 0, 0, 0, 0, 0, 0, 0, 0, 0,
    0, 0, 0, 0, 0, 0, 0, 0, 0, 0, 0, 0, 0, 0, 0, 0, 0, 0, 0, 0, 0, 0, 0, 0, 0, 0, 0, 0, 0, 0, 0, 0,
    0, 0, 0, 0, 0, 0, 0, 0, 0, 0, 0, 0, 0, 0, 0, 0, 0, 0, 0, 0, 0, 0, 0, 0, 0, 0, 0, 0, 0, 0, 0, 0,
    0, 0, 0, 0, 0, 0, 0, 0, 0,
];

/// A larger sum is taken by 10, which makes room for more characters; no sum of a zone comes near.
const LARGE: u32 = 1_000_000;

/// The check digit of a field, as a number; one digit of the field put for another gives another check digit.
pub fn check_digit(characters: &[u8]) -> u8
    ensures digit { result ≡ check_digit_of characters.now }
    ensures changes { ChangesShow characters.now result }
{
    remainder(characters, 0) as u8
}

/// The check digit of three parts taken together: the weights run on from one part to the next.
#[inline(always)]
pub fn composite_digit(first: &[u8], second: &[u8], third: &[u8]) -> u8
    ensures { result ≡ check_digit_of (first.now ++ (second.now ++ third.now)) }
{
    // By 3, since the weights repeat, and the sum of two lengths might not fit.
    let before_third = first.len() % 3 + second.len() % 3;
    let sum = remainder(first, 0) + remainder(second, first.len()) + remainder(third, before_third);
    (sum % 10) as u8
}

// Inlined, as `composite_digit` is: where the length is known, no sum grows large, and the test for it is gone.
/// The weighted sum of characters that have so many before them, by 10.
#[inline(always)]
fn remainder(characters: &[u8], before: usize) -> u32
    ensures { result ≡ weighted before characters.now % 10 }
{
    let [first, second, third] = weights_after(before);
    let mut sum = 0;
    let mut rest = characters;
    while let [a, b, c, later @ ..] = rest {
        sum = kept_small(sum) + weigh(first, *a) + weigh(second, *b) + weigh(third, *c);
        rest = later;
    }
    let last = match rest {
        [a] => weigh(first, *a),
        [a, b] => weigh(first, *a) + weigh(second, *b),
        _ => 0,
    };
    (sum + last) % 10
}

/// The sum, or its remainder by 10 where it has grown large.
fn kept_small(sum: u32) -> u32
    ensures same { result % 10 ≡ sum % 10 }
    ensures bound { result ≤ LARGE }
{
    if sum > LARGE { sum % 10 } else { sum }
}

/// The weights of three characters that have so many before them.
fn weights_after(before: usize) -> [u32; 3]
    ensures turn { result ≡
        weight_at before ∷ weight_at (before + 1) ∷ weight_at (before + 2) ∷ [] }
    ensures small { (k : ℕ) → weight_at k ≤ 7 }
{
    match before % 3 {
        0 => [7, 3, 1],
        1 => [3, 1, 7],
        _ => [1, 7, 3],
    }
}

/// A character's value, by this weight.
fn weigh(weight: u32, character: u8) -> u32
    requires { weight ≤ 7 }
    ensures product { result ≡ weight * value_of character }
    ensures small { result ≤ 245 }
{
    weight * u32::from(value(character))
}

/// The value of a character: a digit's own, 10 to 35 for the letters, 0 for any other.
fn value(character: u8) -> u8
    ensures value { result ≡ value_of character }
    ensures small { result ≤ 35 }
{
    VALUES[usize::from(character)]
}
