// Numbers as texts, read as whole numbers of units.
ghost use Rattle.std.specs.Prelude.{◌≡◌, ◌↔◌, ℕ, ◌+◌, ◌*◌, ◌-◌, ◌/◌, ◌^◌, ◌<◌, ◌≤◌, ℤ, List, ◌++◌, length, take, drop, fold, MatchOption, Ok, Err};
ghost use Rattle.dec_text.specs.Numbers.{AreDigits, value_of, Number, IsExponent, IsLongestStart, tenths_in, magnitude_of, units_of};
ghost use Rattle.dec_text.specs.inner.Reading.{byte_kind, step, may_end, is_minus, behind_sign, IsDigitEnd, HasFraction, IsHeld, IsHeldExponent, count_of, lead_of, front_of, rest_of, tenths_of, IsBelowEnd};

/// The largest size of a number in units.
const LARGEST: u32 = 1048576;

/// What a part's lengths are given in.
#[derive(Clone, Copy, PartialEq, Eq, Debug)]
pub enum Length {
    /// Millimetres.
    Millimetre,
    /// Inches, of 25.4 millimetres each.
    Inch,
}

/// Tenths of a unit from which on a value is over the largest size, however it goes on.
const TENTHS_END: u32 = 100000000;

/// The size from which on an exponent may as well be any larger one.
const EXPONENT_END: u32 = 67108864;

/// Why bytes are no number of units.
#[derive(Clone, Copy, PartialEq, Eq, Debug)]
pub enum NumberFault {
    /// They are no number: the length of the longest beginning of them that is the beginning of some number.
    NotANumber(u32),
    /// The rounded number is over 1,048,576 in size.
    TooLarge,
}

/// What a byte can be in a number.
#[derive(Clone, Copy)]
enum Kind {
    Digit,
    Point,
    Mark,
    Sign,
    Other,
}

/// What was read last of a number.
#[derive(Clone, Copy)]
enum State {
    Start,
    Signed,
    Whole,
    Pointed,
    Fraction,
    Marked,
    MarkSigned,
    Powered,
}

/// An exponent, whose size is held where it is large.
#[derive(Clone, Copy)]
struct Exponent {
    negative: bool,
    size: u32,
}

/// What the byte can be.
fn byte_kind(byte: u8) -> Kind
    ensures { result ≡ byte_kind byte }
{
    match byte {
        b'0'..=b'9' => Kind::Digit,
        b'.' => Kind::Point,
        b'E' | b'e' => Kind::Mark,
        b'+' | b'-' => Kind::Sign,
        _ => Kind::Other,
    }
}

/// What is read last with one more byte.
fn step(state: State, kind: Kind) -> Option<State>
    ensures { result ≡ step state kind }
{
    match (state, kind) {
        (State::Start | State::Signed | State::Whole, Kind::Digit) => Some(State::Whole),
        (State::Pointed | State::Fraction, Kind::Digit) => Some(State::Fraction),
        (State::Marked | State::MarkSigned | State::Powered, Kind::Digit) => Some(State::Powered),
        (State::Start, Kind::Sign) => Some(State::Signed),
        (State::Marked, Kind::Sign) => Some(State::MarkSigned),
        (State::Start | State::Signed, Kind::Point) => Some(State::Pointed),
        (State::Whole, Kind::Point) => Some(State::Fraction),
        (State::Whole | State::Fraction, Kind::Mark) => Some(State::Marked),
        _ => None,
    }
}

/// A number may end here.
fn may_end(state: State) -> bool
    ensures { result ≡ may_end state }
{
    matches!(state, State::Whole | State::Fraction | State::Powered)
}

/// Where bytes cease to be a number, if they are none.
fn fault_place(bytes: &[u8]) -> Option<u32>
    requires { length bytes.now ≤ 16777216 }
    ensures { MatchOption result (Number bytes.now) (λ at. (Number bytes.now → ⊥) × IsLongestStart bytes.now at) }
{
    let mut state = State::Start;
    for (at, byte) in bytes.iter().enumerate() {
        match step(state, byte_kind(*byte)) {
            Some(next) => state = next,
            None => return Some(at as u32),
        }
    }
    if may_end(state) {
        None
    } else {
        Some(bytes.len() as u32)
    }
}

/// Whether a text begins with `-`, and the text behind its sign.
fn split_sign(text: &[u8]) -> (bool, &[u8])
    ensures negative { result.0 ≡ is_minus text.now }
    ensures behind { result.1.now ≡ behind_sign text.now }
{
    match text {
        [b'-', behind @ ..] => (true, behind),
        [b'+', behind @ ..] => (false, behind),
        _ => (false, text),
    }
}

/// How many digits a text begins with.
fn digit_count(text: &[u8]) -> usize
    ensures within { result ≤ length text.now }
    ensures digits { AreDigits (take result text.now) }
    ensures end { IsDigitEnd (drop result text.now) }
{
    for (at, byte) in text.iter().enumerate() {
        if !byte.is_ascii_digit() {
            return at;
        }
    }
    text.len()
}

/// The digits that a text begins with, and what stands behind them.
fn split_digits(text: &[u8]) -> (&[u8], &[u8])
    ensures whole { text.now ≡ result.0.now ++ result.1.now }
    ensures digits { AreDigits result.0.now }
    ensures end { IsDigitEnd result.1.now }
{
    text.split_at(digit_count(text))
}

/// The digits behind a point, and what stands behind them.
fn split_fraction(text: &[u8]) -> (&[u8], &[u8])
    ensures digits { AreDigits result.0.now }
    ensures parts { (fraction tail : List ℕ) → HasFraction text.now fraction tail → (result.0.now ≡ fraction) × (result.1.now ≡ tail) }
{
    match text {
        [b'.', behind @ ..] => split_digits(behind),
        _ => (&text[..0], text),
    }
}

/// What digits stand for, held where it is large.
fn held(digits: &[u8]) -> u32
    requires { AreDigits digits.now }
    ensures value { IsHeld (value_of digits.now) result }
    ensures size { result < 2 ^ 30 }
{
    let mut value = 0;
    for digit in digits {
        if value < EXPONENT_END {
            value = 10 * value + u32::from(*digit - b'0');
        }
    }
    value
}

/// The exponent that a number ends with.
fn exponent_of(tail: &[u8]) -> Exponent
    requires { (e : ℤ) × IsExponent tail.now e }
    ensures value { (e : ℤ) → IsExponent tail.now e → IsHeldExponent e result }
    ensures size { result.size < 2 ^ 30 }
{
    match tail {
        [_, behind @ ..] => {
            let (negative, digits) = split_sign(behind);
            Exponent {
                negative,
                size: held(digits),
            }
        }
        [] => Exponent {
            negative: false,
            size: 0,
        },
    }
}

/// What these digits stand for behind those that were read before, where it is below the end.
fn with_digits(before: u32, digits: &[u8]) -> Option<u32>
    requires before { before < 10 ^ 8 }
    requires digits { AreDigits digits.now }
    ensures { IsBelowEnd (fold (λ n digit. 10 * n + (digit - 48)) before digits.now) result }
{
    let mut value = before;
    for digit in digits {
        value = 10 * value + u32::from(*digit - b'0');
        if value >= TENTHS_END {
            return None;
        }
    }
    Some(value)
}

/// The value with zeros behind it, where it is below the end.
fn with_zeros(value: u32, zeros: usize) -> Option<u32>
    requires { value < 10 ^ 8 }
    ensures { IsBelowEnd (value * 10 ^ zeros) result }
{
    if value == 0 {
        return Some(0);
    }
    if zeros > 8 {
        return None;
    }
    let scaled = u64::from(value) * 10u64.pow(zeros as u32);
    if scaled < u64::from(TENTHS_END) {
        Some(scaled as u32)
    } else {
        None
    }
}

/// What the first digits stand for, with zeros behind them where there are fewer, where it is below the end.
fn front(whole: &[u8], fraction: &[u8], count: usize) -> Option<u32>
    requires whole { AreDigits whole.now }
    requires fraction { AreDigits fraction.now }
    ensures { IsBelowEnd (front_of (whole.now ++ fraction.now) count) result }
{
    let value = with_digits(0, &whole[..count.min(whole.len())])?;
    let rest = count.saturating_sub(whole.len());
    let value = with_digits(value, &fraction[..rest.min(fraction.len())])?;
    with_zeros(value, rest.saturating_sub(fraction.len()))
}

/// How many whole ones the digits are behind a point, each times a factor, with so many from what stands behind them.
fn carried(digits: &[u8], behind: u32, factor: u32) -> u32
    requires digits { AreDigits digits.now }
    requires factor { factor ≤ 254 }
    requires behind { behind < factor }
    ensures value { result ≡ (factor * value_of digits.now + behind) / 10 ^ length digits.now }
    ensures size { result < factor }
{
    let mut at = digits.len();
    let mut carry = behind;
    while at > 0 {
        at -= 1;
        carry = (factor * u32::from(digits[at] - b'0') + carry) / 10;
    }
    carry
}

/// How many whole ones the digits behind the first ones are, with zeros before them, each times a factor.
fn rest(whole: &[u8], fraction: &[u8], count: usize, lead: usize, factor: u32) -> u32
    requires whole { AreDigits whole.now }
    requires fraction { AreDigits fraction.now }
    requires factor { (1 ≤ factor) × (factor ≤ 254) }
    ensures value { result ≡ rest_of factor (whole.now ++ fraction.now) count lead }
    ensures size { result < factor }
{
    let second = count.saturating_sub(whole.len()).min(fraction.len());
    let behind = carried(&fraction[second..], 0, factor);
    let carry = carried(&whole[count.min(whole.len())..], behind, factor);
    if lead > 2 {
        0
    } else {
        carry / 10u32.pow(lead as u32)
    }
}

/// How many digits there are down to the units, from the first one on.
fn count(whole: usize, decimals: u8, exponent: Exponent) -> usize
    requires whole { whole ≤ 16777216 }
    requires exponent { exponent.size < 2 ^ 30 }
    ensures { result ≡ count_of whole decimals exponent.negative exponent.size }
{
    let plain = whole + usize::from(decimals);
    if exponent.negative {
        plain.saturating_sub(exponent.size as usize)
    } else {
        plain + exponent.size as usize
    }
}

/// How many zeros there are below the units before the first digit.
fn lead(whole: usize, decimals: u8, exponent: Exponent) -> usize
    requires whole { whole ≤ 16777216 }
    ensures { result ≡ lead_of whole decimals exponent.negative exponent.size }
{
    if exponent.negative {
        (exponent.size as usize).saturating_sub(whole + usize::from(decimals))
    } else {
        0
    }
}

/// A length in tenths of a millimetre.
fn tenths_in(unit: Length) -> u32
    ensures { result ≡ tenths_in unit }
{
    match unit {
        Length::Millimetre => 10,
        Length::Inch => 254,
    }
}

/// The tenths of a unit, where they are below the end.
fn tenths(whole: &[u8], fraction: &[u8], count: usize, lead: usize, factor: u32) -> Option<u32>
    requires whole { AreDigits whole.now }
    requires fraction { AreDigits fraction.now }
    requires factor { (1 ≤ factor) × (factor ≤ 254) }
    ensures { IsBelowEnd (tenths_of factor (whole.now ++ fraction.now) count lead) result }
{
    let front = front(whole, fraction, count)?;
    let rest = rest(whole, fraction, count, lead, factor);
    let tenths = u64::from(factor) * u64::from(front) + u64::from(rest);
    if tenths < u64::from(TENTHS_END) {
        Some(tenths as u32)
    } else {
        None
    }
}

/// The tenths of a unit in a number of such lengths, where they are below the end.
fn number_tenths(bytes: &[u8], decimals: u8, unit: Length) -> Option<u32>
    requires few { decimals ≤ 6 }
    requires short { length bytes.now ≤ 16777216 }
    requires number { Number bytes.now }
    ensures { (n : Number bytes.now) → MatchOption result (1048576 < magnitude_of decimals unit n) (λ tenths. (tenths < 10 ^ 8) × (magnitude_of decimals unit n ≡ (tenths + 5) / 10)) }
{
    let (_, behind) = split_sign(bytes);
    let (whole, behind) = split_digits(behind);
    let (fraction, tail) = split_fraction(behind);
    let exponent = exponent_of(tail);
    let count = count(whole.len(), decimals, exponent);
    let lead = lead(whole.len(), decimals, exponent);
    tenths(whole, fraction, count, lead, tenths_in(unit))
}

/// The units of a number of such lengths, where there aren't too many.
fn units(bytes: &[u8], decimals: u8, unit: Length) -> Option<i32>
    requires few { decimals ≤ 6 }
    requires short { length bytes.now ≤ 16777216 }
    requires number { Number bytes.now }
    ensures { (n : Number bytes.now) → MatchOption result (1048576 < magnitude_of decimals unit n) (λ v. (magnitude_of decimals unit n ≤ 1048576) × (units_of decimals unit n ≡ v)) }
{
    let magnitude = (number_tenths(bytes, decimals, unit)? + 5) / 10;
    if magnitude > LARGEST {
        return None;
    }
    let (negative, _) = split_sign(bytes);
    if negative {
        Some(-(magnitude as i32))
    } else {
        Some(magnitude as i32)
    }
}

/// The number of units, 10 ^ `decimals` to a millimetre, that the bytes are as a number of such lengths, to the nearest whole
/// one and halves away from zero. The time goes with the length of the bytes, and no memory is taken.
pub fn fixed(bytes: &[u8], decimals: u8, unit: Length) -> Result<i32, NumberFault>
    requires few { decimals ≤ 6 }
    requires short { length bytes.now ≤ 16777216 }
    ensures ok { (v : ℤ) → (result ≡ Ok v) ↔ ((n : Number bytes.now) × (magnitude_of decimals unit n ≤ 1048576) × (units_of decimals unit n ≡ v)) }
    ensures too_large { (result ≡ Err NumberFault.TooLarge) ↔ ((n : Number bytes.now) × (1048576 < magnitude_of decimals unit n)) }
    ensures not_a_number { (at : ℕ) → (result ≡ Err (NumberFault.NotANumber at)) ↔ ((Number bytes.now → ⊥) × IsLongestStart bytes.now at) }
{
    match fault_place(bytes) {
        Some(at) => Err(NumberFault::NotANumber(at)),
        None => match units(bytes, decimals, unit) {
            Some(units) => Ok(units),
            None => Err(NumberFault::TooLarge),
        },
    }
}
