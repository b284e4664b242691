//! The pieces of a plain line, each with the bytes behind it: texts of printable ASCII without escapes, and whole numbers.
ghost use Rattle.std.specs.Prelude.{◌≡◌, ◌∷◌, ◌++◌, IfSome, option_map};
ghost use Rattle.std.specs.List.{prefix_len};
ghost use Rattle.ks_job_record.specs.Plain.{is_plain_byte, field_of, IsQuoted, IsDigit, IsDigits, IsNumber, IsField, IsMember};
ghost use Rattle.ks_job_record.specs.PlainGrammar.{without_first, without_front, quoted_at, digit_at, number_at, integer_at, negative_at, field_at, member_at};

/// What a member of a row has, where it stands in the line.
#[derive(Clone, Copy)]
pub enum Plain<'a> {
    Number(i64),
    Text(&'a [u8]),
}

// Whether a JSON text has this byte as it is, and it is ASCII.
#[tactic(auto, unfolding(crate::specs::Plain::is_plain_byte))]
fn is_plain(byte: u8) -> bool
    ensures { result ≡ is_plain_byte byte }
{
    32 <= byte && byte < 127 && byte != b'"' && byte != b'\\'
}

/// The bytes behind this first one.
pub fn behind(bytes: &[u8], byte: u8) -> Option<&[u8]>
    ensures sound { IfSome result (λ rest. bytes.now ≡ byte ∷ rest.now) }
    ensures exact { option_map (λ rest. rest.now) result ≡ without_first byte bytes.now }
{
    let [first, rest @ ..] = bytes else {
        return None;
    };
    if *first == byte { Some(rest) } else { None }
}

/// The bytes behind this front.
#[tactic(auto, using(crate::proofs::Spellings::stripped, crate::proofs::PlainGrammar::front_found))]
pub fn after<'a>(bytes: &'a [u8], front: &[u8]) -> Option<&'a [u8]>
    ensures sound { IfSome result (λ rest. bytes.now ≡ front.now ++ rest.now) }
    ensures exact { option_map (λ rest. rest.now) result ≡ without_front front.now bytes.now }
{
    bytes.strip_prefix(front)
}

// How many plain bytes stand in front.
fn count_plain(bytes: &[u8]) -> usize
    ensures { result ≡ prefix_len is_plain_byte bytes.now }
{
    let mut count = 0;
    let mut rest = bytes;
    while let [first, more @ ..] = rest {
        if !is_plain(*first) {
            return count;
        }
        count += 1;
        rest = more;
    }
    count
}

/// The text up to the next quotation mark.
pub fn split_quoted(bytes: &[u8]) -> Option<(&[u8], &[u8])>
    ensures sound { IfSome result (λ p. IsQuoted bytes.now p.0.now p.1.now) }
    ensures exact { option_map (λ p. (p.0.now, p.1.now)) result ≡ quoted_at bytes.now }
{
    let (text, rest) = bytes.split_at(count_plain(bytes));
    Some((text, behind(rest, b'"')?))
}

// The number of the first digit.
fn split_digit(bytes: &[u8]) -> Option<(u64, &[u8])>
    ensures sound { IfSome result (λ p. IsDigit bytes.now p.0 p.1.now) }
    ensures exact { option_map (λ p. (p.0, p.1.now)) result ≡ digit_at bytes.now }
{
    let [first, rest @ ..] = bytes else {
        return None;
    };
    if first.is_ascii_digit() {
        Some(((*first - b'0') as u64, rest))
    } else {
        None
    }
}

/// A number of up to 18 digits, with no 0 before another.
pub fn split_digits(bytes: &[u8]) -> Option<(u64, &[u8])>
    ensures sound { IfSome result (λ p. IsDigits bytes.now p.0 p.1.now) }
    ensures exact { option_map (λ p. (p.0, p.1.now)) result ≡ number_at bytes.now }
{
    let (mut number, mut rest) = split_digit(bytes)?;
    while let Some((digit, more)) = split_digit(rest) {
        if number == 0 || number >= 100_000_000_000_000_000 {
            return None;
        }
        number = number * 10 + digit;
        rest = more;
    }
    Some((number, rest))
}

// The same, or its negative.
#[tactic(auto, unfolding(crate::specs::PlainGrammar::integer_at, crate::specs::PlainGrammar::natural_at))]
fn split_number(bytes: &[u8]) -> Option<(i64, &[u8])>
    ensures sound { IfSome result (λ p. IsNumber bytes.now p.0 p.1.now) }
    ensures exact { option_map (λ p. (p.0, p.1.now)) result ≡ integer_at bytes.now }
{
    match behind(bytes, b'-') {
        Some(digits) => split_negative(digits),
        None => {
            let (number, rest) = split_digits(bytes)?;
            Some((number as i64, rest))
        }
    }
}

// The negative of a number that isn't 0.
#[tactic(auto, unfolding(crate::specs::PlainGrammar::negative_at))]
fn split_negative(digits: &[u8]) -> Option<(i64, &[u8])>
    ensures sound { IfSome result (λ p. IsNumber (45 ∷ digits.now) p.0 p.1.now) }
    ensures exact { option_map (λ p. (p.0, p.1.now)) result ≡ negative_at digits.now }
{
    let (number, rest) = split_digits(digits)?;
    if number == 0 {
        return None;
    }
    Some((-(number as i64), rest))
}

#[tactic(auto, unfolding(crate::specs::PlainGrammar::field_at, crate::specs::PlainGrammar::text_at, crate::specs::PlainGrammar::whole_at))]
fn split_field(bytes: &[u8]) -> Option<(Plain<'_>, &[u8])>
    ensures sound { IfSome result (λ p. IsField bytes.now (field_of p.0) p.1.now) }
    ensures exact { option_map (λ p. (field_of p.0, p.1.now)) result ≡ field_at bytes.now }
{
    match behind(bytes, b'"') {
        Some(text) => {
            let (text, rest) = split_quoted(text)?;
            Some((Plain::Text(text), rest))
        }
        None => {
            let (number, rest) = split_number(bytes)?;
            Some((Plain::Number(number), rest))
        }
    }
}

/// A member of a row: its name, and what it has.
#[tactic(auto, unfolding(crate::specs::PlainGrammar::member_at))]
pub fn split_member(bytes: &[u8]) -> Option<(&[u8], Plain<'_>, &[u8])>
    ensures sound { IfSome result (λ p. IsMember bytes.now (p.0.now, field_of p.1) p.2.now) }
    ensures exact { option_map (λ p. ((p.0.now, field_of p.1), p.2.now)) result
        ≡ member_at bytes.now }
{
    let (name, rest) = split_quoted(behind(bytes, b'"')?)?;
    let (field, rest) = split_field(behind(rest, b':')?)?;
    Some((name, field, rest))
}
