//! The escapes of strings (GraphQL, October 2021, section 2.9.4).
ghost use Rattle.std.specs.Prelude.{◌≡◌, ◌≤◌, ◌<◌, ◌+◌, length, false, Ok, Err, Some, None, MatchResult, IfOk, IfErr};
ghost use Rattle.std.specs.Prelude.{IfSome};
ghost use Rattle.std.specs.Char.{digit_value};
ghost use Rattle.graphql_strings.specs.Characters.{at};
ghost use Rattle.graphql_strings.specs.StringValues.{escaped_character, is_hex};
ghost use Rattle.graphql_strings.specs.Unescaping as spec;

/// Why no escape stands at the front of a text: what was expected, and after how many bytes.
#[derive(Clone, Copy, Debug)]
pub(crate) struct Refusal {
    pub expected: &'static str,
    pub passed: usize,
}

/// The character of the escape at the front of a text, which begins with a backslash, and its length in bytes.
#[tactic(auto, unfolding(crate::specs::Unescaping::escape_at))]
pub(crate) fn escape_at(text: &[u8]) -> Result<(char, usize), Refusal>
    requires { 0 < length text.now }
    ensures exact { MatchResult result (λ r. spec.escape_at text.now ≡ Ok r)
        (λ e. spec.escape_at text.now ≡ Err e.passed) }
    ensures within { IfErr result (λ e. e.passed ≤ length text.now) }
{
    match text.get(1) {
        None => Err(Refusal {
            expected: "the rest of an escape",
            passed: 1,
        }),
        Some(b'u') => unicode_at(text),
        Some(byte) => match escaped(*byte) {
            Some(character) => Ok((character, 2)),
            None => Err(Refusal {
                expected: "an escape sequence",
                passed: 1,
            }),
        },
    }
}

// The character that this byte stands for behind a backslash.
#[tactic(auto, unfolding(crate::specs::StringValues::escaped_character))]
fn escaped(byte: u8) -> Option<char>
    ensures { result ≡ escaped_character byte }
{
    match byte {
        b'"' => Some('"'),
        b'\\' => Some('\\'),
        b'/' => Some('/'),
        b'b' => Some('\u{8}'),
        b'f' => Some('\u{c}'),
        b'n' => Some('\n'),
        b'r' => Some('\r'),
        b't' => Some('\t'),
        _ => None,
    }
}

// A code unit of UTF-16 that is a character, or two that are a surrogate pair.
#[tactic(auto, unfolding(crate::specs::Unescaping::unicode_at))]
fn unicode_at(text: &[u8]) -> Result<(char, usize), Refusal>
    requires { 1 < length text.now }
    ensures exact { MatchResult result (λ r. spec.unicode_at text.now ≡ Ok r)
        (λ e. spec.unicode_at text.now ≡ Err e.passed) }
    ensures within { IfErr result (λ e. e.passed ≤ length text.now) }
{
    let unit = unit_at(text, 2)?;
    if matches!(unit, 0xD800..=0xDBFF) {
        return pair_at(text, unit);
    }
    match char::from_u32(unit) {
        Some(character) => Ok((character, 6)),
        None => Err(Refusal {
            expected: "the first half of a surrogate pair before its second",
            passed: 5,
        }),
    }
}

// The surrogate pair whose first half is `high`.
#[tactic(auto, unfolding(crate::specs::Unescaping::pair_at))]
fn pair_at(text: &[u8], high: u32) -> Result<(char, usize), Refusal>
    requires high { (0xD800 ≤ high) × (high < 0xDC00) }
    requires long { 6 ≤ length text.now }
    ensures exact { MatchResult result (λ r. spec.pair_at text.now high ≡ Ok r)
        (λ e. spec.pair_at text.now high ≡ Err e.passed) }
    ensures within { IfErr result (λ e. e.passed ≤ length text.now) }
{
    if text.get(6) != Some(&b'\\') {
        return Err(second_half_expected(text, 6));
    }
    if text.get(7) != Some(&b'u') {
        return Err(second_half_expected(text, 7));
    }
    let low = unit_at(text, 8)?;
    if !matches!(low, 0xDC00..=0xDFFF) {
        return Err(second_half_expected(text, 11));
    }
    match char::from_u32(0x10000 + (high - 0xD800) * 0x400 + (low - 0xDC00)) {
        Some(character) => Ok((character, 12)),
        None => Err(second_half_expected(text, 11)),
    }
}

fn second_half_expected(text: &[u8], passed: usize) -> Refusal
    ensures { result.passed ≡ passed }
{
    let expected = if passed < text.len() {
        "the second half of a surrogate pair"
    } else {
        "the rest of an escape"
    };
    Refusal { expected, passed }
}

// The number that the four hexadecimal digits at an index write.
fn unit_at(text: &[u8], index: usize) -> Result<u32, Refusal>
    requires near { index ≤ 8 }
    requires within { index ≤ length text.now }
    ensures exact { MatchResult result (λ unit. spec.unit_at text.now index ≡ Ok unit)
        (λ e. spec.unit_at text.now index ≡ Err e.passed) }
    ensures fits { IfOk result (λ unit. (unit < 0x10000) × (index + 4 ≤ length text.now)) }
    ensures within { IfErr result (λ e. e.passed ≤ length text.now) }
{
    let a = digit_at(text, index)?;
    let b = digit_at(text, index + 1)?;
    let c = digit_at(text, index + 2)?;
    let d = digit_at(text, index + 3)?;
    Ok(a * 0x1000 + b * 0x100 + c * 0x10 + d)
}

// The hexadecimal digit at an index.
fn digit_at(text: &[u8], index: usize) -> Result<u32, Refusal>
    ensures found { IfOk result
        (λ d. (d ≡ digit_value (at text.now index)) × (d < 16) × (index < length text.now)) }
    ensures missing { IfErr result (λ e. (is_hex (at text.now index) ≡ false) × (e.passed ≡ index)) }
{
    let Some(byte) = text.get(index) else {
        return Err(Refusal {
            expected: "the rest of an escape",
            passed: index,
        });
    };
    match char::from(*byte).to_digit(16) {
        Some(digit) => Ok(digit),
        None => Err(Refusal {
            expected: "a hexadecimal digit",
            passed: index,
        }),
    }
}
