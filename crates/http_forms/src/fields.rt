ghost use Rattle.std.specs.Prelude.{◌≡◌, ◌<◌, ◌-◌, ◌^◌, ◌++◌, ◌∷◌, [], ℕ, List, All, length, IfSome, min, true, map};
ghost use Rattle.std.specs.Char.{is_ascii_digit};
ghost use Rattle.std.specs.List.{list_all, list_any, position};
ghost use Rattle.std.specs.Str.Parse.{digits_value};
ghost use Rattle.std.specs.Str.{str_eq_ignore_ascii_case};
ghost use Rattle.httparse.specs.Spans.{IsHeaderWithin, header_bytes};
ghost use Rattle.httparse.specs.Grammar.{is_ows, skip_ows, trim_ows};
ghost use Rattle.http_forms.specs.Fields as spec;
ghost use Rattle.http_forms.specs.Found.{IsFound, capped};

use crate::answer::split_once;
use crate::refused::Refused;
use httparse::spans::HeaderSpan;
use script_value::are_digits;

/// How often a field stands in a head, with its value where it stands once.
#[derive(Clone, Copy)]
pub(crate) enum Found<'a> {
    Absent,
    Once(&'a [u8]),
    Often,
}

// Whether both are the same but for the case of ASCII letters.
fn same_letters(left: &[u8], right: &[u8]) -> bool
    ensures { result ≡ str_eq_ignore_ascii_case left.now right.now }
{
    left.eq_ignore_ascii_case(right)
}

// What was found with one value more.
fn with_one<'a>(found: Found<'a>, value: &'a [u8]) -> Found<'a>
    ensures { (values : List (List ℕ)) → IsFound values found.entry →
        IsFound (values ++ value.now ∷ []) result }
{
    match found {
        Found::Absent => Found::Once(value),
        Found::Once(_) | Found::Often => Found::Often,
    }
}

/// The fields of this name, in any case, among those that stand in the lines.
pub(crate) fn find<'a>(lines: &'a [u8], headers: &[HeaderSpan], name: &str) -> Found<'a>
    requires { All (IsHeaderWithin (length lines.now)) headers.now }
    ensures { IsFound (spec.values_of name.now (map (header_bytes lines.now) headers.now)) result }
{
    let mut found = Found::Absent;
    for header in headers {
        if same_letters(header.name.of(lines), name.as_bytes()) {
            found = with_one(found, header.value.of(lines));
        }
    }
    found
}

// The number of these digits; one above `u32::MAX` counts as that.
fn number(digits: &[u8]) -> u32
    requires { list_all is_ascii_digit digits.now ≡ true }
    ensures { result ≡ min (digits_value 10 digits.now) (2 ^ 32 - 1) }
{
    let mut number: u32 = 0;
    for digit in digits {
        let value = u32::from(digit.saturating_sub(b'0'));
        number = number.saturating_mul(10).saturating_add(value);
    }
    number
}

/// The length that the fields Content-Length give the body, if there are any. One above `u32::MAX` counts as that.
pub(crate) fn announced(found: Found<'_>) -> Result<Option<u32>, Refused>
    ensures { (values : List (List ℕ)) → IsFound values found.entry →
        result ≡ capped (spec.announced values) }
{
    match found {
        Found::Absent => Ok(None),
        Found::Once(digits) => {
            if digits.is_empty() || !are_digits(digits) {
                return Err(Refused::BadRequest);
            }
            Ok(Some(number(digits)))
        }
        Found::Often => Err(Refused::BadRequest),
    }
}

// The bytes without the spaces and tabs at their front.
fn skip_blanks(bytes: &[u8]) -> &[u8]
    ensures { result.now ≡ skip_ows bytes.now }
{
    let mut rest = bytes;
    while let [b' ' | b'\t', behind @ ..] = rest {
        rest = behind;
    }
    rest
}

fn is_blank(byte: u8) -> bool
    ensures { result ≡ is_ows byte }
{
    byte == b' ' || byte == b'\t'
}

// The bytes without the spaces and tabs at both ends.
#[tactic(auto, unfolding(httparse::specs::Grammar::trim_ows))]
fn trim_blanks(bytes: &[u8]) -> &[u8]
    ensures { result.now ≡ trim_ows bytes.now }
{
    let mut rest = skip_blanks(bytes);
    loop {
        match rest {
            [] => return rest,
            [before @ .., last] => {
                if !is_blank(*last) {
                    return rest;
                }
                rest = before;
            }
        }
    }
}

/// Whether the one field Content-Type names the media type of a form.
///
/// Source: RFC 9110, section 8.3.1, media type.
pub(crate) fn is_form(found: Found<'_>) -> bool
    ensures { (values : List (List ℕ)) → IsFound values found.entry → result ≡ spec.is_form values }
{
    match found {
        Found::Once(value) => same_letters(
            trim_blanks(split_once(b';', value).0),
            b"application/x-www-form-urlencoded",
        ),
        Found::Absent | Found::Often => false,
    }
}

// Whether the option is `close`.
fn is_close(option: &[u8]) -> bool
    ensures { result ≡ spec.is_close (trim_ows option.now) }
{
    same_letters(trim_blanks(option), b"close")
}

// The place of the first comma.
fn first_comma(bytes: &[u8]) -> Option<usize>
    ensures is { result ≡ position spec.is_comma bytes.now }
    ensures inside { IfSome result (λ i. i < length bytes.now) }
{
    bytes.iter().position(|b| *b == b',')
}

// Whether one of the options between the commas is `close`.
fn has_close(value: &[u8]) -> bool
    ensures { result ≡ list_any spec.is_close (spec.options value.now) }
{
    let mut rest = value;
    loop {
        match first_comma(rest) {
            Some(i) => {
                if is_close(&rest[..i]) {
                    return true;
                }
                rest = &rest[i + 1..];
            }
            None => return is_close(rest),
        }
    }
}

/// Whether a field Connection says that the connection closes.
///
/// Source: RFC 9110, section 7.6.1, and RFC 9112, section 9.6.
pub(crate) fn says_close(lines: &[u8], headers: &[HeaderSpan]) -> bool
    requires { All (IsHeaderWithin (length lines.now)) headers.now }
    ensures { result ≡ spec.fields_say_close (map (header_bytes lines.now) headers.now) }
{
    let mut says = false;
    for header in headers {
        if same_letters(header.name.of(lines), b"Connection") {
            says |= has_close(header.value.of(lines));
        }
    }
    says
}
