//! How far names, numbers, texts and comments go.
ghost use Rattle.std.specs.Prelude.{◌≡◌, ◌+◌, ◌≤◌, ◌==◌, ◌||◌, length, not, position, Some, IfSome};
ghost use Rattle.std.specs.Char.{is_ascii_digit, is_ascii_hexdigit};
ghost use Rattle.idl_tokens.specs.Runs as Run;

/// Space, tab, carriage return, line feed, form feed and vertical tab.
pub fn is_blank(b: u8) -> bool
    ensures { result ≡ Run.is_blank b }
{
    b == b' ' || (9 <= b && b <= 13)
}

fn is_name_byte(b: u8) -> bool
    ensures { result ≡ Run.is_name_byte b }
{
    b.is_ascii_alphanumeric() || b == b'_'
}

fn is_octal(b: u8) -> bool
    ensures { result ≡ Run.is_octal b }
{
    48 <= b && b <= 55
}

fn first_of_no_name(z: &[u8]) -> Option<usize>
    ensures { result ≡ position (λ b. not (Run.is_name_byte b)) z.now }
{
    z.iter().position(|b| !is_name_byte(*b))
}

/// How many bytes of a name are at the front.
#[tactic(auto, using(crate::proofs::Places::position_below))]
pub fn name_len(z: &[u8]) -> usize
    ensures value { result ≡ Run.run_len Run.is_name_byte z.now }
    ensures within { result ≤ length z.now }
{
    match first_of_no_name(z) {
        Some(n) => n,
        None => z.len(),
    }
}

fn first_no_digit(z: &[u8]) -> Option<usize>
    ensures { result ≡ position (λ b. not (is_ascii_digit b)) z.now }
{
    z.iter().position(|b| !b.is_ascii_digit())
}

/// How many decimal digits are at the front.
#[tactic(auto, using(crate::proofs::Places::position_below))]
pub fn digits_len(z: &[u8]) -> usize
    ensures value { result ≡ Run.run_len is_ascii_digit z.now }
    ensures within { result ≤ length z.now }
{
    match first_no_digit(z) {
        Some(n) => n,
        None => z.len(),
    }
}

fn first_no_octal(z: &[u8]) -> Option<usize>
    ensures { result ≡ position (λ b. not (Run.is_octal b)) z.now }
{
    z.iter().position(|b| !is_octal(*b))
}

/// How many octal digits are at the front.
#[tactic(auto, using(crate::proofs::Places::position_below))]
pub fn octal_len(z: &[u8]) -> usize
    ensures value { result ≡ Run.run_len Run.is_octal z.now }
    ensures within { result ≤ length z.now }
{
    match first_no_octal(z) {
        Some(n) => n,
        None => z.len(),
    }
}

fn first_no_hex(z: &[u8]) -> Option<usize>
    ensures { result ≡ position (λ b. not (is_ascii_hexdigit b)) z.now }
{
    z.iter().position(|b| !b.is_ascii_hexdigit())
}

/// How many hexadecimal digits are at the front.
#[tactic(auto, using(crate::proofs::Places::position_below))]
pub fn hex_len(z: &[u8]) -> usize
    ensures value { result ≡ Run.run_len is_ascii_hexdigit z.now }
    ensures within { result ≤ length z.now }
{
    match first_no_hex(z) {
        Some(n) => n,
        None => z.len(),
    }
}

fn first_line_feed(z: &[u8]) -> Option<usize>
    ensures { result ≡ position (λ b. not (Run.is_of_line b)) z.now }
{
    z.iter().position(|b| *b == b'\n')
}

/// How many bytes are before the next line feed, or the end.
#[tactic(auto, using(crate::proofs::Places::position_below))]
pub fn line_len(z: &[u8]) -> usize
    ensures value { result ≡ Run.run_len Run.is_of_line z.now }
    ensures within { result ≤ length z.now }
{
    match first_line_feed(z) {
        Some(n) => n,
        None => z.len(),
    }
}

fn first_of_no_text(z: &[u8]) -> Option<usize>
    ensures { result ≡ position Run.ends_text z.now }
{
    z.iter().position(|b| *b == b'"' || *b == b'\n' || *b == 0)
}

/// How many bytes are after an opening quote, up to the closing one and with it, if the text is closed.
#[tactic(auto, unfolding(crate::specs::Runs::text_len), using(crate::proofs::Places::position_within))]
pub fn text_len(z: &[u8]) -> Option<usize>
    ensures value { result ≡ Run.text_len z.now }
    ensures within { IfSome result (λ n. n ≤ length z.now) }
{
    match first_of_no_text(z) {
        Some(n) if z[n] == b'"' => Some(n + 1),
        _ => None,
    }
}

/// How many bytes are after `/*`, up to the next `*/` and with it, if there is one.
#[tactic(auto, using(crate::proofs::Comments::comment_on, crate::proofs::Comments::comment_here, crate::proofs::Comments::comment_none))]
pub fn comment_len(z: &[u8]) -> Option<usize>
    ensures value { result ≡ Run.comment_end 0 z.now }
    ensures within { IfSome result (λ n. n ≤ length z.now) }
{
    for n in 0..z.len() {
        if z[n..].starts_with(b"*/") {
            return Some(n + 2);
        }
    }
    None
}
