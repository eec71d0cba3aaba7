// Texts that are written as one name.
ghost use Rattle.std.specs.Prelude.{◌≡◌, ◌||◌};
ghost use Rattle.json_text.specs.Text.{starts_name, is_between, continues_name, is_identifier_name};

fn starts_name(c: u8) -> bool
    ensures { result ≡ starts_name c }
{
    (b'A'..=b'Z').contains(&c) || (b'a'..=b'z').contains(&c) || c == b'$' || c == b'_' || c >= 128
}

fn is_in_name(c: u8) -> bool
    ensures { result ≡ starts_name c || is_between 48 57 c }
{
    starts_name(c) || (b'0'..=b'9').contains(&c)
}

fn continues_name(bytes: &[u8]) -> bool
    ensures { result ≡ continues_name bytes.now }
{
    for c in bytes {
        if !is_in_name(*c) {
            return false;
        }
    }
    true
}

/// Whether a text is read as one name, reserved or not.
pub fn is_identifier_name(text: &str) -> bool
    ensures name { result ≡ is_identifier_name text.now }
{
    match text.as_bytes() {
        [] => false,
        [first, rest @ ..] => starts_name(*first) && continues_name(rest),
    }
}
