// Names that are reserved.
ghost use Rattle.std.specs.Prelude.{◌≡◌, ◌<◌, map};
ghost use Rattle.form_rules.specs.Name.{is_among, reserved_words, strict_words, is_reserved, may_be_read, may_be_bound};
ghost use Rattle.form_names.specs.Words.{word_number, is_word_at};

use crate::name::is_identifier_name;

/// Whether code may read this name.
pub fn may_be_read(strict: bool, is_module: bool, name: &str) -> bool
    ensures read { result ≡ may_be_read strict is_module name.now }
{
    is_identifier_name(name) && !is_reserved(strict, is_module, name)
}

/// Whether code may bind this name or assign to it.
pub fn may_be_bound(strict: bool, is_module: bool, name: &str) -> bool
    ensures bound { result ≡ may_be_bound strict is_module name.now }
{
    may_be_read(strict, is_module, name) && !(strict && (name == "eval" || name == "arguments"))
}

fn is_reserved(strict: bool, is_module: bool, name: &str) -> bool
    ensures { result ≡ is_reserved strict is_module name.now }
{
    let number = word_number(name);
    is_reserved_word(number, name)
        || (strict && is_strict_word(number, name))
        || (is_module && name == "await")
}

// ReservedWord.
static RESERVED_WORDS: [&str; 36] = [
    "break",
    "case",
    "catch",
    "class",
    "const",
    "continue",
    "debugger",
    "default",
    "delete",
    "do",
    "else",
    "enum",
    "export",
    "extends",
    "false",
    "finally",
    "for",
    "function",
    "if",
    "import",
    "in",
    "instanceof",
    "new",
    "null",
    "return",
    "super",
    "switch",
    "this",
    "throw",
    "true",
    "try",
    "typeof",
    "var",
    "void",
    "while",
    "with",
];

// In strict code these as well.
static STRICT_WORDS: [&str; 9] = [
    "implements",
    "interface",
    "let",
    "package",
    "private",
    "protected",
    "public",
    "static",
    "yield",
];

// A name is compared with one word of a list alone: the one that stands at the place of the number that its length and its first two
// bytes make. No two words of a list have one number. Where no word has a number, its place is past the list.
static RESERVED_PLACES: [u8; 128] = [
    255, 255, 255, 255, 17, 255, 12, 255, 255, 13, 255, 34, 35, 255, 255, 255, 255, 255, 255, 255,
    255, 255, 255, 255, 23, 255, 255, 255, 1, 255, 255, 2, 33, 30, 255, 255, 29, 255, 255, 255,
    255, 255, 255, 14, 255, 255, 255, 25, 255, 255, 255, 255, 255, 255, 8, 255, 255, 7, 26, 255, 6,
    255, 255, 255, 255, 255, 18, 255, 255, 255, 31, 255, 255, 255, 255, 3, 255, 255, 255, 255, 10,
    15, 9, 255, 255, 22, 255, 4, 11, 255, 255, 255, 255, 16, 255, 0, 5, 255, 20, 255, 255, 32, 255,
    255, 255, 255, 19, 255, 255, 255, 24, 255, 255, 255, 255, 255, 255, 255, 255, 255, 255, 255,
    21, 255, 27, 255, 255, 28,
];

static STRICT_PLACES: [u8; 128] = [
    255, 255, 255, 255, 255, 255, 255, 255, 255, 255, 255, 255, 255, 255, 255, 255, 255, 255, 255,
    255, 255, 255, 255, 8, 255, 255, 255, 255, 255, 4, 255, 255, 255, 255, 255, 5, 255, 255, 6,
    255, 255, 255, 255, 255, 255, 255, 7, 255, 255, 255, 255, 255, 255, 255, 255, 255, 255, 255,
    255, 255, 255, 255, 255, 255, 255, 255, 255, 255, 255, 255, 255, 255, 255, 255, 255, 255, 255,
    2, 255, 255, 255, 255, 255, 255, 255, 255, 255, 255, 255, 3, 255, 255, 255, 255, 255, 255, 255,
    255, 255, 255, 255, 255, 255, 255, 255, 255, 255, 255, 255, 255, 255, 255, 255, 255, 255, 255,
    255, 255, 0, 1, 255, 255, 255, 255, 255, 255, 255, 255,
];

fn word_number(name: &str) -> usize
    ensures number { result ≡ word_number name.now }
    ensures small { result < 128 }
{
    let bytes = name.as_bytes();
    if bytes.len() < 2 {
        return 0;
    }
    (bytes.len() % 128 * 3 + (bytes[0] as usize + bytes[1] as usize) * 4) % 128
}

fn is_word_at(words: &[&str], at: usize, name: &str) -> bool
    ensures { result ≡ is_word_at (map (λ w. w.now) words.now) at name.now }
{
    if at < words.len() {
        return name == words[at];
    }
    false
}

fn is_reserved_word(number: usize, name: &str) -> bool
    requires number { number ≡ word_number name.now }
    requires small { number < 128 }
    ensures { result ≡ is_among name.now reserved_words }
{
    is_word_at(
        RESERVED_WORDS.as_slice(),
        RESERVED_PLACES[number] as usize,
        name,
    )
}

fn is_strict_word(number: usize, name: &str) -> bool
    requires number { number ≡ word_number name.now }
    requires small { number < 128 }
    ensures { result ≡ is_among name.now strict_words }
{
    is_word_at(
        STRICT_WORDS.as_slice(),
        STRICT_PLACES[number] as usize,
        name,
    )
}
