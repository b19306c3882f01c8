ghost use Rattle.std.specs.Prelude.{◌≡◌, ◌≤◌, length};
ghost use Rattle.sexp_reader.specs.Letters as letters;

/// What a list stands between.
#[derive(Clone, Copy, Debug, PartialEq, Eq, Drop)]
pub enum Delimiter {
    /// `(` and `)`.
    Parenthesis,
    /// `[` and `]`.
    Bracket,
}

/// A mark before a datum, which stands for a list of a name and the datum.
#[derive(Clone, Copy, Debug, PartialEq, Eq, Drop)]
pub enum Mark {
    /// `'`.
    Quote,
    /// `` ` ``.
    Quasiquote,
    /// `,`.
    Unquote,
    /// `,@`.
    UnquoteSplicing,
}

/// What a byte is where a piece may begin.
#[derive(Clone, Copy, Debug)]
pub enum Class {
    /// A space, a tab, a newline or a carriage return.
    Blank,
    /// A semicolon, which begins a comment.
    Comment,
    /// What opens a list.
    Opening(Delimiter),
    /// What closes a list.
    Closing(Delimiter),
    /// The first byte of a mark.
    Marking(Mark),
    /// The quote of a text.
    DoubleQuote,
    /// A byte of a token.
    Plain,
}

/// The class of a byte.
pub fn class_of(byte: u8) -> Class
    ensures { result ≡ letters.class_of byte }
{
    match byte {
        b' ' | b'\t' | b'\n' | b'\r' => Class::Blank,
        b';' => Class::Comment,
        b'(' => Class::Opening(Delimiter::Parenthesis),
        b'[' => Class::Opening(Delimiter::Bracket),
        b')' => Class::Closing(Delimiter::Parenthesis),
        b']' => Class::Closing(Delimiter::Bracket),
        b'\'' => Class::Marking(Mark::Quote),
        b'`' => Class::Marking(Mark::Quasiquote),
        b',' => Class::Marking(Mark::Unquote),
        b'"' => Class::DoubleQuote,
        _ => Class::Plain,
    }
}

/// Whether a byte is one of a token's.
pub fn is_plain(byte: u8) -> bool
    ensures { result ≡ letters.is_plain (letters.class_of byte) }
{
    matches!(class_of(byte), Class::Plain)
}

/// The whole of a mark whose first byte is this mark, and what follows it.
pub fn whole_mark(mark: Mark, bytes: &[u8]) -> (Mark, &[u8])
    ensures mark { (result.0, result.1.now) ≡ letters.whole_mark mark bytes.now }
    ensures shorter { length result.1.now ≤ length bytes.now }
{
    match (mark, bytes) {
        (Mark::Unquote, [b'@', rest @ ..]) => (Mark::UnquoteSplicing, rest),
        _ => (mark, bytes),
    }
}

/// The name of the list that a mark before a datum stands for.
pub fn name_of(mark: Mark) -> &'static str
    ensures { result.now ≡ letters.name_of mark }
{
    match mark {
        Mark::Quote => "quote",
        Mark::Quasiquote => "quasiquote",
        Mark::Unquote => "unquote",
        Mark::UnquoteSplicing => "unquote-splicing",
    }
}
