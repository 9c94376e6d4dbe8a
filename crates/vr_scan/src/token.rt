//! Tokens.
ghost use Rattle.std.specs.Prelude.{◌≡◌, ◌<◌, ◌↔◌, [], length, IsTrue};
ghost use Rattle.vr_scan.specs.Token.{token_at};
ghost use Rattle.vr_scan.specs.TokensHeld.{tokens_of, AreWithin};

use std::marker::Model;

/// What a token is.
#[derive(Clone, Copy, PartialEq, Eq)]
pub enum TokenKind {
    /// A name, a number or a keyword, in capitals.
    Word,
    /// `C'..'`. Its text is the bytes between the quotes, one quote for two.
    Characters,
    /// `X'..'`. Its text is the bytes that its digits spell.
    Hex,
    /// `=`, `>`, `<`, `>=` or `<=`, which is its text.
    Compare,
    /// `(`. It has no text.
    Open,
    /// `)`. It has no text.
    Close,
    /// The end of a command: `;`, or the end of a line that doesn't go on. It has no text.
    End,
}

/// A token, and where its text lies among the bytes of all texts.
#[derive(Clone, Copy)]
pub(crate) struct Span {
    pub(crate) kind: TokenKind,
    pub(crate) start: usize,
    pub(crate) end: usize,
    pub(crate) line: u32,
    pub(crate) column: u32,
}

/// The tokens of a text, in order. Their texts lie one after another in one buffer.
#[derive(Drop)]
pub struct Tokens {
    bytes: Vec<u8>,
    spans: Vec<Span>,
}

impl Model for Tokens {
    ghost use Rattle.std.specs.Prelude.{List};
    ghost use Rattle.vr_scan.specs.Token.{Token};

    ghost Value = { List Token };

    ghost use Rattle.vr_scan.specs.TokensHeld.{tokens_of, AreWithin};

    ghost view = { λ tokens. tokens_of tokens.bytes.items tokens.spans.items };

    ghost invariant = { λ tokens. AreWithin tokens.bytes.items tokens.spans.items };
}

/// The tokens of these spans, whose texts lie within the bytes.
pub(crate) fn tokens_of_parts(bytes: Vec<u8>, spans: Vec<Span>) -> Tokens
    requires { AreWithin bytes.items spans.items }
    ensures { result ≡ tokens_of bytes.items spans.items }
{
    Tokens { bytes, spans }
}

impl Tokens {
    /// How many tokens.
    pub fn len(&self) -> usize
        ensures { result ≡ length self.now }
    {
        self.spans.len()
    }

    /// Whether there is none.
    pub fn is_empty(&self) -> bool
        ensures { IsTrue result ↔ (self.now ≡ []) }
    {
        self.spans.is_empty()
    }

    /// What token `i` is.
    pub fn kind(&self, i: usize) -> TokenKind
        requires { i < length self.now }
        ensures { result ≡ (token_at self.now i).kind }
    {
        self.spans[i].kind
    }

    /// The text of token `i`.
    pub fn text(&self, i: usize) -> &[u8]
        requires { i < length self.now }
        ensures { result.now ≡ (token_at self.now i).text }
    {
        let span = self.spans[i];
        &self.bytes[span.start..span.end]
    }

    /// The number of the line in the job text where token `i` begins. The end of a line is on that
    /// line.
    pub fn line(&self, i: usize) -> u32
        requires { i < length self.now }
        ensures { result ≡ (token_at self.now i).line }
    {
        self.spans[i].line
    }

    /// The column of the first character of token `i`, from 1. The end of a line has the column
    /// after the line's last character.
    pub fn column(&self, i: usize) -> u32
        requires { i < length self.now }
        ensures { result ≡ (token_at self.now i).column }
    {
        self.spans[i].column
    }
}
