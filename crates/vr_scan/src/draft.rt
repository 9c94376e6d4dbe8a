//! Tokens while they are read.
ghost use Rattle.std.specs.Prelude.{◌≡◌, [], ◌∷◌, ◌++◌, OnOk};
ghost use Rattle.vr_scan.specs.Piece.{token};

use crate::mark::Mark;
use crate::token::{Span, TokenKind, Tokens, tokens_of_parts};
use std::alloc::Global;
use std::marker::Model;
use vr_types::OutOfMemory;

/// The tokens that are complete, and the text of a further one as far as it has been read.
#[derive(Drop)]
pub(crate) struct Draft {
    bytes: Vec<u8>,
    spans: Vec<Span>,
    /// Where the text of the further token begins.
    start: usize,
}

impl Model for Draft {
    ghost use Rattle.vr_scan.specs.TokensHeld.{TokensSoFar};

    ghost Value = { TokensSoFar };

    ghost use Rattle.std.specs.Prelude.{◌≤◌, length, drop};
    ghost use Rattle.vr_scan.specs.TokensHeld.{tokens_of, AreWithin};

    ghost view = { λ draft. record {
      tokens = tokens_of draft.bytes.items draft.spans.items;
      text = drop draft.start draft.bytes.items;
    } };

    ghost invariant = { λ draft. AreWithin draft.bytes.items draft.spans.items
        × (draft.start ≤ length draft.bytes.items) };
}

impl Draft {
    /// No token and no text, which takes no memory.
    pub(crate) fn new(alloc: Global) -> Draft
        ensures { result ≡ record { tokens = []; text = [] } }
    {
        Draft {
            bytes: Vec::new(alloc),
            spans: Vec::new(alloc),
            start: 0,
        }
    }

    /// Adds a byte to the text.
    pub(crate) fn push(&mut self, byte: u8) -> Result<(), OutOfMemory>
        ensures { OnOk result (self.new ≡ record self.old { text = self.old.text ++ byte ∷ [] }) }
    {
        self.bytes.push(byte)?;
        Ok(())
    }

    /// Makes a token of the text, with the place of its first character.
    pub(crate) fn finish(&mut self, kind: TokenKind, mark: Mark) -> Result<(), OutOfMemory>
        ensures { OnOk result (self.new ≡ record {
          tokens = self.old.tokens ++ token kind self.old.text mark ∷ [];
          text = [];
        }) }
    {
        let end = self.bytes.len();
        self.spans.push(Span {
            kind,
            start: self.start,
            end,
            line: mark.line,
            column: mark.column,
        })?;
        self.start = end;
        Ok(())
    }

    /// The tokens that are complete.
    pub(crate) fn into_tokens(self) -> Tokens
        ensures { result ≡ self.tokens }
    {
        let Draft { bytes, spans, .. } = self;
        tokens_of_parts(bytes, spans)
    }
}
