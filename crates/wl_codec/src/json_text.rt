//! A JSON text while it is written.

ghost use Rattle.std.specs.Prelude.{◌≡◌, [], ◌++◌, decimal, IfOk, OnOk, string_bytes};
ghost use Rattle.std.specs.List.{list_all};
ghost use Rattle.json.specs.Run.{is_plain};
ghost use Rattle.serde_json.specs.Data.{string};
ghost use Rattle.serde_json.specs.Written.{compact_text};
ghost use Rattle.wl_types.specs.Client.{client_id};
ghost use Rattle.wl_codec.specs.Replies.{whole_value};

use serde_json::Value;
use std::alloc::{AllocError, Global};
use std::marker::Model;

/// What most replies have room in: more than a small reply has bytes.
const ROOM: usize = 160;

/// The text so far. Each method appends.
#[derive(Drop)]
pub(crate) struct JsonText {
    text: String,
    alloc: Global,
}

impl Model for JsonText {
    ghost use Rattle.std.specs.Prelude.{List, ℕ, string_bytes};

    ghost Value = { List ℕ };

    ghost view = { λ t. string_bytes t.text };
}

/// Whether a text stands between quotes as it is: it has no quote, no backslash and no control character.
fn is_plain(text: &str) -> bool
    ensures { result ≡ list_all is_plain text.now }
{
    text.bytes()
        .all(|byte| !(byte == b'"' || byte == b'\\' || byte < 0x20))
}

impl JsonText {
    pub(crate) fn new(alloc: Global) -> Result<JsonText, AllocError>
        ensures { IfOk result (λ made. made ≡ []) }
    {
        Ok(JsonText {
            text: String::with_capacity(alloc, ROOM)?,
            alloc,
        })
    }

    pub(crate) fn into_string(self) -> String
        ensures { string_bytes result ≡ self }
    {
        let JsonText { text, .. } = self;
        text
    }

    /// Appends a piece as it stands.
    pub(crate) fn piece(&mut self, piece: &str) -> Result<(), AllocError>
        ensures { OnOk result (self.new ≡ self.old ++ piece.now) }
    {
        self.text.push_str(piece)
    }

    pub(crate) fn number(&mut self, number: u64) -> Result<(), AllocError>
        ensures { OnOk result (self.new ≡ self.old ++ decimal number) }
    {
        let mut digits = itoa::Buffer::new();
        self.piece(digits.format(number))
    }

    /// Appends a string in quotes. `serde_json` writes one that needs an escape.
    #[tactic(auto, using(crate::proofs::Pieces::string_made))]
    pub(crate) fn string(&mut self, text: &str) -> Result<(), AllocError>
        ensures { OnOk result (self.new ≡ self.old ++ compact_text (string text.now)) }
    {
        if is_plain(text) {
            self.piece("\"")?;
            self.piece(text)?;
            return self.piece("\"");
        }
        let value = Value::try_from_str(self.alloc, text)?;
        let quoted = value.to_string(self.alloc)?;
        self.piece(quoted.as_str())
    }

    /// Appends a number, or null where there is none.
    pub(crate) fn whole(&mut self, number: Option<u64>) -> Result<(), AllocError>
        ensures { OnOk result (self.new ≡ self.old ++ compact_text (whole_value number)) }
    {
        match number {
            Some(number) => self.number(number),
            None => self.piece("null"),
        }
    }

    /// Appends the client id of an agent.
    #[tactic(auto, using(crate::proofs::Pieces::client_made))]
    pub(crate) fn client(&mut self, client: u64) -> Result<(), AllocError>
        ensures { OnOk result (self.new ≡ self.old ++ compact_text (string (client_id client))) }
    {
        self.piece("\"client-")?;
        self.number(client)?;
        self.piece("\"")
    }
}
