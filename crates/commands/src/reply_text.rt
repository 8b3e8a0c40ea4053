use std::marker::Model;

/// A text of a reply: at most 65,535 bytes, which contracts see as the list of them. Our own rule: each reply
/// then fits a frame.
#[derive(Drop)]
pub struct ReplyText {
    text: String,
}

impl Model for ReplyText {
    ghost use Rattle.std.specs.Prelude.{List, ℕ, ◌≤◌};
    ghost use Rattle.std.specs.String.{string_bytes, string_len};

    ghost Value = { List ℕ };

    ghost view = { λ t. string_bytes t.text };

    ghost invariant = { λ t. string_len t.text ≤ 65535 };
}

impl ReplyText {
    ghost use Rattle.std.specs.Prelude.{◌≡◌, ◌≤◌, length};
    ghost use Rattle.std.specs.String.{string_bytes, string_len};

    pub fn new(text: String) -> ReplyText
        requires { string_len text ≤ 65535 }
        ensures { result ≡ string_bytes text }
    {
        ReplyText { text }
    }

    pub fn as_str(&self) -> &str
        ensures value { result.now ≡ self.now }
        ensures small { length self.now ≤ 65535 }
    {
        self.text.as_str()
    }

    pub fn into_string(self) -> String
        ensures value { string_bytes result ≡ self }
        ensures small { length self ≤ 65535 }
    {
        let ReplyText { text } = self;
        text
    }
}
