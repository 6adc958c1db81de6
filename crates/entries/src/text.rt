// The text of a label, a name or a variable: 1 to 16 bytes from 33 to 126.
ghost use Rattle.std.specs.Prelude.{◌≡◌, ◌≤◌, true, length, MatchOption, Some};
ghost use Rattle.std.specs.Char.{is_ascii_graphic};
ghost use Rattle.std.specs.List.{AllByRecursion, list_all};
ghost use Rattle.protocol.specs.Lawful.{Text as IsText};

use arrayvec::ArrayString;
use std::{fmt, str};

#[derive(Clone, Copy)]
pub struct Text {
    text: ArrayString<16>,
    ghost short: { length text.bytes ≤ 16 },
    ghost plain: { list_all is_ascii_graphic text.bytes ≡ true },
}

impl Text {
    ghost use Rattle.entries.specs.Texts.{bytes_of};

    // The text of these bytes, or none where they are no text.
    pub fn new(bytes: &[u8]) -> Option<Text>
        ensures { MatchOption result (¬ IsText bytes.now) (λ t. IsText bytes.now × (bytes_of t ≡ bytes.now)) }
    {
        // the length first: however long the bytes are, no more than a text of them is looked at
        if bytes.is_empty() || bytes.len() > 16 || !printable(bytes) {
            return None;
        }
        // printable bytes are UTF-8, which is proved, so they are not looked at a second time
        let text = unsafe { str::from_utf8_unchecked(bytes) };
        let text = ArrayString::from(text).ok()?;
        Some(Text { text })
    }

    #[tactic(auto, using(crate::proofs::Texts::printable_bytes))]
    pub fn as_bytes(&self) -> &[u8]
        ensures value { result.now ≡ bytes_of self.now }
        ensures printable { AllByRecursion (λ b. (33 ≤ b) × (b ≤ 126)) result.now }
    {
        self.text.as_bytes()
    }

    pub fn as_str(&self) -> &str
        ensures { result.now ≡ bytes_of self.now }
    {
        self.text.as_str()
    }
}

impl fmt::Display for Text {
    ghost use Rattle.entries.specs.Texts.{bytes_of};

    ghost output = { λ t. Some (bytes_of t) };

    fn fmt<W: fmt::Write>(&self, f: &mut fmt::Formatter<W>) -> fmt::Result {
        f.pad(self.as_str())
    }
}

fn printable(bytes: &[u8]) -> bool
    ensures { result ≡ list_all is_ascii_graphic bytes.now }
{
    bytes.iter().all(|b| b.is_ascii_graphic())
}
