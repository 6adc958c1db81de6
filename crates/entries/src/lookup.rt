// The texts of a table, by their numbers.
ghost use Rattle.std.specs.Prelude.{◌≡◌, map};
ghost use Rattle.entries.specs.Texts.{bytes_of, text};

use crate::text::Text;

// The text with this number, and nothing where there is none.
pub fn text_at(texts: &[Text], number: u16) -> &str
    ensures { result.now ≡ text (map bytes_of texts.now) number }
{
    texts.get(number as usize).map_or("", |t| t.as_str())
}
