ghost use Rattle.std.specs.Prelude.{◌≡◌, position};
ghost use Rattle.std.specs.Str.{bytes_eq};

use label_sets::Text;

/// The place of a text in a list.
pub fn text_place(texts: &[Text], wanted: &str) -> Option<usize>
    ensures { result ≡ position (λ text. bytes_eq text wanted.now) texts.now }
{
    texts.iter().position(|text| text.as_str() == wanted)
}
