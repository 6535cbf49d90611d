ghost use Rattle.std.specs.Prelude.{◌+◌, ◌*◌, ◌≤◌, length};
ghost use Rattle.std.specs.List.{sum_by};

use label_sets::{Text, TextList};
use std::alloc::Global;

/// The longest text that is taken.
const LONGEST: usize = 100;

/// At most eight texts of at most a hundred bytes, with commas between. Others are left out.
pub(crate) fn texts_of(alloc: Global, text: &str) -> TextList
    ensures few { length result ≤ 8 }
    ensures short { sum_by (λ text. 21 + length text) result ≤ 121 * length result }
{
    let mut list = TextList::new(alloc);
    for word in text.split(',') {
        if list.len() < 8 && word.len() <= LONGEST {
            if let Ok(text) = Text::from_str(alloc, word) {
                let _ = list.push(text);
            }
        }
    }
    list
}
