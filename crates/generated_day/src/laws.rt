ghost use Rattle.generated_day.specs.Day.{day_text};
ghost use Rattle.generated_day.specs.Wanting.{IsShortScript};

/// A law: the text of the generated day spells a script, whatever its number, and has at most half of the bytes that one
/// may have.
pub fn day_is_a_script(number: u64)
    ensures { IsShortScript (day_text number) }
{
    let _number = number;
}
