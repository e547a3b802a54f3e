//! Numbers of the command line.

ghost use Rattle.std.specs.Prelude.{◌≤◌, IfSome};

/// A number of the command line within the range, or none.
pub fn number(word: &str, least: u32, most: u32) -> Option<u32>
    ensures { IfSome result (λ n. (least ≤ n) × (n ≤ most)) }
{
    let number = word.parse::<u32>().ok()?;
    if number < least || number > most {
        return None;
    }
    Some(number)
}
