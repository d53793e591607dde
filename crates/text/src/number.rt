//! A number as it stands in a line: decimal digits and no sign, leading zeros allowed.
ghost use Rattle.std.specs.Prelude.{◌-◌, ◌^◌, min, Decides};
ghost use Rattle.std.specs.Option.{SomeIff};
ghost use Rattle.std.specs.Str.Parse.{IsNumeral, digits_value};

// Whether the word is digits and nothing else, one at least.
fn is_numeral(word: &str) -> bool
    ensures { Decides result (IsNumeral 10 word.now) }
{
    !word.is_empty() && word.bytes().all(|b| b.is_ascii_digit())
}

/// The decimal value of a numeral, where one beyond 32 bits counts as 2^32 - 1; `None` of any other word.
pub fn number(word: &str) -> Option<u32>
    ensures { SomeIff result (IsNumeral 10 word.now) (min (digits_value 10 word.now) (2 ^ 32 - 1)) }
{
    is_numeral(word).then(|| word.parse().unwrap_or(u32::MAX))
}
