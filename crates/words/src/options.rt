//! The options of a run and the number of a generated script, as the words give them.
ghost use Rattle.std.specs.Prelude.{◌≡◌, ◌≤◌, IfSome, option_map, codes};
ghost use Rattle.clap.specs.Matches.{found_of};
ghost use Rattle.clap.specs.Walk.{all_of, first_of, rows_of, texts};
ghost use Rattle.words.specs.Line.{number_in, steps_in, stats_in, generated_in, most_steps, most_generated};

use clap::ArgMatches;
use itoa::Buffer;

/// The steps of a run where the words give none.
pub const DEFAULT_STEPS: u64 = 100_000_000;

/// The most steps that the words may give.
pub const MOST_STEPS: u64 = 1_099_511_627_776;

/// The most that the number of a generated script may be.
pub const MOST_GENERATED: u64 = 500;

// A number in decimal digits, with no sign and no zero before it, from the least to the most.
fn number_of(least: u64, most: u64, text: &str) -> Option<u64>
    ensures number { result ≡ number_in least most text.now }
    ensures within { IfSome result (λ number. (least ≤ number) × (number ≤ most)) }
{
    let Ok(number) = text.parse::<u64>() else {
        return None;
    };
    if number < least {
        return None;
    }
    if number > most {
        return None;
    }
    let mut buffer = Buffer::new();
    if buffer.format(number) == text {
        Some(number)
    } else {
        None
    }
}

/// The value of an argument.
pub(crate) fn value_of<'a>(found: &ArgMatches<'a>, id: &str) -> Option<&'a str>
    ensures { option_map (λ s. s.now) result ≡ first_of id.now (rows_of (found_of found.now)) }
{
    found.get_str(id)
}

/// The values of an argument that may have several.
pub(crate) fn values_of<'m, 'a>(found: &'m ArgMatches<'a>, id: &str) -> Option<&'m [&'a str]>
    ensures { option_map (λ s. texts s.now) result ≡ all_of id.now (rows_of (found_of found.now)) }
{
    found.get_strs(id)
}

/// The number of steps.
pub(crate) fn steps_of(found: &ArgMatches) -> Option<u64>
    ensures steps { result ≡ steps_in (first_of (codes "steps") (rows_of (found_of found.now))) }
    ensures within { IfSome result (λ steps. steps ≤ most_steps) }
{
    match value_of(found, "steps") {
        Some(text) => number_of(0, MOST_STEPS, text),
        None => Some(DEFAULT_STEPS),
    }
}

/// The number of a generated script.
pub(crate) fn generated_of(found: &ArgMatches) -> Option<u32>
    ensures number { result ≡ generated_in (first_of (codes "number") (rows_of (found_of found.now))) }
    ensures within { IfSome result (λ number. (1 ≤ number) × (number ≤ most_generated)) }
{
    let text = value_of(found, "number")?;
    let number = number_of(1, MOST_GENERATED, text)?;
    Some(number as u32)
}

/// Whether statistics are asked for.
pub(crate) fn has_stats(found: &ArgMatches) -> bool
    ensures { result ≡ stats_in (first_of (codes "stats") (rows_of (found_of found.now))) }
{
    match value_of(found, "stats") {
        Some(text) => text == "true",
        None => false,
    }
}
