//! Arguments that are numbers, as `incr` reads them. Manual: "Macro arguments", "Decrement and increment operators".

use super::steps::Warning::NoNumber;
use super::steps::{Pushes, Warns, pushed, warned};

static NUMBERS: [Pushes; 8] = rows! {
    "digits", &["12"] => "13";
    "white space in front", &[" \t\n\x0b\x0c\r12"] => "13";
    "a plus", &["+5"] => "6";
    "a zero with a minus", &["-0"] => "1";
    "one below the greatest", &["2147483646"] => "2147483647";
    "the least", &["-2147483648"] => "-2147483647";
    "many leading zeros", &["0000000000000000000000000000000000000005"] => "6";
    "many leading zeros after a minus", &[" -0000000000000000000000000000000000000007"] => "-6";
};

// Texts that are no numbers.
static NO_NUMBERS: [Warns; 11] = rows! {
    "one above the greatest", &["2147483648"], None => NoNumber;
    "one below the least", &["-2147483649"], None => NoNumber;
    "30 digits", &["123456789012345678901234567890"], None => NoNumber;
    "2 to the power 64", &["18446744073709551616"], None => NoNumber;
    "a letter after", &["1x"], None => NoNumber;
    "white space alone", &["  "], None => NoNumber;
    "white space after", &["1 "], None => NoNumber;
    "white space after a sign", &["- 1"], None => NoNumber;
    "a sign alone", &["-"], None => NoNumber;
    "two signs", &["+-1"], None => NoNumber;
    "the bytes beside the digits", &["/:"], None => NoNumber;
};

#[test]
fn arguments_and_the_numbers_that_they_are(rt: HostRuntime) {
    pushed(&rt, rt.alloc(), "incr", &NUMBERS);
    warned(&rt, rt.alloc(), "incr", &NO_NUMBERS);
}
