//! Expressions: their values, also of texts that are deeply nested, numbers in a radix, and white space.
//! Manual: "Evaluating integer expressions".

use crate::report::{Report, repeated};
use crate::shows::shows;
use m4_eval::blank::{is_blank, spaces_len};
use m4_eval::digits::in_radix;
use m4_eval::evaluate::{Evaluated, evaluate};
use m4_eval::radix::Radix;
use std::alloc::{AllocError, Global};

// The depth of the nested texts.
const DEPTH: usize = 1_000_000;

// A row's name, an expression, and its value.
type Row = (&'static str, &'static str, &'static str);

static VALUES: [Row; 8] = rows! {
    "a product before a sum", "2+3*4" => "14";
    "to the left", " ( 10 - 3 ) - 2 - 1 " => "4";
    "decided by the left", "1||1/0" => "1";
    "a quotient that wraps", "-2147483648/-1" => "-2147483648";
    "a radix that is stated", "0r36:z" => "35";
    "a zero divisor", "1/0" => "divide by zero";
    "no operator of the language", "2**3" => "bad expression";
    "white space alone", " " => "bad expression";
};

// A row's name, a byte that comes first and a text after it, a byte that comes last, and the value.
type Nested = (
    &'static str,
    (u8, usize),
    &'static str,
    (u8, usize),
    &'static str,
);

static NESTED: [Nested; 3] = rows! {
    "parentheses that never close", (b'(', DEPTH), "1", (b')', 0) => "bad expression";
    "parentheses that close", (b'(', DEPTH), "7", (b')', DEPTH) => "7";
    "signs", (b'-', DEPTH), "7", (b' ', 0) => "7";
};

// A row's name, a value, a radix, a width, and the radix with the digits.
type Written = (&'static str, i32, i32, usize, &'static str);

static WRITTEN: [Written; 7] = rows! {
    "zero", 0, 10, 0 => "10: 0";
    "a sign is not counted", -666, 6, 10 => "6: -0000003030";
    "the least in radix 2", -2147483648, 2, 1 => "2: -10000000000000000000000000000000";
    "letters", 1295, 36, 0 => "36: zz";
    "radix 1", 5, 1, 0 => "no radix";
    "radix 37", 5, 37, 0 => "no radix";
    "a negative radix", 5, -2, 0 => "no radix";
};

static SPACES: [Row; 3] = rows! {
    "nothing", "" => "0, blank";
    "each kind", " \t\n\x0b\x0c\r" => "6, blank";
    "a letter", "\t x " => "2, not blank";
};

// Returns the value of a text, or why it has none.
fn value_seen(alloc: Global, text: &[u8]) -> Result<Vec<u8>, AllocError> {
    let mut report = Report::new(alloc);
    match evaluate(alloc, text)? {
        Evaluated::Value(value) => report.number(value),
        Evaluated::DivideByZero => report.add(b"divide by zero"),
        Evaluated::BadExpression => report.add(b"bad expression"),
    }
    report.text()
}

// Returns the value of a text between many bytes.
fn nested_seen(alloc: Global, row: &Nested) -> Result<Vec<u8>, AllocError> {
    let mut text = repeated(alloc, row.1.0, row.1.1)?;
    text.extend_from_slice(row.2.as_bytes())?;
    text.resize(text.len().saturating_add(row.3.1), row.3.0)?;
    value_seen(alloc, &text)
}

// Reports a radix, if it is one, and a value written in it.
fn written_seen(alloc: Global, row: &Written) -> Result<Vec<u8>, AllocError> {
    let mut report = Report::new(alloc);
    match Radix::new(row.2) {
        Some(radix) => {
            report.number(radix.value());
            report.add(b": ");
            report.add(in_radix(Vec::new(alloc), row.1, radix, row.3)?.as_slice());
        }
        None => report.add(b"no radix"),
    }
    report.text()
}

// Reports the number of spaces at the start of a text, and whether it is blank.
fn spaces_seen(alloc: Global, text: &[u8]) -> Result<Vec<u8>, AllocError> {
    let mut report = Report::new(alloc);
    report.number(spaces_len(text));
    report.add(if is_blank(text) {
        b", blank"
    } else {
        b", not blank"
    });
    report.text()
}

#[test]
fn texts_and_their_values(rt: HostRuntime) {
    for row in &VALUES {
        let got = value_seen(rt.alloc(), row.1.as_bytes());
        shows(&rt, row.0, row.2.as_bytes(), got);
    }
}

#[test]
fn texts_that_are_deeply_nested(rt: HostRuntime) {
    for row in &NESTED {
        shows(&rt, row.0, row.4.as_bytes(), nested_seen(rt.alloc(), row));
    }
}

#[test]
fn values_in_a_radix(rt: HostRuntime) {
    for row in &WRITTEN {
        shows(&rt, row.0, row.4.as_bytes(), written_seen(rt.alloc(), row));
    }
}

#[test]
fn white_space(rt: HostRuntime) {
    for row in &SPACES {
        let got = spaces_seen(rt.alloc(), row.1.as_bytes());
        shows(&rt, row.0, row.2.as_bytes(), got);
    }
}

#[test]
fn the_usual_radix_is_ten(rt: HostRuntime) {
    assert!(rt; Radix::decimal().value() == 10);
}
