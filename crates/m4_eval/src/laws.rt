//! Facts about the definitions only: no code runs here.
//!
//! Each function's contract is a law of `specs/Laws.antt`.
//! Manual: "Evaluating integer expressions".

ghost use Rattle.m4_eval.specs.Laws.{OneExpression, ReadsExpressions, RefusesOthers, ValuesAreRead, DigitsAreRead};
ghost use Rattle.m4_eval.specs.Laws.{OneValue};

/// A text spells at most one expression.
pub fn one_expression()
    // exact expressions: a text spells at most one expression
    ensures { OneExpression }
{}

/// The reading of a text finds exactly the expression that it spells.
pub fn expressions_read()
    // exact expressions: the reading finds the expression that is spelled
    ensures { ReadsExpressions }
{}

/// The reading refuses a text exactly if it spells no expression.
pub fn others_refused()
    // exact expressions: a text that the reading refuses spells no expression
    ensures { RefusesOthers }
{}

/// The value of an expression can be computed while its text is read.
pub fn values_read()
    // exact expressions: the value can be computed without the syntax
    ensures { ValuesAreRead }
{}

/// The digits that are written for a value, read again, are its absolute value.
pub fn digits_read()
    // exact expressions: the digits that are written are read back
    ensures { DigitsAreRead }
{}

/// A text has exactly one result.
pub fn one_value()
    // exact expressions: the result of a text is the one that the grammar and the values give
    ensures { OneValue }
{}
