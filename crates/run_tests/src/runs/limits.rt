//! Limits of calls, and of nested calls.

use super::given::USUAL;
use super::rows::{Row, compare};
use m4_engine::ending::Cause;

// Three nested calls, after one that defines their name.
const THREE: &str = "define(`f',`$1')f(f(f(`x')))\n";

static ROWS: [Row; 12] = rows! {
    "four calls, three open", THREE => "x\n", limits: (4, 3);
    "four calls, 0 is no limit of open ones", THREE => "x\n", limits: (4, 0);
    "one call too few", THREE => "", limits: (3, 3),
        messages: "m4:a.m4:1: ERROR: more than 3 calls\n", end: (1, Cause::ExpansionLimit, false);
    "no call at all", THREE => "", limits: (0, 3),
        messages: "m4:a.m4:1: ERROR: more than 0 calls\n", end: (1, Cause::ExpansionLimit, false);
    "one open call too few", THREE => "", limits: (4, 2),
        messages: "m4:a.m4:1: ERROR: more than 2 nested calls\n",
        end: (1, Cause::NestingLimit, false);
    "both too few: calls are counted first", THREE => "", limits: (3, 2),
        messages: "m4:a.m4:1: ERROR: more than 3 calls\n", end: (1, Cause::ExpansionLimit, false);
    "one open call too few, with 1000 calls", THREE => "", limits: (1000, 2),
        messages: "m4:a.m4:1: ERROR: more than 2 nested calls\n",
        end: (1, Cause::NestingLimit, false);
    "one open call too few, with the usual limit of calls", THREE => "", limits: (4294967295, 2),
        messages: "m4:a.m4:1: ERROR: more than 2 nested calls\n",
        end: (1, Cause::NestingLimit, false);
    "three open calls, with the usual limit of calls", THREE => "x\n", limits: (4294967295, 3);
    "no limit of open calls, with the usual limit of calls", THREE => "x\n",
        limits: (4294967295, 0);
    "one call too few for saved text", "m4wrap(`len(`a')')x\n" => "x\n", limits: (1, 1024),
        messages: "m4: ERROR: more than 1 calls\n", end: (1, Cause::ExpansionLimit, false);
    "one open call too few for saved text", "m4wrap(`len(len(`a'))')x\n" => "x\n", limits: (3, 1),
        messages: "m4: ERROR: more than 1 nested calls\n", end: (1, Cause::NestingLimit, false);
};

// Files that have no end without a limit.
static ENDLESS: [Row; 3] = rows! {
    "a name that expands to itself", "define(`l',`l')l\n" => "", limits: (100, 1024),
        messages: "m4:a.m4:1: ERROR: more than 100 calls\n", end: (1, Cause::ExpansionLimit, false);
    "a name that expands to itself twice", "define(`l',`l l')l\n" => "", limits: (1000, 1024),
        messages: "m4:a.m4:1: ERROR: more than 1000 calls\n",
        end: (1, Cause::ExpansionLimit, false);
    "a call that is its own argument, with the usual limits", "define(`f',`f(f)')f\n" => "",
        limits: USUAL, messages: "m4:a.m4:1: ERROR: more than 1024 nested calls\n",
        end: (1, Cause::NestingLimit, false);
};

#[test]
fn limits_end_a_run(rt: HostRuntime) {
    compare(&rt, &ROWS);
    compare(&rt, &ENDLESS);
}
