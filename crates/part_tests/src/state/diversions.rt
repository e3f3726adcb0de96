//! Diversions: those with a positive number store text; 0 and negative numbers store none. Manual:
//! "Diverting output", "Undiverting output".

use super::steps::{Row, Step, compare};

static DIVERTED: [Row; 4] = step_rows! {
    "an empty state", [Current, Above(0), TakeLeast] => "0\nnone\nnone\n";
    "the number that was diverted to last is the current one",
        [Divert(7, "b"), Current, Divert(-1, "x"), Current, Divert(0, "y"), Current, Divert(5, "a"), Current] =>
        "7\n-1\n0\n5\n";
    "texts by their numbers",
        [Divert(7, "b"), Divert(-1, "x"), Divert(0, "y"), Divert(5, "a"), Divert(7, "c"), Divert(3, ""), Diverted(7),
         Diverted(5), Diverted(3), Diverted(0), Diverted(-1), Above(0), Above(-2147483648), Above(5), Above(7)] =>
        "bc\na\n\n\n\n5\n5\n7\nnone\n";
    "diversions are taken by rising number",
        [Divert(7, "b"), Divert(5, "a"), Divert(7, "c"), TakeLeast, Above(0), TakeLeast, TakeLeast] =>
        "5 a\n7\n7 bc\nnone\n";
};

static BROUGHT_BACK: [Row; 6] = step_rows! {
    "to the output", [Divert(7, "b"), Divert(0, ""), Undivert(7), Diverted(7), Above(0), Undivert(7)] =>
        "b\n\nnone\nnone\n";
    "to another diversion", [Divert(7, "b"), Divert(5, "a"), Undivert(7), Diverted(5), Diverted(7), Above(5)] =>
        "none\nab\n\nnone\n";
    "to another diversion that holds nothing yet",
        [Divert(7, "b"), Divert(9, ""), Undivert(7), Diverted(9), Above(0)] => "none\nb\n9\n";
    "to nowhere", [Divert(7, "b"), Divert(-1, ""), Undivert(7), Diverted(7), Above(0)] => "none\n\nnone\n";
    "not the current one", [Divert(7, "b"), Undivert(7), Diverted(7)] => "none\nb\n";
    "none that holds no text", [Divert(7, "b"), Divert(0, ""), Undivert(0), Undivert(-7), Undivert(6), Diverted(7)] =>
        "none\nnone\nnone\nb\n";
};

#[test]
fn texts_are_diverted_and_brought_back(rt: HostRuntime) {
    compare(&rt, rt.alloc(), &DIVERTED);
    compare(&rt, rt.alloc(), &BROUGHT_BACK);
}
