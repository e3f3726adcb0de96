//! Runs that save text for the end of the input, and runs that a macro ends. Manual: "Saving text until
//! end of input", "Exiting from m4".

use super::given::End;
use super::rows::{Row, compare};
use super::whole_texts::FRESH_TEXT;
use m4_engine::ending::Cause;

/// The end of a run that read everything and saved text.
pub const SAVED: End = (0, Cause::Done, true);

// Where saved text is read, and in which order.
static SAVES: [Row; 10] = rows! {
    "the text that was saved last is read first", "m4wrap(`a ')m4wrap(`b ')x\n" => "x\nb a ",
        end: SAVED;
    "text that is saved while saved text is read comes after it", "m4wrap(`m4wrap(`c')b')a\n" =>
        "a\nbc", end: SAVED;
    "in each round the text that was saved last is read first",
        "m4wrap(` m4wrap(`e')d')m4wrap(`m4wrap(`c')b')a\n" => "a\nb dec", end: SAVED;
    "one round after another",
        "define(`f',`ifelse($1,`xxx',`.',`m4wrap(`f(x$1)')$1,')')m4wrap(`f(`')')\n" => "\n,x,xx,.",
        end: SAVED;
    "arguments are joined by spaces", "m4wrap(`a',`b c',,`d')x\n" => "x\na b c  d", end: SAVED;
    "a name and a list span two saved texts", "m4wrap(`n(`abc')')m4wrap(`le')x\n" => "x\n3",
        end: SAVED;
    "a name that is defined after its call was saved", "m4wrap(`f(`a')')define(`f',`<$1>')x\n" =>
        "x\n<a>", end: SAVED;
    "an empty text is saved", "m4wrap()x\n" => "x\n", end: SAVED;
    "a definition alone is saved as an empty text", "m4wrap(defn(`len'))x\n" => "x\n", end: SAVED;
    "without a list it is plain text", "m4wrap x\n" => "m4wrap x\n";
};

// What saved text does: its place, lines that are discarded, diversions, and messages.
static SAVED_TEXTS: [Row; 8] = rows! {
    "saved text has line 0 and no file", "\nm4wrap(`[__line__] [__file__]\n[__line__]')x\n" =>
        "\nx\n[0] []\n[0]", end: SAVED;
    "the rest of a line of saved text is discarded", "m4wrap(`c dnl d')m4wrap(`a dnl b\n')x\n" =>
        "x\na c ", end: SAVED;
    "a diversion is brought back, and text after it",
        "divert(1)d\ndivert(0)m4wrap(`undivert(1)w')x\n" => "x\nd\nw", end: SAVED;
    "text goes to the diversion that is current", "divert(1)m4wrap(`w')d\n" => "d\nw", end: SAVED;
    "diversions are issued after saved text", "divert(2)d\ndivert(0)m4wrap(`w divert(1)e\n')x\n" =>
        "x\nw e\nd\n", end: SAVED;
    "discarding ends within saved text", "divert(-1)m4wrap(`divert(0)w')x\n" => "w", end: SAVED;
    "an argument that is no number, and a text that is empty", "m4wrap(`incr(`x')decr(`')')x\n" =>
        "x\n-1", messages: "m4: Warning: non-numeric argument to builtin `incr'\n\
         m4: Warning: empty string treated as 0 in builtin `decr'\n", end: SAVED;
    "a definition beside text", "m4wrap(`define(`f',a`'defn(`len'))f')x\n" => "x\na",
        messages: "m4: Warning: builtin dropped from text\n", end: SAVED;
};

// Saved text that ends inside something unfinished: no diverted text is undiverted.
static BROKEN_OFF: [Row; 5] = rows! {
    "a string without an end",
        "divert(1)d\ndivert(0)changequote([,])m4wrap([w changequote`a])x\n" => "x\nw ",
        messages: "m4: ERROR: end of input in string\n", end: (1, Cause::EndInString, false);
    "a comment without an end", "divert(1)d\ndivert(0)m4wrap(`w # a')x\n" => "x\nw ",
        messages: "m4: ERROR: end of input in comment\n", end: (1, Cause::EndInComment, false);
    "a list without an end", "divert(1)d\ndivert(0)m4wrap(`w len(a')x\n" => "x\nw ",
        messages: "m4: ERROR: end of input in argument list\n",
        end: (1, Cause::EndInArguments, false);
    "a list without an end, where more is saved", "m4wrap(`m4wrap(`never')len(a')x\n" => "x\n",
        messages: "m4: ERROR: end of input in argument list\n",
        end: (1, Cause::EndInArguments, false);
    "a file that breaks off: what it saved is not read", "m4wrap(`never')x\nlen(a\n" => "x\n",
        messages: "m4:a.m4:2: ERROR: end of input in argument list\n",
        end: (1, Cause::EndInArguments, false);
};

// Runs that a macro ends: saved and diverted text is discarded.
static EXITS: [Row; 10] = rows! {
    "a code", "x m4exit(`3')y\n" => "x ", end: (3, Cause::Exited(3), false);
    "without a list the code is 0", "x m4exit y\n" => "x ", end: (0, Cause::Exited(0), false);
    "an empty argument is 0", "m4exit()x" => "",
        messages: "m4:a.m4:1: Warning: empty string treated as 0 in builtin `m4exit'\n",
        end: (0, Cause::Exited(0), false);
    "the greatest code", "m4exit(`255')x" => "", end: (255, Cause::Exited(255), false);
    "a code above the greatest", "m4exit(`256')x" => "",
        messages: "m4:a.m4:1: Warning: exit status out of range\n",
        end: (1, Cause::Exited(1), false);
    "a code far above the greatest", "m4exit(`300')x" => "",
        messages: "m4:a.m4:1: Warning: exit status out of range\n",
        end: (1, Cause::Exited(1), false);
    "a code below 0", "m4exit(`-1')x" => "",
        messages: "m4:a.m4:1: Warning: exit status out of range\n",
        end: (1, Cause::Exited(1), false);
    "a code that is no number", "x\nm4exit(`x')y\n" => "x\n",
        messages: "m4:a.m4:2: Warning: non-numeric argument to builtin `m4exit'\n",
        end: (1, Cause::Exited(1), false);
    "a code above any number", "m4exit(`2147483648')x" => "",
        messages: "m4:a.m4:1: Warning: non-numeric argument to builtin `m4exit'\n",
        end: (1, Cause::Exited(1), false);
    "excess arguments come before the code", "m4exit(`300',`2')x" => "",
        messages: "m4:a.m4:1: Warning: excess arguments to builtin `m4exit' ignored\n\
         m4:a.m4:1: Warning: exit status out of range\n", end: (1, Cause::Exited(1), false);
};

// The same within a list, while text is diverted, and within saved text.
static EXITS_WITHIN: [Row; 5] = rows! {
    "within a list that has no end", "define(`f',`$1')f(a m4exit(`2') b" => "",
        end: (2, Cause::Exited(2), false);
    "what is saved and what is diverted is discarded",
        "divert(1)d\ndivert(0)m4wrap(`w')x m4exit(`4')y\n" => "x ",
        end: (4, Cause::Exited(4), false);
    "while text is diverted", "x divert(1)y m4exit z\n" => "x ", end: (0, Cause::Exited(0), false);
    "within saved text", "divert(1)d\ndivert(0)m4wrap(`m4wrap(`v')w m4exit(`2')u')x\n" => "x\nw ",
        end: (2, Cause::Exited(2), false);
    "within saved text, with a code that is no number", "m4wrap(`m4exit(`y')z')x\n" => "x\n",
        messages: "m4: Warning: non-numeric argument to builtin `m4exit'\n",
        end: (1, Cause::Exited(1), false);
};

#[test]
fn saved_text_is_read_at_the_end(rt: HostRuntime) {
    compare(&rt, &SAVES);
    compare(&rt, &SAVED_TEXTS);
    compare(&rt, &BROKEN_OFF);
}

#[test]
fn a_macro_ends_the_run(rt: HostRuntime) {
    compare(&rt, &EXITS);
    compare(&rt, &EXITS_WITHIN);
    compare(&rt, &FREEZES);
}

// Runs that freeze.
static FREEZES: [Row; 7] = rows! {
    "no text is saved", "x\n" => "x\n", frozen_text: Some(FRESH_TEXT);
    "text is saved, and read before the state is frozen", "m4wrap(`bye')x\n" => "x\nbye",
        end: SAVED, frozen_text: Some(FRESH_TEXT);
    "text is saved in two rounds", "m4wrap(`m4wrap(`c')b')a\n" => "a\nbc", end: SAVED,
        frozen_text: Some(FRESH_TEXT);
    "an empty text is saved", "m4wrap()x\n" => "x\n", end: SAVED, frozen_text: Some(FRESH_TEXT);
    "a macro ends the run", "x m4exit(`3')y\n" => "x ", end: (3, Cause::Exited(3), false),
        frozen_text: Some(&[]);
    "a macro ends the run with code 0", "m4wrap(`w')x m4exit y\n" => "x ",
        end: (0, Cause::Exited(0), false), frozen_text: Some(&[]);
    "a macro within saved text ends the run", "m4wrap(`w m4exit(`2')v')x\n" => "x\nw ",
        end: (2, Cause::Exited(2), false), frozen_text: Some(&[]);
};
