//! Runs with the builtins on texts and numbers, and those that print the place in the input. Manual:
//! "Calculating length of strings", "Searching for substrings", "Extracting substrings", "Translating
//! characters", "Decrement and increment operators", "Evaluating integer expressions", "Printing error
//! messages", "Printing current location".

use super::rows::{Row, compare};

static TEXTS: [Row; 7] = rows! {
    "lengths, places, parts and neighbours",
        "len(`abc') index(`abcabc',`ca') index(`a',`z') substr(`abcdef',`2',`3') substr(`abc',`3') \
         incr(2147483647) decr(`-7')\n" => "3 2 -1 cde  -2147483648 -8\n";
    "bytes are translated along ranges, or deleted",
        "translit(`abcba',`a-c',`C-A') translit(`hello',`l')\n" => "CBABC heo\n";
    "ranges that rise and fall, and a minus that is first",
        "translit(`+,-12345', `+--1-5', `<;>a-c-a')\n" => "<;>abcba\n";
    "without a list they are text", "len index substr translit incr decr errprint m4wrap\n" =>
        "len index substr translit incr decr errprint m4wrap\n";
    "an empty text has no bytes, and is found in front",
        "len() index(`a',) index(,`a') index(,) <substr(,`0')> <translit(,`a',`b')>\n" =>
        "0 0 -1 0 <> <>\n";
    "too few arguments", "index(`a') substr(`abc') translit(`abc')\n" => "0 abc abc\n",
        messages: "m4:a.m4:1: Warning: too few arguments to builtin `index'\n\
         m4:a.m4:1: Warning: too few arguments to builtin `substr'\n\
         m4:a.m4:1: Warning: too few arguments to builtin `translit'\n";
    "no argument at all",
        "<builtin(`index')><builtin(`substr')><builtin(`translit')><builtin(`len')>\n" =>
        "<><><><>\n", messages: "m4:a.m4:1: Warning: too few arguments to builtin `index'\n\
         m4:a.m4:1: Warning: too few arguments to builtin `substr'\n\
         m4:a.m4:1: Warning: too few arguments to builtin `translit'\n\
         m4:a.m4:1: Warning: too few arguments to builtin `len'\n";
};

static PARTS_AND_NUMBERS: [Row; 8] = rows! {
    "excess arguments", "len(`a',`b') incr(`1',`2') translit(`a',`a',`b',`c')\n" => "1 2 b\n",
        messages: "m4:a.m4:1: Warning: excess arguments to builtin `len' ignored\n\
         m4:a.m4:1: Warning: excess arguments to builtin `incr' ignored\n\
         m4:a.m4:1: Warning: excess arguments to builtin `translit' ignored\n";
    "where a part begins and how long it is",
        "<substr(`abc',`-1')><substr(`abc',`1',`0')><substr(`abc',`1',`-1')><substr(`abc',`1',`9')>\n" =>
        "<><><><bc>\n";
    "the count of a part is read even where it begins after the text",
        "<substr(`abc',`9',`x')>\n" => "<>\n",
        messages: "m4:a.m4:1: Warning: non-numeric argument to builtin `substr'\n";
    "numbers with blanks, signs and zeros in front, and their ends",
        "incr(` +007') decr(`-2147483648') incr(`2147483648')|decr(`1 ')|incr(` ')|\n" =>
        "8 2147483647 |||\n",
        messages: "m4:a.m4:1: Warning: non-numeric argument to builtin `incr'\n\
         m4:a.m4:1: Warning: non-numeric argument to builtin `decr'\n\
         m4:a.m4:1: Warning: non-numeric argument to builtin `incr'\n";
    "an empty text is 0", "incr(`')\n" => "1\n",
        messages: "m4:a.m4:1: Warning: empty string treated as 0 in builtin `incr'\n";
    "a builtin beside text is dropped", "define(`x',a`'defn(`len'))x\n" => "a\n",
        messages: "m4:a.m4:1: Warning: builtin dropped from text\n";
    "and so are two that are beside one another",
        "define(`x',defn(`len')defn(`incr'))x|x(`abc')\n" => "|\n",
        messages: "m4:a.m4:1: Warning: builtin dropped from text\n";
    "and so is one before a comma", "define(`f',`<$1>')\nf(a`'defn(`len'),b)\n" => "\n<a>\n",
        messages: "m4:a.m4:2: Warning: builtin dropped from text\n";
};

static EXPRESSIONS: [Row; 4] = rows! {
    "precedence, a radix and a width, and a decided side",
        "eval(`-666',`6',`10') eval(`2+3*4') eval(`1||1/0')\n" => "-0000003030 14 1\n";
    "quotients, shifts, literals and a zero divisor",
        "eval(`7/-2') eval(`-2147483648/-1') eval(`1<<33') eval(`0x1F') eval(`255',16,4) eval(`1/0')x\n" =>
        "-3 -2147483648 2 31 00ff x\n", messages: "m4:a.m4:1: Warning: divide by zero in eval\n";
    "a radix of 36, signs, and an empty expression",
        "eval(`0r36:z') eval(`!0+~0') eval(`2==2&1') eval(`')\n" => "35 0 1 0\n",
        messages: "m4:a.m4:1: Warning: empty string treated as 0 in builtin `eval'\n";
    "a radix out of range", "eval(`1',`1')x\n" => "x\n",
        messages: "m4:a.m4:1: Warning: radix or width out of range in eval\n";
};

static PLACES: [Row; 5] = rows! {
    "arguments go to the messages, joined by spaces", "errprint(`a',`b')\n__line__ __file__\n" =>
        "\n2 a.m4\n", messages: "a b";
    "what goes to the messages is not read again, and ends no line",
        "define(`f',`x')errprint(`f',,`f')errprint(`\n')errprint()errprint(`g')\n" => "\n",
        messages: "f  f\ng";
    "the line is that of the name", "define(`f',`$1')f(\n__line__) __line__\n__line__()\n" =>
        "2 2\n3\n",
        messages: "m4:a.m4:3: Warning: excess arguments to builtin `__line__' ignored\n";
    "the name of the input is quoted", "define(`a',`z')__file__ len(__file__)\n" => "a.m4 4\n";
    "the line within a definition is that of its call",
        "define(`where',\n`__line__\n__line__')where\n\nwhere\n" => "3\n3\n\n5\n5\n";
};

#[test]
fn builtins_on_texts_and_numbers(rt: HostRuntime) {
    compare(&rt, &TEXTS);
    compare(&rt, &PARTS_AND_NUMBERS);
    compare(&rt, &EXPRESSIONS);
    compare(&rt, &PLACES);
}
