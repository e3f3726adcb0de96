//! Tokens that lie across texts that calls pushed, and across these and the file: names, delimiters of several bytes,
//! lists and comments, wherever text goes. Expected values are those of GNU m4. Manual: "How m4 copies input to
//! output", "Lexical and syntactic conventions", "Diverting and undiverting output".

use super::rows::{Row, compare};

static TOKENS: [Row; 6] = rows! {
    "a name across a text and the file, and across three texts",
        "define(`f',`a')define(`ab',`yes')define(`abc',`all')define(`g',`f()b')dnl\nf()b g()c f()x\n" =>
        "yes all ax\n";
    "a begin-quote of three bytes across two texts and the file",
        "changequote(`<<<',`>>>')define(<<<f>>>,<<<<>>>)define(<<<g>>>,<<<f()<>>>)dnl\nf<<x y>>> g<f()>>> f\
         ()<f() f\n" => "x y f() <<< <\n";
    "an end-quote of three bytes, of which a text has a part",
        "define(`f',`<<<b>')define(`g',`<<<f')define(`h',`<')changequote(`<<<',`>>>')dnl\nf>> f()> f>>> g>>\
         > h<<f()> f>>> g> >>>\n" => "b b>> f f f()> f f> \n";
    "a begin-comment of two bytes across texts, and an end in the file",
        "changecom(`//',`!!')define(`f',`/')define(`g',`f()')define(`x',`X')dnl\nf()/ x !! x g()/ x\nx !! \
         x f()x\n" => "// x !! X // x\nx !! X /X\n";
    "a comment that begins in a text and ends in the file",
        "define(`f',`# x')define(`x',`X')dnl\nf()x x\nx f\nx\n" => "# xx x\nX # x\nX\n";
    "a list across many texts",
        "define(`o',`(')define(`s',`,')define(`e',`)')define(`f',`[$1|$2]')define(`g',`f')dnl\ng()(a,b) f(o\
         ()a,b)e()) g()`'(a) f(s,b) f(`a'e, b) g()(o()a`)',e(),b)\n" =>
        "[a|b] [(a,b)|]) [|](a) [|] [a|], b) [(a),)|b]\n";
};

// Results that are short enough to be put before the bytes that come next, and long ones.
static RESULTS: [Row; 4] = rows! {
    "short results in a long one, whose end is a part of a name",
        "define(`s',`a')define(`ab',`yes')define(`long',`one two three four five six seven s()b eight s()'\
         )dnl\nlong()b long\nlong()s()b s()long()\n" =>
        "one two three four five six seven yes eight yes one two three four five six seven yes eight a\none \
         two three four five six seven yes eight as()b along()\n";
    "newlines of results, which are not of the file",
        "define(`n',`\n')define(`nn',`n()n()')define(`m',`[$1]\n')dnl\nn()n()x __line__\nnn()x __line__\nm\
         (m(a))x __line__\nm(n()n())__line__\n" => "\n\nx 4\n\n\nx 5\n[[a]\n]\nx 6\n[\n\n]\n7\n";
    "a long text without a dollar, whose end is a part of a name",
        "define(`t',`a text of more than thirty bytes, no part of which is copied; its end is ab')define(`\
         abc',`yes')define(`e',`')dnl\nt()c t()e()c t()`'c\n" =>
        "a text of more than thirty bytes, no part of which is copied; its end is yes a text of more than\
         \x20thirty bytes, no part of which is copied; its end is abe()c a text of more than thirty bytes,\
         \x20no part of which is copied; its end is abc\n";
    "calls one within another, and lists that begin and end in texts",
        "define(`c',`,')define(`o',`(')define(`f',`<$1|$2>')define(`w',`f(a long first argument of this c\
         all, b)c()f')dnl\nf(w()(x,y)) f(f(f(a)))f(c()b)\nf(f(f(f(f(f(f(f(1,2),2),2),2),2),2),2),2)\n" =>
        "<<a long first argument of this call|b>|<x|y>> <<<a|>|>|><|b>\n<<<<<<<<1|2>|2>|2>|2>|2>|2>|2>|2>\n";
};

// Results that are put before the bytes that come next, and those that are too long for it.
static LONG_RESULTS: [Row; 4] = rows! {
    "short results in a text of more than 128 bytes, whose end is a part of a name",
        "define(`s',`a')define(`ab',`yes')define(`long',`ten words of a text that is longer than all that i\
         s put before other text, since it has more than a hundred and twenty-eight bytes in all, s()b s()'\
         )dnl\nlong()b\nlong()s()b s()long()\n" =>
        "ten words of a text that is longer than all that is put before other text, since it has more than \
         a hundred and twenty-eight bytes in all, yes yes\nten words of a text that is longer than all that\
         \x20is put before other text, since it has more than a hundred and twenty-eight bytes in all, yes \
         as()b along()\n";
    "a text of more than 128 bytes without a dollar, whose end is a part of a name",
        "define(`t',`ten words of a text that is longer than all that is put before other text, since it ha\
         s more than a hundred and twenty-eight bytes in all, ab')define(`abc',`yes')define(`e',`')dnl\nt()\
         c t()e()c\n" =>
        "ten words of a text that is longer than all that is put before other text, since it has more than \
         a hundred and twenty-eight bytes in all, yes ten words of a text that is longer than all that is p\
         ut before other text, since it has more than a hundred and twenty-eight bytes in all, abe()c\n";
    "results of 31 to 128 bytes, with newlines and calls, one in another",
        "define(`m',`[a text of some forty bytes: $1]\n')define(`w',`m(`m($1)')m($1) of it ')dnl\nw(x)__lin\
         e__ m(m(m()))__line__\n" =>
        "[a text of some forty bytes: [a text of some forty bytes: x]\n]\n[a text of some forty bytes: x]\n\
         \x20of it 3 [a text of some forty bytes: [a text of some forty bytes: [a text of some forty bytes:\
         \x20]\n]\n]\n3\n";
    "a long result between two short ones, with a list across all",
        "define(`o',`f(')define(`l',`ten words of a text that is longer than all that is put before other t\
         ext, since it has more than a hundred and twenty-eight bytes in all, ')define(`e',`)')define(`f',`\
         <$1>')dnl\no()l()e() f(l()`'l())f\n" =>
        "<ten words of a text that is longer than all that is put before other text> <ten words of a text t\
         hat is longer than all that is put before other text><>\n";
};

// Spaces after words, with which delimiters begin or end.
static SPACES: [Row; 3] = rows! {
    "spaces with which a comment begins", "define(`b',`X')changecom(` ',`;')dnl\na b;b,a b;b\n" =>
        "a b;X,a b;X\n";
    "spaces with which a string begins", "define(`b',`X')changequote(` ',`;')a b;b,a b;b\n" =>
        "abX,abX\n";
    "spaces with which a string ends",
        "define(`b',`X')changequote(`[',` ')dnl\na [b b,[b c [b [b  b\n" => "a bX,bc bb X\n";
};

static ARGUMENTS: [Row; 5] = rows! {
    "an argument of several texts",
        "define(`f',`a')define(`g',`f()f()')define(`h',`<$1>')define(`aa',`A')dnl\nh(g()f) h(f()a g`'a f()`\
         f')\n" => "<af()a> <A af()a af>\n";
    "a delimiter that is changed in the middle of a text",
        "define(`x',`X')define(`m',`changequote([,])[x y]x')dnl\nm x\ndefine([n],[changecom(;)x ; x])dnl\n\
         n x\nx # x\n" => "x yX X\nX ; x x\nX # X\n";
    "white space before an argument, in texts",
        "define(`b',` ')define(`n',`\n')define(`f',`[$1]')dnl\nf(b()a) f(b`'a) f(  b() a) f(n()a)\n" =>
        "[ a] [ a] [  a] [\na]\n";
    "the rest of a line in a text and the file",
        "define(`d',`a dnl b')define(`e',`a dnl\nb')dnl\nd c\nd\ne c\n" => "a a a b c\n";
    "a name without its list at the end of a text",
        "define(`f',`len')define(`g',`f()')dnl\nf()(abc) g()(ab) f() f()`'(a)\n" =>
        "3 2 len len(a)\n";
};

static DIVERTED: [Row; 4] = rows! {
    "text in a diversion, across texts",
        "define(`f',`a')define(`ab',`yes')define(`h',`# x')define(`x',`X')divert(1)f()b x h()x\nx `f()'b f(\
         )\ndivert`'0 undivert(1)" => "0 yes X # xx\nX f()b a\n";
    "comments and strings in a diversion, with delimiters of several bytes",
        "changecom(`//',`!!')define(`f',`/')define(`g',`<')changequote(`<<<',`>>>')divert(2)f()/ f !! g<<f(\
         )>>> f\ndivert(0)undivert(2)" => "// f !! f() /\n";
    "text that is discarded, with calls in it",
        "divert(-1)define(`f',`a')define(`ab',`define(`k',`kept')')f()b # define(`k',`lost')\n`define(`k',`\
         lost')' f()\ndivert`'k f()b\n" => "kept \n";
    "a diversion that begins and ends in a text",
        "define(`d',`divert(1)a')define(`e',`b\ndivert`'c')dnl\nd x e y undivert(1)\n" =>
        "c y a x b\n\n";
};

#[test]
fn tokens_and_results_across_texts(rt: HostRuntime) {
    compare(&rt, &TOKENS);
    compare(&rt, &RESULTS);
    compare(&rt, &LONG_RESULTS);
}

#[test]
fn delimiters_and_arguments_across_texts(rt: HostRuntime) {
    compare(&rt, &SPACES);
    compare(&rt, &ARGUMENTS);
    compare(&rt, &DIVERTED);
}
