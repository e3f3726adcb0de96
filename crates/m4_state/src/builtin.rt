//! The builtins that this processor has. If a frozen file names another builtin, it is kept as a
//! placeholder. Manual: "Builtins".
//!
//! The table has one row for each builtin, here and in `specs/Builtin.antt`. A look-up by name goes over the names that
//! are as long.

ghost use Rattle.std.specs.Prelude.{◌≡◌, ◌==◌, length, filter};
ghost use Rattle.m4_state.specs.Builtin.{row_with};

use std::marker::Model;

/// A builtin of the table.
#[derive(Clone, Copy)]
pub enum Builtin {
    /// Sets the definition of a name. Manual: "Defining a macro".
    Define,
    /// Removes all definitions of names. Manual: "Deleting a macro".
    Undefine,
    /// Pushes a definition on those of a name. Manual: "Temporarily redefining macros".
    Pushdef,
    /// Removes the top definition of each name. Manual: "Temporarily redefining macros".
    Popdef,
    /// Expands to the definitions of names. Manual: "Renaming macros".
    Defn,
    /// Calls the macro of any name. Manual: "Indirect call of macros".
    Indir,
    /// Calls a builtin by its own name. Manual: "Indirect call of builtins".
    IndirBuiltin,
    /// Selects by whether a name has a definition. Manual: "Testing if a macro is defined".
    Ifdef,
    /// Selects by comparing texts. Manual: "If-else construct, or multibranch".
    Ifelse,
    /// Expands to all arguments but the first. Manual: "Recursion in m4".
    Shift,
    /// Prints definitions as messages. Manual: "Displaying macro definitions".
    Dumpdef,
    /// Discards the rest of the line. Manual: "Deleting whitespace in input".
    Dnl,
    /// Sets the quotes. Manual: "Changing the quote characters".
    Changequote,
    /// Sets the comment delimiters. Manual: "Changing the comment delimiters".
    Changecom,
    /// Sets the current diversion. Manual: "Diverting output".
    Divert,
    /// Undiverts diversions. Manual: "Undiverting output".
    Undivert,
    /// Expands to the number of the current diversion. Manual: "Diversion numbers".
    Divnum,
    /// Expands to the length of a text. Manual: "Calculating length of strings".
    Len,
    /// Expands to the place of a text inside another. Manual: "Searching for substrings".
    Index,
    /// Expands to a part of a text. Manual: "Extracting substrings".
    Substr,
    /// Replaces bytes by others. Manual: "Translating characters".
    Translit,
    /// Adds 1 to a number. Manual: "Decrement and increment operators".
    Incr,
    /// Subtracts 1 from a number. Manual: "Decrement and increment operators".
    Decr,
    /// Computes an expression. Manual: "Evaluating integer expressions".
    Eval,
    /// Prints a message. Manual: "Printing error messages".
    Errprint,
    /// Saves a text until all input is read. Manual: "Saving text until end of input".
    M4wrap,
    /// Ends the run. Manual: "Exiting from m4".
    M4exit,
    /// Expands to the name of the input. Manual: "Printing current location".
    File,
    /// Expands to the line of the call. Manual: "Printing current location".
    Line,
}

/// How a builtin is called: its row of the table.
#[derive(Drop)]
pub struct Row {
    /// Its own name.
    pub name: &'static [u8],
    /// Whether the name is recognised only with parameters.
    pub needs_args: bool,
    /// Whether a definition may be an argument; if not, it counts as an empty text.
    pub takes_tokens: bool,
    /// The least number of arguments.
    pub least: usize,
    /// The greatest number of arguments; none if there is no limit.
    pub most: Option<usize>,
}

impl Model for Row {
    ghost use Rattle.m4_state.specs.Builtin.{Row as Record, row_with};

    ghost Value = { Record };

    ghost view = { λ r. row_with r.name.now r.needs_args r.takes_tokens r.least r.most };
}

/// Returns a row of the table. The columns are in the order of its fields.
fn called(
    name: &'static [u8],
    needs_args: bool,
    takes_tokens: bool,
    least: usize,
    most: Option<usize>,
) -> Row
    ensures { result ≡ row_with name.now needs_args takes_tokens least most }
{
    Row {
        name,
        needs_args,
        takes_tokens,
        least,
        most,
    }
}

impl Builtin {
    ghost use Rattle.m4_state.specs.Builtin.{row_of, table, builtin_named, name_of};
    ghost use Rattle.m4_state.specs.Columns.{needs_args, takes_tokens};

    /// All builtins.
    pub const TABLE: [Builtin; 29] = [
        Builtin::Define,
        Builtin::Undefine,
        Builtin::Pushdef,
        Builtin::Popdef,
        Builtin::Defn,
        Builtin::Indir,
        Builtin::IndirBuiltin,
        Builtin::Ifdef,
        Builtin::Ifelse,
        Builtin::Shift,
        Builtin::Dumpdef,
        Builtin::Dnl,
        Builtin::Changequote,
        Builtin::Changecom,
        Builtin::Divert,
        Builtin::Undivert,
        Builtin::Divnum,
        Builtin::Len,
        Builtin::Index,
        Builtin::Substr,
        Builtin::Translit,
        Builtin::Incr,
        Builtin::Decr,
        Builtin::Eval,
        Builtin::Errprint,
        Builtin::M4wrap,
        Builtin::M4exit,
        Builtin::File,
        Builtin::Line,
    ];

    /// Returns the builtin of that name, if the table has it.
    pub fn by_name(name: &[u8]) -> Option<Builtin>
        ensures { result ≡ builtin_named name.now }
    {
        for builtin in Builtin::of_length(name.len()) {
            if builtin.name() == name {
                return Some(*builtin);
            }
        }
        None
    }

    /// Returns the builtins whose names have that length: a look-up compares few names.
    fn of_length(len: usize) -> &'static [Builtin]
        ensures { result.now ≡ filter (λ b. length (name_of b) == len) table }
    {
        match len {
            3 => &[Builtin::Dnl, Builtin::Len],
            4 => &[Builtin::Defn, Builtin::Incr, Builtin::Decr, Builtin::Eval],
            5 => &[
                Builtin::Indir,
                Builtin::Ifdef,
                Builtin::Shift,
                Builtin::Index,
            ],
            6 => &[
                Builtin::Define,
                Builtin::Popdef,
                Builtin::Ifelse,
                Builtin::Divert,
                Builtin::Divnum,
                Builtin::Substr,
                Builtin::M4wrap,
                Builtin::M4exit,
            ],
            7 => &[Builtin::Pushdef, Builtin::IndirBuiltin, Builtin::Dumpdef],
            8 => &[
                Builtin::Undefine,
                Builtin::Undivert,
                Builtin::Translit,
                Builtin::Errprint,
                Builtin::File,
                Builtin::Line,
            ],
            9 => &[Builtin::Changecom],
            11 => &[Builtin::Changequote],
            _ => &[],
        }
    }

    /// Returns the builtin's row.
    pub fn row(self) -> Row
        ensures { result ≡ row_of self }
    {
        match self {
            Builtin::Define => called(b"define", true, true, 1, Some(2)),
            Builtin::Undefine => called(b"undefine", true, false, 1, None),
            Builtin::Pushdef => called(b"pushdef", true, true, 1, Some(2)),
            Builtin::Popdef => called(b"popdef", true, false, 1, None),
            Builtin::Defn => called(b"defn", true, false, 1, None),
            Builtin::Indir => called(b"indir", true, true, 1, None),
            Builtin::IndirBuiltin => called(b"builtin", true, true, 1, None),
            Builtin::Ifdef => called(b"ifdef", true, false, 2, Some(3)),
            Builtin::Ifelse => called(b"ifelse", true, false, 0, None),
            Builtin::Shift => called(b"shift", true, false, 0, None),
            Builtin::Dumpdef => called(b"dumpdef", false, false, 0, None),
            Builtin::Dnl => called(b"dnl", false, false, 0, Some(0)),
            Builtin::Changequote => called(b"changequote", false, false, 0, Some(2)),
            Builtin::Changecom => called(b"changecom", false, false, 0, Some(2)),
            Builtin::Divert => called(b"divert", false, false, 0, Some(1)),
            Builtin::Undivert => called(b"undivert", false, false, 0, None),
            Builtin::Divnum => called(b"divnum", false, false, 0, Some(0)),
            Builtin::Len => called(b"len", true, false, 1, Some(1)),
            Builtin::Index => called(b"index", true, false, 2, Some(2)),
            Builtin::Substr => called(b"substr", true, false, 2, Some(3)),
            Builtin::Translit => called(b"translit", true, false, 2, Some(3)),
            Builtin::Incr => called(b"incr", true, false, 1, Some(1)),
            Builtin::Decr => called(b"decr", true, false, 1, Some(1)),
            Builtin::Eval => called(b"eval", true, false, 1, Some(3)),
            Builtin::Errprint => called(b"errprint", true, false, 0, None),
            Builtin::M4wrap => called(b"m4wrap", true, false, 0, None),
            Builtin::M4exit => called(b"m4exit", false, false, 0, Some(1)),
            Builtin::File => called(b"__file__", false, false, 0, Some(0)),
            Builtin::Line => called(b"__line__", false, false, 0, Some(0)),
        }
    }

    /// Returns the builtin's own name.
    pub fn name(self) -> &'static [u8]
        ensures { result.now ≡ name_of self }
    {
        self.row().name
    }

    /// Returns whether its name is recognised only with parameters. Manual: "Macro invocation".
    pub fn needs_args(self) -> bool
        ensures { result ≡ needs_args self }
    {
        self.row().needs_args
    }

    /// Returns whether a definition may be its argument; if not, it counts as an empty text.
    pub fn takes_tokens(self) -> bool
        ensures { result ≡ takes_tokens self }
    {
        self.row().takes_tokens
    }
}
