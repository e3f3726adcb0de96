//! A frozen file with each builtin of GNU m4 under its name, as it freezes its first state.
//! Manual: "Frozen file format".

/// The file as it may be frozen: each builtin under its name, two texts, and what a reader passes over.
pub const FILE: &str =
    "# c\nV1\nQ1,1\n`'\nC1,1\n#\n\nF8,8\n__file____file__\nF8,8\n__line____line__\nF11,11\n\
    __program____program__\nF7,7\nbuiltinbuiltin\nF9,9\nchangecomchangecom\nF11,11\n\
    changequotechangequote\nF10,10\nchangewordchangeword\nF9,9\ndebugfiledebugfile\nF9,9\n\
    debugmodedebugmode\nF4,4\ndecrdecr\nF6,6\ndefinedefine\nF4,4\ndefndefn\nF6,6\ndivertdivert\nF6,6\n\
    divnumdivnum\nF3,3\ndnldnl\nF7,7\ndumpdefdumpdef\nF8,8\nerrprinterrprint\nF7,7\n\
    esyscmdesyscmd\nF4,4\nevaleval\nF6,6\nformatformat\nF5,5\nifdefifdef\nF6,6\nifelseifelse\nF7,7\n\
    includeinclude\nF4,4\nincrincr\nF5,5\nindexindex\nF5,5\nindirindir\nF3,3\nlenlen\nF6,6\n\
    m4exitm4exit\nF6,6\nm4wrapm4wrap\nF8,8\nmaketempmaketemp\nF7,7\nmkstempmkstemp\nF8,8\n\
    patsubstpatsubst\nF6,6\npopdefpopdef\nF7,7\npushdefpushdef\nF6,6\nregexpregexp\nF5,5\n\
    shiftshift\nF8,8\nsincludesinclude\nF6,6\nsubstrsubstr\nF6,6\nsyscmdsyscmd\nF6,6\n\
    sysvalsysval\nF8,8\ntraceofftraceoff\nF7,7\ntraceontraceon\nF8,8\ntranslittranslit\nF8,8\n\
    undefineundefine\nF8,8\nundivertundivert\nT7,0\n__gnu__\nT8,0\n__unix__\n# the end\n";

/// Its canonical text: the names in byte order.
pub const CANONICAL: &str =
    "# m4 frozen state\nV1\nF8,8\n__file____file__\nT7,0\n__gnu__\nF8,8\n__line____line__\n\
    F11,11\n__program____program__\nT8,0\n__unix__\nF7,7\nbuiltinbuiltin\nF9,9\nchangecomchangecom\n\
    F11,11\nchangequotechangequote\nF10,10\nchangewordchangeword\nF9,9\ndebugfiledebugfile\n\
    F9,9\ndebugmodedebugmode\nF4,4\ndecrdecr\nF6,6\ndefinedefine\nF4,4\ndefndefn\nF6,6\ndivertdivert\n\
    F6,6\ndivnumdivnum\nF3,3\ndnldnl\nF7,7\ndumpdefdumpdef\nF8,8\nerrprinterrprint\n\
    F7,7\nesyscmdesyscmd\nF4,4\nevaleval\nF6,6\nformatformat\nF5,5\nifdefifdef\nF6,6\nifelseifelse\n\
    F7,7\nincludeinclude\nF4,4\nincrincr\nF5,5\nindexindex\nF5,5\nindirindir\nF3,3\nlenlen\n\
    F6,6\nm4exitm4exit\nF6,6\nm4wrapm4wrap\nF8,8\nmaketempmaketemp\nF7,7\nmkstempmkstemp\n\
    F8,8\npatsubstpatsubst\nF6,6\npopdefpopdef\nF7,7\npushdefpushdef\nF6,6\nregexpregexp\n\
    F5,5\nshiftshift\nF8,8\nsincludesinclude\nF6,6\nsubstrsubstr\nF6,6\nsyscmdsyscmd\n\
    F6,6\nsysvalsysval\nF8,8\ntraceofftraceoff\nF7,7\ntraceontraceon\nF8,8\ntranslittranslit\n\
    F8,8\nundefineundefine\nF8,8\nundivertundivert\n# End of frozen state file\n";
