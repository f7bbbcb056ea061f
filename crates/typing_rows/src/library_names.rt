//! The names of Visual Basic's own libraries, whether this wizard translates them or not.
ghost use Rattle.std.specs.Prelude.{◌≡◌, map, nat_eq};
ghost use Rattle.std.specs.List.{list_any};
ghost use Rattle.std.specs.Cmp.Lexicographic.{pointwise};
ghost use Rattle.typing_rows.specs.LibraryNames.{names_a_to_c, names_d_to_i, names_j_to_p, names_q_to_y, is_among, is_library_word, is_library_name};

use up_base::Name;

static A_TO_C: [&[u8]; 33] = [
    b"abs",
    b"app",
    b"array",
    b"asc",
    b"ascb",
    b"ascw",
    b"atn",
    b"beep",
    b"callbyname",
    b"cbool",
    b"cbyte",
    b"ccur",
    b"cdate",
    b"cdbl",
    b"cdec",
    b"chdir",
    b"chdrive",
    b"choose",
    b"chr",
    b"chrb",
    b"chrw",
    b"cint",
    b"clipboard",
    b"clng",
    b"command",
    b"cos",
    b"createobject",
    b"csng",
    b"cstr",
    b"curdir",
    b"cvar",
    b"cvdate",
    b"cverr",
];

static D_TO_I: [&[u8]; 53] = [
    b"dateadd",
    b"datediff",
    b"datepart",
    b"dateserial",
    b"datevalue",
    b"day",
    b"ddb",
    b"deletesetting",
    b"dir",
    b"doevents",
    b"environ",
    b"eof",
    b"erl",
    b"error",
    b"exp",
    b"fileattr",
    b"filecopy",
    b"filedatetime",
    b"filelen",
    b"filter",
    b"fix",
    b"format",
    b"formatcurrency",
    b"formatdatetime",
    b"formatnumber",
    b"formatpercent",
    b"forms",
    b"freefile",
    b"fv",
    b"getallsettings",
    b"getattr",
    b"getobject",
    b"getsetting",
    b"hex",
    b"hour",
    b"iif",
    b"imestatus",
    b"inputb",
    b"inputbox",
    b"instr",
    b"instrb",
    b"instrrev",
    b"int",
    b"ipmt",
    b"irr",
    b"isarray",
    b"isdate",
    b"isempty",
    b"iserror",
    b"ismissing",
    b"isnull",
    b"isnumeric",
    b"isobject",
];

static J_TO_P: [&[u8]; 36] = [
    b"join",
    b"kill",
    b"lbound",
    b"lcase",
    b"left",
    b"leftb",
    b"len",
    b"lenb",
    b"load",
    b"loadpicture",
    b"loadresdata",
    b"loadrespicture",
    b"loadresstring",
    b"loc",
    b"lof",
    b"log",
    b"ltrim",
    b"mid",
    b"midb",
    b"minute",
    b"mirr",
    b"mkdir",
    b"month",
    b"monthname",
    b"msgbox",
    b"now",
    b"nper",
    b"npv",
    b"objptr",
    b"oct",
    b"partition",
    b"pmt",
    b"ppmt",
    b"printer",
    b"printers",
    b"pv",
];

static Q_TO_Y: [&[u8]; 53] = [
    b"qbcolor",
    b"randomize",
    b"rate",
    b"replace",
    b"reset",
    b"rgb",
    b"right",
    b"rightb",
    b"rmdir",
    b"rnd",
    b"round",
    b"rtrim",
    b"savepicture",
    b"savesetting",
    b"screen",
    b"second",
    b"seek",
    b"sendkeys",
    b"setattr",
    b"sgn",
    b"shell",
    b"sin",
    b"sln",
    b"space",
    b"spc",
    b"split",
    b"sqr",
    b"str",
    b"strcomp",
    b"strconv",
    b"strptr",
    b"strreverse",
    b"switch",
    b"syd",
    b"tab",
    b"tan",
    b"time",
    b"timer",
    b"timeserial",
    b"timevalue",
    b"trim",
    b"typename",
    b"ubound",
    b"ucase",
    b"unload",
    b"val",
    b"varptr",
    b"vartype",
    b"vb",
    b"vba",
    b"weekday",
    b"weekdayname",
    b"year",
];

fn names_a_to_c() -> &'static [&'static [u8]]
    ensures { map (λ w. w.now) result.now ≡ names_a_to_c }
{
    &A_TO_C
}

fn names_d_to_i() -> &'static [&'static [u8]]
    ensures { map (λ w. w.now) result.now ≡ names_d_to_i }
{
    &D_TO_I
}

fn names_j_to_p() -> &'static [&'static [u8]]
    ensures { map (λ w. w.now) result.now ≡ names_j_to_p }
{
    &J_TO_P
}

fn names_q_to_y() -> &'static [&'static [u8]]
    ensures { map (λ w. w.now) result.now ≡ names_q_to_y }
{
    &Q_TO_Y
}

// Whether a word is one of these.
fn is_found(word: &[u8], names: &[&[u8]]) -> bool
    ensures { result ≡ list_any (λ w. pointwise nat_eq word.now w.now) names.now }
{
    names.iter().any(|name| word == *name)
}

fn is_a_to_c(word: &[u8]) -> bool
    ensures { result ≡ is_among word.now names_a_to_c }
{
    is_found(word, names_a_to_c())
}

fn is_d_to_i(word: &[u8]) -> bool
    ensures { result ≡ is_among word.now names_d_to_i }
{
    is_found(word, names_d_to_i())
}

fn is_j_to_p(word: &[u8]) -> bool
    ensures { result ≡ is_among word.now names_j_to_p }
{
    is_found(word, names_j_to_p())
}

fn is_q_to_y(word: &[u8]) -> bool
    ensures { result ≡ is_among word.now names_q_to_y }
{
    is_found(word, names_q_to_y())
}

// Whether a word in small letters is a name of the libraries.
fn is_library_word(word: &[u8]) -> bool
    ensures { result ≡ is_library_word word.now }
{
    word.starts_with(b"vb")
        || is_a_to_c(word)
        || is_d_to_i(word)
        || is_j_to_p(word)
        || is_q_to_y(word)
}

/// Whether a name that finds no declaration is one of Visual Basic's own libraries, and so no undeclared variable. Letters
/// are compared without case, and all names that begin with `vb` are such ones.
pub fn is_library_name(name: &Name) -> bool
    ensures { result ≡ is_library_name name.now }
{
    is_library_word(name.lower_bytes())
}
