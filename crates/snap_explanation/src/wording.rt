//! Each sentence of an explanation, written once, and the tables that say at which piece of a line
//! a sentence stands. The definitions name these sentences.

use crate::parts::Part;

// Words between pieces.
pub const QUOTE: &[u8] = b"`";

pub const LINE_END: &[u8] = b"\n";
/// Stands for the bytes of a piece that are not shown.
pub const CUT: &[u8] = b"..";

// A place.
pub const LINE: &[u8] = b"line ";

pub const OF_THE_INPUT: &[u8] = b" of the input, line ";

pub const OF: &[u8] = b" of ";

pub const COLUMN: &[u8] = b", column ";

pub const PLACE_END: &[u8] = b":\n";

pub const MARGIN: &[u8] = b"    ";

pub const MARK: &[u8] = b"^\n";

pub const THE_LISTING: &[u8] = b"the listing";

pub const THE_SCHEDULE: &[u8] = b"the schedule";

pub const NTH_SCHEDULE: &[u8] = b"schedule ";

pub const THE_SCRIPTS: &[u8] = b"the scripts";

pub const THE_COMMANDS: &[u8] = b"the commands";

pub const THE_HISTORY: &[u8] = b"the history";

// What is expected and found at a place.
pub const EXPECTED: &[u8] = b"expected ";

pub const OR: &[u8] = b", or ";

pub const FOUND: &[u8] = b"; found ";

pub const END_OF_LINE: &[u8] = b"the end of the line";

pub const INDEX_OR_PLACE: &[u8] = b"an index: a number, a name, `n`, `w`, `me`, `word` or `@`";

/// What a part of a line is called.
pub const PART_WORDS: &[(Part, &[u8])] = &[
    (Part::Colon, b"`:`"),
    (Part::Equal, b"`=`"),
    (Part::Place, b"`@`"),
    (Part::OpenBracket, b"`[`"),
    (Part::CloseBracket, b"`]`"),
    (Part::OpenParenthesis, b"`(`"),
    (Part::CloseParenthesis, b"`)`"),
    (Part::Comma, b"`,`"),
    (Part::Goto, b"`goto`"),
    (Part::R, b"`r`"),
    (Part::V, b"`v`"),
    (Part::Kind, b"`kind`"),
    (Part::Scalar, b"`scalar`"),
    (Part::Row, b"`row`"),
    (Part::Words, b"`words`"),
    (Part::View, b"`view`"),
    (Part::Scan, b"`scan`"),
    (Part::Update, b"`update`"),
    (Part::Shape, b"`shape`"),
    (Part::Number, b"a number"),
    (Part::Process, b"a number"),
    (Part::Target, b"a number"),
    (Part::LineNumber, b"a line number, 1 to 9999"),
    (Part::Count, b"a number, 1 to 64"),
    (Part::Positive, b"a number, at least 1"),
    (Part::Turn, b"a number of turns, 1 to 1000000"),
    (Part::Name, b"a name"),
    (Part::Names, b"a name"),
    (
        Part::Index,
        b"an index: a number, a name, `n`, `w`, `me` or `word`",
    ),
    (Part::Range, b"`n` or `w`"),
    (Part::Relation, b"`=`, `!=` or `<`"),
    (Part::KindName, b"`seq`, `bit` or `multi`"),
    (Part::Instruction, b"an instruction"),
    (Part::Term, b"a value"),
    (Part::PlaceOption, b"`[`"),
    (Part::Expr, b"a value"),
    (Part::SumOption, b"`+`"),
    (Part::Condition, b"a comparison"),
    (Part::FirstJoin, b"`and` or `or`"),
    (Part::SecondAnd, b"`and`"),
    (Part::SecondOr, b"`or`"),
    (Part::ThirdAnd, b"`and`"),
    (Part::ThirdOr, b"`or`"),
    (Part::WhereOption, b"`where`"),
    (Part::Written, b"`r`, `q`, `p` or `v`"),
    (Part::Bit, b"`q` or `p`"),
    (Part::Tuple, b"`(`"),
    (Part::SecondPart, b"a value"),
    (Part::BehindName, b"`,`, `+` or `[`"),
    (Part::BehindThird, b"`,` or `)`"),
    (Part::ViewSource, b"`data` or `view`"),
    (Part::Test, b"a comparison or `all`"),
    (Part::Act, b"`*`, `scan`, `update` or `crash`"),
    (Part::ScriptAct, b"`scan`, `update` or `crash`"),
    (Part::Command, b"a command"),
    (Part::Register, b"`r`, `q`, `p` or `v`"),
    (Part::Shown, b"`r`, `q`, `p`, `v` or a process"),
];

// What is advised at a token.
pub const NO_TOKEN: &[u8] = b"` is no token\n";

pub const VALUES: &[u8] =
    b"a value is a number, a name, `arg`, `n`, `w`, `me`, `word`, `R[I]`, `data(W[I])` or \
    another field of a word\n";

pub const ONE_MORE: &[u8] = b"one more is `let c = c + 1`\n";

pub const JOINED: &[u8] = b"one to four comparisons are joined, all by `and` or all by `or`\n";

pub const HEADERS: &[u8] =
    b"a listing begins with the lines kind, scalar, row, words, view, scan and update, in this \
    order\n";

pub const REGISTERS: &[u8] =
    b"a register is `r K`, `q I J`, `p I J` or `v I`, and a process its number\n";

pub const COMMANDS: &[u8] =
    b"the commands are step K, back K, goto T, run, rrun, break I L, clear I L, watch and unwatch \
    with a register,\nshow with a register or a process, values, events, where\n";

pub const BANKS: &[u8] =
    b"`r`, `q`, `p` and `v` are registers, and no names; `put` writes them: `put r[I] = ..`\n";

pub const RESERVED: &[u8] = b"this word is reserved, and no name\n";

pub const NAMES: &[u8] =
    b"names stand side by side, with a space between two of them, as in `scalar j c`\n";

pub const TARGET: &[u8] =
    b"lines have numbers, and no labels: a target is the number of its line, as in `goto 10`\n";

pub const LOCAL: &[u8] = b"a local is set by `let`, as in `let c = c + 1`\n";

const EQUALITY: &[u8] =
    b"comparisons are `=`, `!=` and `<`: `a == b` is `a = b`, `a <= b` is `a < b or a = b`\n";

const READ_WORD: &[u8] =
    b"a register is read in a line of its own: `get W[I] = r[J]`; then its data is `data(W[I])`\n";

const READ_VIEW: &[u8] = b"a view is read in a line of its own: `look S = v[I]`\n";

const SET_VIEW: &[u8] =
    b"a view is set in a line of its own: `view S = data(W)` or `view S = view(W[I])`\n";

const READ_BIT: &[u8] =
    b"a bit is read in a line of its own: `bit X = q[I,J]` or `bit X = p[I,J]`\n";

const LOOP: &[u8] =
    b"a loop jumps back: `next X n goto L` for X up to n, or `let X = X + 1` and `if C goto L`\n";

const BRANCH: &[u8] = b"a test is `if C goto L`; where C does not hold, the next line follows\n";

const WRITTEN: &[u8] =
    b"a register is written by `put`, as in `put r[I] = ..`, and read by `get`, `bit` or `look`\n";

const ALL: &[u8] = b"`all` stands behind `if` alone: `if all n: C goto L`, or with `w`; \
      `each n: R[@] = E` sets each place of a row\n";

/// The advice where the number of a process has to stand, by piece.
pub const PROCESS_HINTS: &[(&[u8], &[u8])] = &[(
    b"shape",
    b"a schedule has one line `shape N W`; in a batch or a survey a line `%` stands between two \
      schedules\n",
)];

/// The advice where `n` or `w` has to stand, by piece.
pub const RANGE_HINTS: &[(&[u8], &[u8])] = &[(b"all", ALL)];

/// What is advised at a piece where the index of a register has to end.
pub const INDEX_HINTS: &[(&[u8], &[u8])] = &[(
    b"+",
    b"an index is one number or one name: write `let j = j + 1` in a line before\n",
)];

/// The advice where `=` has to stand, by piece.
pub const SUM_HINTS: &[(&[u8], &[u8])] = &[(b"+", ONE_MORE)];

/// The advice where comparisons end, by piece.
pub const JOIN_HINTS: &[(&[u8], &[u8])] = &[(b"and", JOINED), (b"or", JOINED)];

/// The advice where a name has to stand, by piece.
pub const NAME_HINTS: &[(&[u8], &[u8])] = &[
    (b"r", BANKS),
    (b"v", BANKS),
    (b"q", BANKS),
    (b"p", BANKS),
    (b"all", ALL),
];

/// The advice where a value has to stand, by piece.
pub const VALUE_HINTS: &[(&[u8], &[u8])] = &[
    (b"+", ONE_MORE),
    (b"=", EQUALITY),
    (b"r", READ_WORD),
    (b"q", READ_BIT),
    (b"p", READ_BIT),
    (b"v", READ_VIEW),
    (b"view", SET_VIEW),
    (b"all", ALL),
];

/// The advice where a comparison has to stand, by piece.
pub const COMPARISON_HINTS: &[(&[u8], &[u8])] = &[
    (b"=", EQUALITY),
    (b"r", READ_WORD),
    (b"q", READ_BIT),
    (b"p", READ_BIT),
    (b"v", READ_VIEW),
    (b"view", SET_VIEW),
    (b"all", ALL),
];

/// The advice where an instruction has to stand, by piece.
pub const INSTRUCTION_HINTS: &[(&[u8], &[u8])] = &[
    (b"for", LOOP),
    (b"while", LOOP),
    (b"loop", LOOP),
    (b"else", BRANCH),
    (b"then", BRANCH),
    (b"all", ALL),
    (b"r", WRITTEN),
    (b"v", WRITTEN),
    (b"q", WRITTEN),
    (b"p", WRITTEN),
];

/// The advice where nothing more may stand, by piece.
pub const END_HINTS: &[(&[u8], &[u8])] = &[
    (
        b"+",
        b"a sum has two terms: add the third one in a line of its own\n",
    ),
    (
        b"else",
        b"there is no `else`: where a test does not hold, the next line follows\n",
    ),
    (b"and", JOINED),
    (b"or", JOINED),
];

// What is advised of the form of a line.
pub const NUMBERED: &[u8] =
    b"a line is its number, `:` and an instruction, as in `10: let c = 1`\n";

pub const SHAPE: &[u8] =
    b"the first line is `shape N W`, with N processes and W words, as in `shape 2 2`\n";

pub const ITEM: &[u8] =
    b"a line of a schedule is `I`, `I*K` for K steps, `I scan`, `I update K X` or `I crash`, for \
    process number I\n";

pub const SCRIPT: &[u8] =
    b"a line of scripts is `I scan`, `I update K X`, or `I crash K` at turn K of 1 to 1000000, for \
    process number I\n";

pub const SECOND_CRASH: &[u8] =
    b"a line before says at which turn this process crashes: `I crash K` stands once for each \
    process\n";

pub const INSTRUCTIONS: &[u8] =
    b"instructions begin with let, get, bit, look, put, view, each, first, next, if, goto, call, \
    return or finish\n";

/// The form of each command, by its first word.
pub const COMMAND_FORMS: &[(&[u8], &[u8])] = &[
    (b"step", b"the form is `step K`: K items on\n"),
    (b"back", b"the form is `back K`: K items back\n"),
    (b"goto", b"the form is `goto T`: to position T\n"),
    (b"break", b"the form is `break I L`: process I at line L\n"),
    (b"clear", b"the form is `clear I L`: process I at line L\n"),
    (
        b"watch",
        b"the form is `watch r 2`, and so for the other registers\n",
    ),
    (
        b"unwatch",
        b"the form is `unwatch r 2`, and so for the other registers\n",
    ),
    (
        b"show",
        b"the form is `show r 2`, and so for the other registers, or `show 1` for process 1\n",
    ),
];

/// The form of each instruction, by its first word.
pub const INSTRUCTION_FORMS: &[(&[u8], &[u8])] = &[
    (
        b"let",
        b"the forms are `let X = E` and `let R[I] = E`, a scalar X or a row R; E is a value, \
          `a + b` or `not a`\n",
    ),
    (
        b"get",
        b"the form is `get W[I] = r[J]`: place I of the words local W becomes word J; its data is \
          `data(W[I])`\n",
    ),
    (
        b"bit",
        b"the forms are `bit X = q[I,J]` and `bit X = p[I,J]`, with a scalar X\n",
    ),
    (b"look", b"the form is `look S = v[I]`, with a view S\n"),
    (
        b"put",
        b"the forms are `put r[I] = TUPLE`, `put q[I,J] = E`, `put p[I,J] = E` and \
          `put v[I] = S`, with a view S;\n\
          TUPLE is `(value, number, S)` in kind seq, `(value, row, toggle, S)` in bit, \
          `(value, id, toggle)` in multi\n",
    ),
    (
        b"view",
        b"the forms are `view S = data(W)` and `view S = view(W[I])`, with a view S and a words \
          local W\n",
    ),
    (
        b"each",
        b"the form is `each n: R[@] = E`, or with `w`; `where C` may stand behind it; `@` is each \
          place\n",
    ),
    (
        b"first",
        b"the form is `first X n: C goto L`, or with `w`: X becomes the least `@` for which C \
          holds\n",
    ),
    (
        b"next",
        b"the form is `next X n goto L`, or with `w`: X below n becomes X + 1, and to line L; \
          else X becomes 1\n",
    ),
    (
        b"if",
        b"the forms are `if C goto L` and `if all n: C goto L`, or with `w`; C is `a = b`, \
          `a != b` or `a < b`,\nor up to four of these joined by `and`, or by `or`\n",
    ),
    (
        b"goto",
        b"the form is `goto L`, with the number of a line\n",
    ),
    (
        b"call",
        b"the form is `call L`, with the number of a line\n",
    ),
    (b"return", b"the form is `return S`, with a view S\n"),
    (b"finish", b""),
];

// What is advised of a line with a carriage return inside, and of bytes in lines without expressions.
pub const RETURN: &[u8] =
    b"this line has a carriage return inside, which is a space: a line ends with a line feed\n";

pub const NO_RANGES: &[u8] =
    b"numbers have no sign and no point, and a schedule has no ranges: `1*5` is five steps of \
    process 1, and each process takes a line of its own\n";

pub const NO_SIGNS: &[u8] = b"numbers have no sign and no point\n";

pub const NO_SEMICOLONS: &[u8] =
    b"a line ends without `;`, and what comes behind it takes a line of its own\n";

// What is advised of a piece that is no token.
pub const WRONG_NUMBER: &[u8] = b"a number has no leading zero and is below 2^64\n";

const PROCESS: &[u8] =
    b"a name is letters a to z, and a process is its number: `1`, `1*8`, `1 scan`, `1 update 1 7` \
    or `1 crash`\n";

const BANK: &[u8] =
    b"names are letters alone; in a command a register is `r 2` or `q 1 2`, in a listing `r[2]` \
    or `q[1,2]`\n";

/// What is advised of letters and digits side by side, by the range of bytes with the first one:
/// `p` may begin a process, and `q`, `r` and `v` a register.
pub const LEXEME_HINTS: &[(u8, u8, &[u8])] = &[
    (
        b'0',
        b'9',
        b"a number ends before a letter: `shape 2 2`, `1 scan`, `1*8` for eight steps, \
          `10: let c = 1`\n",
    ),
    (b'p', b'p', PROCESS),
    (b'q', b'r', BANK),
    (b'v', b'v', BANK),
    (
        0,
        255,
        b"letters and digits side by side are no token: names are letters alone\n",
    ),
];

/// The advice on a byte that begins no token, by the range of bytes that has it. A byte outside of
/// ASCII is the first one of a character in UTF-8, or of a text in UTF-16.
pub const BYTE_HINTS: &[(u8, u8, &[u8])] = &[
    (
        b'>',
        b'>',
        b"comparisons are `=`, `!=` and `<`: `a > b` is `b < a`, `a >= b` is `b < a or b = a`, \
          `a <> b` is `a != b`\n",
    ),
    (
        b'-',
        b'-',
        b"there is no `-`: values are numbers from 0, and `+` is the only operation\n",
    ),
    (
        b';',
        b';',
        b"a line ends without `;`, and `,` stands between the parts of a tuple\n",
    ),
    (b'/', b'/', b"a comment begins with `#`\n"),
    (b'!', b'!', b"different is `!=`\n"),
    (
        b'%',
        b'%',
        b"`%` parts an input where it is alone in its line, with no blank beside it;\n\
          `check`, `lint` and `assemble` take an input without parts\n",
    ),
    (
        b'.',
        b'.',
        b"the number of a line has `:` behind it, as in `10: let c = 1`; \
          a field stands before its word:\n\
          `data(W[I])`, `seq(W[I])`, `toggle(W[I])`, `id(W[I])` or `hand(W[I],J)`\n",
    ),
    (b'&', b'&', JOINED),
    (b'|', b'|', JOINED),
    (b'P', b'P', PROCESS),
    (b'A', b'Z', b"letters are a to z\n"),
    (
        0,
        0,
        b"this byte is 0: the input is no text, or text in UTF-16\n",
    ),
    (
        194,
        194,
        b"`?` stands for a byte outside of ASCII, maybe of a no-break space: type a space\n",
    ),
    (
        195,
        195,
        b"`?` stands for a byte outside of ASCII: letters are a to z, without accents\n",
    ),
    (
        226,
        226,
        b"`?` stands for a byte outside of ASCII, maybe of a quote, a dash, an arrow or \
          a sign of comparison;\n\
          comparisons are typed `=`, `!=` and `<`: `a <= b` is `a < b or a = b`\n",
    ),
    (
        239,
        239,
        b"`?` stands for a byte outside of ASCII, maybe of a byte order mark: \
          save the file without one\n",
    ),
    (
        254,
        255,
        b"`?` stands for a byte outside of ASCII; the file may be UTF-16: \
          save it in UTF-8 without a byte order mark\n",
    ),
    (
        128,
        255,
        b"`?` stands for a byte outside of ASCII, which may stand in a comment alone\n",
    ),
    (
        0,
        255,
        b"a token is letters a to z, a number, or one of : = != < + , ( ) [ ] @ *\n",
    ),
];

// What is said of a name, a number or a line that is not right.
pub const WRONG: &[u8] =
    b"a name of another sort stands here, or one that is not declared, or a register, a field or \
    a tuple that this kind of registers has not\n";

pub const IS: &[u8] = b"` is ";

pub const WHILE: &[u8] = b"; ";

pub const A_SCALAR: &[u8] = b"a scalar";

pub const A_ROW: &[u8] = b"a row";

pub const A_LIST: &[u8] = b"a list of words";

pub const A_VIEW: &[u8] = b"a view";

pub const NOT_DECLARED: &[u8] = b"not declared";

pub const BELONGS: &[u8] = b" belongs here: `";

pub const IS_ONE: &[u8] = b"` is one\n";

pub const NONE_DECLARED: &[u8] = b" belongs here: none is declared\n";

pub const ROW_USE: &[u8] = b"a number of a row is `R[I]`\n";

pub const WORDS_USE: &[u8] = b"a field of a word is `data(W[I])`; `get W[I] = r[J]` reads a word\n";

pub const VIEW_USE: &[u8] = b"a view is set by `view S = ..` or `look S = ..`\n";

pub const SEQ_BANKS: &[u8] =
    b"registers of kind seq are `r[I]`, written as in `put r[I] = (value, number, view)`; \
    there is no `";

pub const BIT_BANKS: &[u8] = b"registers of kind bit are `r[I]` and `q[I,J]`; there is no `";

pub const MULTI_BANKS: &[u8] =
    b"registers of kind multi are `r[I]`, `q[I,J]`, `p[I,J]` and `v[I]`; there is no `";

pub const SEQ_FIELDS: &[u8] = b"words of kind seq have `data`, `seq` and `view`, and no `";

pub const BIT_FIELDS: &[u8] =
    b"words of kind bit have `data`, `hand`, `toggle` and `view`, and no `";

pub const MULTI_FIELDS: &[u8] = b"words of kind multi have `data`, `id` and `toggle`, and no `";

pub const QUOTE_END: &[u8] = b"`\n";

pub const SEQ_TUPLE: &[u8] =
    b"a tuple of kind seq is `(value, number, view)`, where the view is a name alone\n";

pub const BIT_TUPLE: &[u8] =
    b"a tuple of kind bit is `(value, row, toggle, view)`, where the row and the view are names \
    alone\n";

pub const MULTI_TUPLE: &[u8] = b"a tuple of kind multi is `(value, id, toggle)`\n";

pub const DECLARED_IN: &[u8] = b"` is declared in line ";

pub const DECLARED_AS: &[u8] = b" of the listing, as `";

pub const DECLARED_BEFORE: &[u8] = b"this name is declared before\n";

pub const NUMBERS_RISE: &[u8] = b"the numbers of lines rise: number ";

pub const COMES_AFTER: &[u8] = b" comes after line ";

pub const HAS_NUMBER: &[u8] = b" of the listing, which has number ";

pub const NO_SUCH_LINE: &[u8] = b"no line has this number\n";

pub const BAD_NAME: &[u8] = b"a name has at most eight letters, and is no reserved word\n";

pub const TOO_MANY: &[u8] = b"a listing has at most 32 names and 200 lines\n";

// What is said of a schedule and of commands.
pub const NO_PROCESS: &[u8] = b"the shape has no such process: `shape N W` has processes 1 to N\n";

pub const NO_FIT: &[u8] =
    b"registers of kind seq and bit have one word for each process: `shape N N`\n";

pub const ITEMS: &[u8] = b"a schedule has at most 1000000 items\n";

pub const LONG_LISTING: &[u8] = b"the text of a listing has at most 65536 bytes\n";

pub const LONG_SCHEDULE: &[u8] = b"a schedule has at most 4194304 bytes\n";

pub const LONG_COMMANDS: &[u8] = b"there are at most 10000 commands, in 1048576 bytes\n";

// What is said of a whole input, and of its parts.
pub const LONG_INPUT: &[u8] = b"an input has at most 16777216 bytes\n";

pub const BYTE: &[u8] = b"byte ";

pub const NO_CODE: &[u8] = b" of the image, counted from 0, is no code that may stand there\n";

pub const IMAGE_RULE: &[u8] =
    b"the bytes have the form of an image, and the listing in it breaks a rule:\n";

pub const RISING: &[u8] = b"the numbers of lines rise\n";

pub const AN_IMAGE: &[u8] = b"an image is taken, as `snaplab assemble` writes it\n";

pub const LISTING_AND_SCHEDULE: &[u8] = b"2 parts are taken: a listing and a schedule\n";

pub const LISTING_AND_COMMANDS: &[u8] = b"3 parts are taken: a listing, a schedule and commands\n";

pub const LISTING_AND_SCHEDULES: &[u8] = b"2 to 4097 parts are taken: a listing and schedules\n";

pub const LISTING_AND_SCRIPTS: &[u8] = b"2 parts are taken: a listing and scripts\n";

pub const SCHEDULE_ALONE: &[u8] = b"1 part is taken: a schedule; the listing is shipped\n";

pub const COMMANDS_ALONE: &[u8] =
    b"2 parts are taken: a schedule and commands; the listing is shipped\n";

pub const SCHEDULES_ALONE: &[u8] =
    b"1 to 4096 parts are taken, which are schedules; the listing is shipped\n";

pub const SCRIPTS_ALONE: &[u8] = b"1 part is taken: scripts; the listing is shipped\n";

pub const WHOLE_INPUT: &[u8] = b"the whole input is taken\n";

pub const NO_SEPARATOR: &[u8] = b"no line of the input is `%` alone\n";

pub const SEPARATORS: &[u8] = b"the lines `%` of the input, the first eight:";

pub const NEAR: &[u8] =
    b" of the input begins with `%` and has more: `%` parts an input where it is alone in its \
    line\n";

pub const ALONE: &[u8] =
    b"check, lint and assemble take a listing alone; run, trace, debug, audit, certify, judge, batch \
    and survey take a schedule behind it, and live and promela scripts, after a line `%`\n";

pub const SWAPPED: &[u8] =
    b"the parts are swapped: the listing comes first, and the schedule behind it\n";

pub const FILES_SWAPPED: &[u8] =
    b"the files are swapped: the listing is named first, and the schedule behind it\n";

pub const SHIPPED: &[u8] =
    b"this is the front of a schedule: with `--shipped KIND` the input has no listing\n";

pub const NO_LISTING: &[u8] =
    b"this is the front of a listing: with `--shipped KIND` the input has none\n";

// What is said of a live run.
pub const SCRIPT_OF: &[u8] = b"the script of process ";

pub const NOT_DONE: &[u8] =
    b" was not done within its turns: a larger `--limit` gives each process more of them; \
    an operation that does not end needs more than any limit\n";

// What is said where there is no model.
pub const LARGE_MODEL: &[u8] =
    b"a model has at most 8 processes and 8 words, and 32 operations of each process\n";

pub const MODEL_NUMBERS: &[u8] =
    b"the numbers of a model are those below 2147483648, and those from 18446744071562067968 on; \
    values only have to differ from each other, so small ones are enough\n";

// What is said of a history.
pub const LONG_HISTORY: &[u8] = b"a history has at most 16777216 bytes\n";

pub const EVENT_FORMS: &[u8] =
    b"an event is `I scan`, `I update K X`, `I answer V1 .. Vw`, `I done` or `I crash`, of \
    process I; `event T` may stand before it\n";

pub const NOT_RISING: &[u8] =
    b"the numbers of events rise: `event T` has a T above that of the event before, or is left \
    out for the next number\n";

pub const NO_WORD: &[u8] = b"the shape has no such word: `shape N W` has words 1 to W\n";

pub const BUSY: &[u8] =
    b"this process has called before, and that has not ended: `I answer V1 .. Vw` ends a scan, \
    and `I done` an update\n";

pub const CRASHED: &[u8] =
    b"this process has crashed, and a crash is the last event of a process: a thread that starts \
    anew is another process\n";

pub const NOT_CALLED: &[u8] =
    b"this process has called nothing that ends so: `I answer V1 .. Vw` ends a `I scan`, and \
    `I done` a `I update K X`\n";

pub const BAD_VIEW: &[u8] = b"an answer has a value for each word: `shape N W` has W words\n";
