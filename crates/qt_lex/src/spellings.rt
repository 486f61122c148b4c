//! The tables of fixed spellings, as bytes in UTF-8.

/// The reserved words, which name nothing.
pub const RESERVED_WORDS: [&[u8]; 53] = [
    b"OPENQASM",
    b"include",
    b"qubit",
    b"qreg",
    b"bit",
    b"creg",
    b"bool",
    b"int",
    b"uint",
    b"angle",
    b"array",
    b"const",
    b"let",
    b"input",
    b"output",
    b"gate",
    b"def",
    b"return",
    b"measure",
    b"reset",
    b"barrier",
    b"if",
    b"else",
    b"while",
    b"for",
    b"in",
    b"break",
    b"continue",
    b"end",
    b"ctrl",
    b"negctrl",
    b"inv",
    b"pow",
    b"gphase",
    b"true",
    b"false",
    b"sizeof",
    b"float",
    b"complex",
    b"duration",
    b"stretch",
    b"delay",
    b"box",
    b"durationof",
    b"cal",
    b"defcal",
    b"defcalgrammar",
    b"extern",
    b"pragma",
    b"euler",
    b"switch",
    b"case",
    b"default",
];

/// The names of constants of the language: `pi`, `tau`, `π` and `τ`.
pub const CONSTANTS: [&[u8]; 4] = [b"pi", b"tau", b"\xCF\x80", b"\xCF\x84"];

/// The sign of Euler's number.
pub const EULER_SIGNS: [&[u8]; 1] = [b"\xE2\x84\x87"];

/// The symbols: brackets, punctuation and operators.
pub const SYMBOLS: [&[u8]; 45] = [
    b"(", b")", b"[", b"]", b"{", b"}", b";", b",", b":", b"@", b"->", b"=", b"==", b"!=", b"<",
    b"<=", b">", b">=", b"<<", b">>", b"+", b"-", b"*", b"/", b"%", b"**", b"++", b"&", b"&&",
    b"|", b"||", b"^", b"!", b"~", b"+=", b"-=", b"*=", b"/=", b"%=", b"**=", b"&=", b"|=", b"^=",
    b"<<=", b">>=",
];

/// The units behind a number that make a time of it.
pub const TIME_UNITS: [&[u8]; 6] = [b"dt", b"ns", b"us", b"\xC2\xB5s", b"ms", b"s"];

/// The unit behind a number that makes an imaginary number of it.
pub const IMAGINARY_UNITS: [&[u8]; 1] = [b"im"];
