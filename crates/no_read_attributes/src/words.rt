ghost use Rattle.std.specs.Prelude.{◌≡◌, bytes_eq, map};
ghost use Rattle.no_read_attributes.specs.Words.{is_int_word, is_one, listed_ints, is_type_word, constant_words, is_number_word, instruction_words, top_words, left_out_words, is_left_out_word, is_record, is_node, left_out_by, is_left_out, is_attribute_word};

use no_lex::{Token, TokenKind, is_digits};
use no_read_rules::spelled;
use no_words::{binary_named, cast_named};

fn same(word: &[u8], other: &[u8]) -> bool
    ensures { result ≡ bytes_eq word.now other.now }
{
    word == other
}

/// Whether a word is an `i` with digits.
fn is_int_word(word: &[u8]) -> bool
    ensures { result ≡ is_int_word word.now }
{
    match word {
        [b'i', digits @ ..] => is_digits(digits),
        _ => false,
    }
}

/// The widths of integers that the profile has.
const LISTED_INTS: [&[u8]; 5] = [b"i1", b"i8", b"i16", b"i32", b"i64"];

/// Constants by a word (LLVM Language Reference, "Constants").
const CONSTANT_WORDS: [&[u8]; 6] = [
    b"true",
    b"false",
    b"null",
    b"undef",
    b"poison",
    b"zeroinitializer",
];

/// Instructions that begin no constant expression ("Instruction Reference").
const INSTRUCTION_WORDS: [&[u8]; 15] = [
    b"freeze",
    b"select",
    b"phi",
    b"alloca",
    b"load",
    b"store",
    b"getelementptr",
    b"call",
    b"tail",
    b"musttail",
    b"notail",
    b"br",
    b"switch",
    b"ret",
    b"unreachable",
];

/// Top forms ("Module Structure").
const TOP_WORDS: [&[u8]; 5] = [
    b"source_filename",
    b"target",
    b"define",
    b"declare",
    b"attributes",
];

/// Words that the profile leaves out: types; operations on floating-point numbers; access to parts of aggregates and vectors, and
/// atomic access; exceptions, variable arguments, indirect branches, assembler and address spaces; and what stands at globals,
/// functions, modules and parameters.
const LEFT_OUT_WORDS: [&[u8]; 51] = [
    b"half",
    b"bfloat",
    b"float",
    b"double",
    b"fp128",
    b"x86_fp80",
    b"ppc_fp128",
    b"token",
    b"metadata",
    b"opaque",
    b"fneg",
    b"fadd",
    b"fsub",
    b"fmul",
    b"fdiv",
    b"frem",
    b"fcmp",
    b"extractvalue",
    b"insertvalue",
    b"extractelement",
    b"insertelement",
    b"shufflevector",
    b"atomicrmw",
    b"cmpxchg",
    b"fence",
    b"atomic",
    b"invoke",
    b"callbr",
    b"resume",
    b"landingpad",
    b"catchpad",
    b"cleanuppad",
    b"catchswitch",
    b"va_arg",
    b"indirectbr",
    b"asm",
    b"addrspace",
    b"addrspacecast",
    b"thread_local",
    b"external",
    b"extern_weak",
    b"alias",
    b"ifunc",
    b"comdat",
    b"personality",
    b"module",
    b"byval",
    b"inalloca",
    b"preallocated",
    b"swifterror",
    b"nest",
];

/// Whether a word is one of these.
pub fn is_one(words: &[&[u8]], word: &[u8]) -> bool
    ensures { result ≡ is_one (map (λ w. w.now) words.now) word.now }
{
    for other in words {
        if same(word, other) {
            return true;
        }
    }
    false
}

fn is_listed_int(word: &[u8]) -> bool
    ensures { result ≡ is_one listed_ints word.now }
{
    is_one(&LISTED_INTS, word)
}

fn is_constant_word(word: &[u8]) -> bool
    ensures { result ≡ is_one constant_words word.now }
{
    is_one(&CONSTANT_WORDS, word)
}

fn is_instruction_word(word: &[u8]) -> bool
    ensures { result ≡ is_one instruction_words word.now }
{
    is_one(&INSTRUCTION_WORDS, word)
}

fn is_top_word(word: &[u8]) -> bool
    ensures { result ≡ is_one top_words word.now }
{
    is_one(&TOP_WORDS, word)
}

fn is_left_out_name(word: &[u8]) -> bool
    ensures { result ≡ is_one left_out_words word.now }
{
    is_one(&LEFT_OUT_WORDS, word)
}

fn is_number_word(word: &[u8]) -> bool
    ensures { result ≡ is_number_word word.now }
{
    binary_named(word).is_some() || cast_named(word).is_some() || same(word, b"icmp")
}

fn is_type_word(word: &[u8]) -> bool
    ensures { result ≡ is_type_word word.now }
{
    is_int_word(word) || same(word, b"void") || same(word, b"ptr") || same(word, b"label")
}

fn is_left_out_word(word: &[u8]) -> bool
    ensures { result ≡ is_left_out_word word.now }
{
    is_left_out_name(word) || is_int_word(word) && !is_listed_int(word)
}

/// Whether the name of a group is that of a debug record.
#[tactic(auto, using(crate::proofs::Fronts::in_front))]
pub fn is_record(spelling: &[u8]) -> bool
    ensures { result ≡ is_record spelling.now }
{
    let size = 5usize;
    let (front, _) = spelling.split_at(size.min(spelling.len()));
    same(front, b"#dbg_")
}

/// Whether the name of metadata is that of a debug node.
#[tactic(auto, using(crate::proofs::Fronts::in_front))]
pub fn is_node(spelling: &[u8]) -> bool
    ensures { result ≡ is_node spelling.now }
{
    let size = 3usize;
    let (front, _) = spelling.split_at(size.min(spelling.len()));
    same(front, b"!DI")
}

/// Whether a token is one that the profile leaves out, wherever no form allows it.
pub fn is_left_out(text: &[u8], token: &Token) -> bool
    ensures { result ≡ is_left_out text.now token.now }
{
    let spelling = spelled(text, token);
    match token.kind {
        TokenKind::Word => is_left_out_word(spelling),
        TokenKind::Sign => same(spelling, b"..."),
        TokenKind::Meta => is_node(spelling),
        TokenKind::Group => is_record(spelling),
        _ => false,
    }
}

/// Whether a word may be an attribute: it is none of the words with a meaning of their own.
pub fn is_attribute_word(word: &[u8]) -> bool
    ensures { result ≡ is_attribute_word word.now }
{
    !(is_type_word(word)
        || is_number_word(word)
        || is_constant_word(word)
        || is_instruction_word(word)
        || is_top_word(word)
        || is_left_out_name(word))
}
