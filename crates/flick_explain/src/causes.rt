//! What each word of a refusal of a file means: what is there, one sentence of cause, and one of repair.

/// What is said of a word.
#[derive(Clone, Copy)]
pub struct Cause {
    /// What is there, before the token that it is said of.
    pub what: &'static str,
    /// Why it is refused.
    pub why: &'static str,
    /// What may help.
    pub repair: &'static str,
    /// Whether it is said of names and numbers alone, and not of words of the language.
    pub of_names: bool,
}

impl Cause {
    /// What is said of an answer that tells itself what is there.
    pub fn of(why: &'static str, repair: &'static str) -> Cause {
        Cause::there("", why, repair)
    }

    /// What is said of any token.
    fn there(what: &'static str, why: &'static str, repair: &'static str) -> Cause {
        Cause {
            what,
            why,
            repair,
            of_names: false,
        }
    }

    /// What is said of names and numbers alone.
    fn of_name(what: &'static str, why: &'static str, repair: &'static str) -> Cause {
        Cause {
            of_names: true,
            ..Cause::there(what, why, repair)
        }
    }
}

/// What is said of a word of `? lex`.
pub fn lex_cause(word: &[u8]) -> Option<Cause> {
    match word {
        b"BadOctet" => Some(Cause::there(
            "no token begins with this octet",
            "the language has no blank, comment, name, number or mark that begins so.",
            "leave it out; a string constant has no place in a message, and 089 is no octal number.",
        )),
        b"OpenComment" => Some(Cause::there(
            "the comment that begins here is not closed",
            "no */ comes after this /*.",
            "close the comment where it is to end.",
        )),
        b"Wide" => Some(Cause::there(
            "the number that begins here is too great",
            "numbers are at most 170141183460469231731687303715884105727.",
            "write a number that fits its type.",
        )),
        b"Directive" => Some(Cause::there(
            "a line for the C preprocessor begins here",
            "no preprocessor runs here; only the line markers that one leaves are skipped.",
            "run the preprocessor first: cpp -P FILE > WHOLE, as docs/FILES.md says.",
        )),
        _ => None,
    }
}

/// What is said of a word of `? name`.
pub fn name_cause(word: &[u8]) -> Option<Cause> {
    match word {
        b"Unknown" => Some(Cause::of_name(
            "unknown name",
            "it is not declared before this use: it comes from a C header, is declared further down, or is being declared here.",
            "put examples/prelude.x in front for C names, or move the declaration up; a type that contains itself has no form yet.",
        )),
        b"Twice" => Some(Cause::of_name(
            "declared twice, or a number that is taken:",
            "the same name or number is declared before in its scope.",
            "rename it, renumber it, or leave one of the two out, such as typedef struct s s;.",
        )),
        b"CaseClash" => Some(Cause::of_name(
            "a name that differs only in case:",
            "another name of its scope has the same letters but for their case.",
            "give one of the two another name.",
        )),
        b"NotType" => Some(Cause::of_name(
            "not a type that can be here:",
            "the name is declared, and stands for something else than the type, tag, base or exception that is wanted.",
            "name a type; no object is sent, so send a name, a number or octets in its place.",
        )),
        b"NotConst" => Some(Cause::of_name(
            "not a constant:",
            "the name is declared, and stands for something else than a number.",
            "name a constant or an enumerator, or write the number.",
        )),
        _ => number_cause(word),
    }
}

/// What is said of a word that is not about what a name stands for.
fn number_cause(word: &[u8]) -> Option<Cause> {
    match word {
        b"Range" => Some(Cause::there(
            "a number out of range:",
            "a length is at least 1, a bound fits 32 bits, and a number fits its type.",
            "write a number in the range that docs/ERRORS.md gives.",
        )),
        b"Label" => Some(Cause::of_name(
            "not a label that can be here:",
            "it is not one of the numbers of the tag, or another case has it.",
            "use each number of the tag at most once.",
        )),
        b"Limit" => Some(Cause::there(
            "one more than the limit:",
            "a unit has at most 64 interfaces of 256 operations, and an enum or union 4,096 labels.",
            "divide the file into two.",
        )),
        b"OutOfScope" => Some(Cause::there(
            "not read by Flick:",
            "the language has it, but Flick does not support it.",
            "leave out what uses it, or send octets in its place.",
        )),
        b"Oneway" => Some(Cause::there(
            "something comes out of an operation without a reply, at",
            "nothing is sent back for a oneway operation or a simpleroutine.",
            "write routine, or leave out oneway.",
        )),
        b"Port" => Some(Cause::there(
            "a port is missing, or out of its place, at",
            "the first parameter of a routine is its port, and no other is one.",
            "begin the parameters with the port to which requests are sent.",
        )),
        _ => None,
    }
}

/// What is said of a word of `? bind`.
pub fn bind_cause(word: &[u8]) -> Option<Cause> {
    match word {
        b"Many" => Some(Cause::of_name(
            "more types than the limit, with",
            "the types and operations of a file have at most 65,536 nodes.",
            "give a name to a type that is written more than once.",
        )),
        b"Deep" => Some(Cause::of_name(
            "a type of too many levels, with",
            "a type has at most 32 levels of structs, unions, pointers and arrays.",
            "nest fewer types.",
        )),
        b"Heavy" => Some(Cause::of_name(
            "a type whose least value is too large, with",
            "arrays of fixed length have at most 1,048,576 elements together.",
            "use an array up to a bound, which counts one.",
        )),
        b"Wide" => Some(Cause::of_name(
            "an operation that unfolds to too many types, with",
            "an operation has at most 65,536 nodes with its types written out, and a file 262,144.",
            "use fewer structs inside structs, or two files.",
        )),
        _ => None,
    }
}
