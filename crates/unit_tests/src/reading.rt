ghost use Rattle.std.specs.Prelude.{◌≡◌, ◌+◌, ◌<◌, length, OnOk};

use smt_meaning::{FaultKind, SExpr, TokenView, Word};
use smt_reader::{Next, Reader, reads_in_one_way};
use std::alloc::{AllocError, Global};
use std::process::Abort;
use std::test::Fail;

type Fault = Option<(FaultKind, u64)>;

fn spelling(word: Word) -> &'static [u8] {
    match word {
        Word::Exclamation => b"!",
        Word::Underscore => b"_",
        Word::As => b"as",
        Word::Let => b"let",
        Word::Exists => b"exists",
        Word::Forall => b"forall",
        Word::Match => b"match",
        Word::Par => b"par",
    }
}

// A token's kind by a letter, its bytes, and a comma. Parentheses stand as they are.
fn write_token(token: TokenView<'_>, text: &mut Vec<u8>) -> Result<(), AllocError> {
    let (kind, bytes) = match token {
        TokenView::Enter => return Ok(text.push(b'(')?),
        TokenView::Leave => return Ok(text.push(b')')?),
        TokenView::Numeral(digits) => (b'N', digits),
        TokenView::Decimal(digits) => (b'P', digits),
        TokenView::Hex(digits) => (b'X', digits),
        TokenView::Binary(digits) => (b'B', digits),
        TokenView::Text(bytes) => (b'T', bytes),
        TokenView::Symbol(name) => (b'S', name),
        TokenView::Reserved(word) => (b'R', spelling(word)),
        TokenView::Keyword(name) => (b'K', name),
    };
    text.push(kind)?;
    text.extend_from_slice(bytes)?;
    text.push(b',')?;
    Ok(())
}

fn write(sexpr: &SExpr, text: &mut Vec<u8>) -> Result<(), AllocError> {
    for place in 0..sexpr.len() {
        write_token(sexpr.token(place), text)?;
    }
    Ok(())
}

// What can be read now: a blank behind each s-expression, and a `.` for the end.
fn read_on(alloc: Global, reader: &mut Reader, text: &mut Vec<u8>) -> Result<Fault, AllocError>
    ensures finished { OnOk result (reader.new.finished ≡ reader.old.finished) }
    ensures fed { OnOk result (reader.new.place + length reader.new.bytes ≡ reader.old.place + length reader.old.bytes) }
{
    for _ in 0..1000 {
        match reader.next(alloc)? {
            Next::Ready(sexpr) => {
                write(&sexpr.copy(alloc)?, text)?;
                text.push(b' ')?;
            }
            Next::NeedMore => return Ok(None),
            Next::End => {
                text.push(b'.')?;
                return Ok(None);
            }
            Next::Fault(kind, at) => return Ok(Some((kind, at))),
        }
    }
    Ok(None)
}

// What can be read of a script that is fed in pieces of so many bytes, and that may go on or not. A `!` says that a fault isn't found again.
fn read(
    alloc: Global,
    script: &[u8],
    step: usize,
    finished: bool,
) -> Result<(Vec<u8>, Fault), AllocError>
    requires { 0 < step }
{
    let mut reader = Reader::new(alloc);
    let mut text = Vec::new(alloc);
    let mut fed = 0;
    while fed < script.len() {
        let next = fed + step.min(script.len() - fed);
        reader.feed(&script[fed..next])?;
        if let Some(fault) = read_on(alloc, &mut reader, &mut text)? {
            let again = read_on(alloc, &mut reader, &mut text)?;
            if again != Some(fault) {
                text.push(b'!')?;
            }
            return Ok((text, Some(fault)));
        }
        fed = next;
    }
    if finished {
        reader.finish();
    }
    let fault = read_on(alloc, &mut reader, &mut text)?;
    Ok((text, fault))
}

static SCRIPTS: [(&'static [u8], &'static [u8], Fault); 45] = [
    (b"", b".", None),
    (b" \t\r\n", b".", None),
    (b"0 5 1234567890", b"N0, N5, N1234567890, .", None),
    (b"0.0 1.50 120.007", b"P0.0, P1.50, P120.007, .", None),
    (b"#x0 #xaAfF09", b"X#x0, X#xaAfF09, .", None),
    (b"#b0 #b0101", b"B#b0, B#b0101, .", None),
    (b"\"\" \"a b\"", b"T, Ta b, .", None),
    (b"\"\"\"\" \"a\"\"b\"", b"T\", Ta\"b, .", None),
    (b"\"(;|\\\n\" \"\xc3\xa9\"", b"T(;|\\\n, T\xc3\xa9, .", None),
    (
        b"Zz09 ~!@$%^&*_-+=<>.?/",
        b"SZz09, S~!@$%^&*_-+=<>.?/, .",
        None,
    ),
    (b"|a b| || |\"(;\n|", b"Sa b, S, S\"(;\n, .", None),
    (b"let |let|", b"Rlet, Slet, .", None),
    (
        b"! _ as exists forall match par",
        b"R!, R_, Ras, Rexists, Rforall, Rmatch, Rpar, .",
        None,
    ),
    (
        b"BINARY DECIMAL HEXADECIMAL NUMERAL STRING",
        b"SBINARY, SDECIMAL, SHEXADECIMAL, SNUMERAL, SSTRING, .",
        None,
    ),
    (
        b"assert check-sat declare-fun set-option exit",
        b"Sassert, Scheck-sat, Sdeclare-fun, Sset-option, Sexit, .",
        None,
    ),
    (b"lets Let", b"Slets, SLet, .", None),
    (
        b":a :print-success :let :4x",
        b"Ka, Kprint-success, Klet, K4x, .",
        None,
    ),
    (b"()", b"() .", None),
    (b"(a (b c) d)e", b"(Sa,(Sb,Sc,)Sd,) Se, .", None),
    (b"(a\"b\"|c|1(#b1):d)", b"(Sa,Tb,Sc,N1,(B#b1,)Kd,) .", None),
    (b"a;b)\nc;d(\re", b"Sa, Sc, Se, .", None),
    (b"(a ;b)\n ;\r)", b"(Sa,) .", None),
    (b"a ;b", b"Sa, .", None),
    (b";\"", b".", None),
    (b")", b"", Some((FaultKind::Closing, 0))),
    (b"(a))", b"(Sa,) ", Some((FaultKind::Closing, 3))),
    (b"a ;)\n)", b"Sa, ", Some((FaultKind::Closing, 5))),
    (b"; a\n;b\r ;c\n )", b"", Some((FaultKind::Closing, 12))),
    (
        b";a\n b ;c\n \"",
        b"Sb, ",
        Some((FaultKind::Unfinished, 10)),
    ),
    (b"(a", b"", Some((FaultKind::Unfinished, 0))),
    (b" (a) (b (c)", b"(Sa,) ", Some((FaultKind::Unfinished, 5))),
    (b"a (b ;c)", b"Sa, ", Some((FaultKind::Unfinished, 2))),
    (b" \"a", b"", Some((FaultKind::Unfinished, 1))),
    (b"\"a\"\"", b"", Some((FaultKind::Unfinished, 0))),
    (b" |a", b"", Some((FaultKind::Unfinished, 1))),
    (b" (a |b", b"", Some((FaultKind::Unfinished, 1))),
    (b"(\"a\"", b"", Some((FaultKind::Unfinished, 0))),
    (b"a\x01", b"Sa, ", Some((FaultKind::Character, 1))),
    (b"(a \xff)", b"", Some((FaultKind::Character, 3))),
    (b"\"a\x7f\"", b"", Some((FaultKind::Character, 2))),
    (b"(|a\\|)", b"", Some((FaultKind::Character, 3))),
    (b"\\", b"", Some((FaultKind::Character, 0))),
    (b"a 1. b", b"Sa, ", Some((FaultKind::Character, 2))),
    (b"() (a (b 0x1)", b"() ", Some((FaultKind::Character, 9))),
    (
        b"(a) (a) (b ) )",
        b"(Sa,) (Sa,) (Sb,) ",
        Some((FaultKind::Closing, 13)),
    ),
];

// Compares what is read of a script in pieces of so many bytes.
fn reads(
    rt: &impl Abort,
    alloc: Global,
    script: &[u8],
    step: usize,
    finished: bool,
    want: &[u8],
    fault: Fault,
) -> Result<(), AllocError>
    requires { 0 < step }
{
    let (text, got) = read(alloc, script, step, finished)?;
    assert_eq!(rt; text.as_slice(), want, "in pieces of {step}");
    assert!(rt; got == fault, "in pieces of {step}");
    Ok(())
}

// The lexicon of SMT-LIB 2.6, section 3.1, and the faults.
#[test]
fn reads_however_cut(rt: HostRuntime) -> Result<(), Fail> {
    reads_in_one_way();
    for row in SCRIPTS.iter() {
        let (script, want, fault) = *row;
        for step in [1, 2, 100] {
            reads(&rt, rt.alloc(), script, step, true, want, fault)?;
        }
    }
    Ok(())
}

static FAULTY: [&'static [u8]; 18] = [
    b"00", b"01", b"1a", b"1.", b"1.a", b"1.5.", b"0x1", b"#", b"#a", b"#x", b"#xg", b"#b", b"#b2",
    b":", b"::", b"a:b", b"a#b", b"1#",
];

// A word that is no token is a fault at its first byte.
#[test]
fn words_of_no_form(rt: HostRuntime) -> Result<(), Fail> {
    let fault = Some((FaultKind::Character, 0));
    for word in FAULTY.iter() {
        for step in [1, 2, 100] {
            reads(&rt, rt.alloc(), word, step, true, b"", fault)?;
        }
    }
    Ok(())
}

// What a byte is between blanks: the letter of the token that it is alone, or a fault, or neither.
fn alone(byte: u8) -> (Option<u8>, Fault) {
    match byte {
        9 | 10 | 13 | 32 | b';' => (None, None),
        b'(' | b'"' | b'|' => (None, Some((FaultKind::Unfinished, 1))),
        b')' => (None, Some((FaultKind::Closing, 1))),
        b'0'..=b'9' => (Some(b'N'), None),
        b'A'..=b'Z' | b'a'..=b'z' => (Some(b'S'), None),
        b'!' | b'_' => (Some(b'R'), None),
        _ if b"~@$%^&*-+=<>.?/".contains(&byte) => (Some(b'S'), None),
        _ => (None, Some((FaultKind::Character, 1))),
    }
}

// What is read of a byte between blanks.
fn text_alone(alloc: Global, byte: u8) -> Result<Vec<u8>, AllocError> {
    let (kind, fault) = alone(byte);
    let mut want = Vec::new(alloc);
    if let Some(kind) = kind {
        want.extend_from_slice(&[kind, byte, b',', b' '])?;
    }
    if fault.is_none() {
        want.push(b'.')?;
    }
    Ok(want)
}

#[test]
fn every_byte_alone(rt: HostRuntime) -> Result<(), Fail> {
    let alloc = rt.alloc();
    for byte in 0..=255 {
        let want = text_alone(alloc, byte)?;
        let (_, fault) = alone(byte);
        reads(&rt, alloc, &[b' ', byte, b' '], 1, true, &want, fault)?;
    }
    Ok(())
}

// Whether no text in quotes, or no symbol in bars, has the byte.
fn is_refused(mark: u8, byte: u8) -> bool {
    byte == 127
        || (byte < 32 && byte != 9 && byte != 10 && byte != 13)
        || (mark == b'|' && byte == b'\\')
}

// Compares what is read of a byte between two marks, or of three marks.
fn is_quoted(
    rt: &impl Abort,
    alloc: Global,
    mark: u8,
    byte: u8,
    kind: u8,
    three: (&[u8], u64),
) -> Result<(), AllocError> {
    let script = [mark, byte, mark];
    if byte == mark {
        let fault = Some((FaultKind::Unfinished, three.1));
        reads(rt, alloc, &script, 1, true, three.0, fault)
    } else if is_refused(mark, byte) {
        let fault = Some((FaultKind::Character, 1));
        reads(rt, alloc, &script, 1, true, b"", fault)
    } else {
        let want = [kind, byte, b',', b' ', b'.'];
        reads(rt, alloc, &script, 1, true, &want, None)
    }
}

#[test]
fn every_byte_in_quotes(rt: HostRuntime) -> Result<(), Fail> {
    let alloc = rt.alloc();
    for byte in 0..=255 {
        is_quoted(&rt, alloc, b'"', byte, b'T', (b"", 0))?;
        is_quoted(&rt, alloc, b'|', byte, b'S', (b"S, ", 2))?;
    }
    Ok(())
}

static SETTLED: [(&'static [u8], &'static [u8], Fault); 24] = [
    (b"", b"", None),
    (b" ;)", b"", None),
    (b"a", b"", None),
    (b"a ", b"Sa, ", None),
    (b"a;", b"Sa, ", None),
    (b"a(", b"Sa, ", None),
    (b"1)", b"N1, ", Some((FaultKind::Closing, 1))),
    (b"1", b"", None),
    (b"1a", b"", Some((FaultKind::Character, 0))),
    (b"00", b"", Some((FaultKind::Character, 0))),
    (b"(1a", b"", Some((FaultKind::Character, 1))),
    (b"1.", b"", None),
    (b"#", b"", None),
    (b"#xg", b"", Some((FaultKind::Character, 0))),
    (b":", b"", None),
    (b": ", b"", Some((FaultKind::Character, 0))),
    (b"\"a\"", b"", None),
    (b"\"a\" ", b"Ta, ", None),
    (b"\"a\x01", b"", Some((FaultKind::Character, 2))),
    (b"|a|", b"Sa, ", None),
    (b"(a)", b"(Sa,) ", None),
    (b"((a)", b"", None),
    (b"(\"a\"", b"", None),
    (b")", b"", Some((FaultKind::Closing, 0))),
];

// What is read while more bytes may follow.
#[test]
fn answers_as_soon_as_settled(rt: HostRuntime) -> Result<(), Fail> {
    for row in SETTLED.iter() {
        let (script, want, fault) = *row;
        for step in [1, 100] {
            reads(&rt, rt.alloc(), script, step, false, want, fault)?;
        }
    }
    Ok(())
}

// So many parentheses that open, and so many that close.
fn lists(alloc: Global, opened: usize, closed: usize) -> Result<Vec<u8>, AllocError> {
    let mut script = vec![in alloc; b'('; opened]?;
    script.extend_from_slice(&vec![in alloc; b')'; closed]?)?;
    Ok(script)
}

// How many parentheses open and close, whether the script ends there, and the fault.
static NESTED: [(usize, usize, bool, Fault); 5] = [
    (10_000, 0, true, Some((FaultKind::Unfinished, 0))),
    (10_000, 0, false, None),
    (10_001, 0, false, Some((FaultKind::Nesting, 10_000))),
    (10_001, 10_001, true, Some((FaultKind::Nesting, 10_000))),
    (10_000, 9_999, true, Some((FaultKind::Unfinished, 0))),
];

// At most 10,000 lists are open at a time.
#[test]
fn nests_so_deep(rt: HostRuntime) -> Result<(), Fail> {
    let alloc = rt.alloc();
    for row in NESTED.iter() {
        let (opened, closed, finished, fault) = *row;
        let script = lists(alloc, opened, closed)?;
        reads(&rt, alloc, &script, 4096, finished, b"", fault)?;
    }
    Ok(())
}
