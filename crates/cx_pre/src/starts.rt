//! The macros that are defined before a unit's text (C11 6.10.8), and those of a configuration.
ghost use Rattle.std.specs.Prelude.{◌≡◌, ◌<◌, ◌∷◌, ◌++◌, ◌==◌, [], if◌then◌else◌, IfOk, OnErr, OnOk, codes, length};
ghost use Rattle.cx_lex.specs.Lines.{place_limit};
ghost use Rattle.cx_macro.specs.Macros.{IsDefinition};
ghost use Rattle.cx_macro.specs.Made.{definition_by};
ghost use Rattle.cx_table.specs.NameTable.{with_entry};
ghost use Rattle.cx_directive.specs.Defines.{object_like};
ghost use Rattle.cx_directive.specs.Operands.{tokens_of};
ghost use Rattle.cx_pre.specs.Starts.{AreDefined, HasTokens, IsStart, begins_with_lf, escaped, file_macro, file_name, is_kept, one_line, one_token, standard_macros, with_definition, with_names, without_definition};
ghost use Rattle.cx_pre.specs.Shapes.Starting.{AreFront, AreOfLine, IsMade};

use crate::config::Config;
use cx_base::{Define, List, NoMemory, Place, SharedList, Text};
use cx_directive::token_copies;
use cx_lex::{LexFault, Piece, lex};
use cx_macro::{Macro, Macros};
use cx_table::NameKey;
use cx_tokens::{Kind, Token, TokenList};
use std::alloc::Global;

/// Which is replaced by a string literal of the path of the file that it stands in.
const FILE_NAME: &[u8] = b"__FILE__";

/// Which is replaced by the number of the line that it stands on.
const LINE_NAME: &[u8] = b"__LINE__";

/// A text that is lexed has fewer bytes.
const PLACE_LIMIT: usize = 4_294_967_295;

/// Whether no text defines or undefines a name (C11 6.10.8.1).
pub(crate) fn is_kept(name: &[u8]) -> bool
    ensures { result ≡ is_kept name.now }
{
    name == FILE_NAME || name == LINE_NAME
}

/// Defines a name, unless it is kept. A refused call changes nothing.
pub(crate) fn define(macros: &mut Macros, name: Text, made: Macro) -> Result<(), NoMemory>
    requires { IsDefinition (definition_by made) }
    ensures ok { OnOk result (macros.new ≡ with_definition name (definition_by made) macros.old) }
    ensures err { OnErr result (macros.new ≡ macros.old) }
{
    if is_kept(name.as_slice()) {
        return Ok(());
    }
    macros.define(name, made)
}

/// Takes the definition of a name away, unless the name is kept.
pub(crate) fn undefine(macros: &mut Macros, name: &[u8])
    ensures { macros.new ≡ without_definition name.now macros.old }
{
    if !is_kept(name) {
        macros.undef(name);
    }
}

/// Makes the macros those in the file with a path.
pub(crate) fn enter_file(alloc: Global, macros: &mut Macros, path: &str) -> Result<(), NoMemory>
    ensures { OnOk result (macros.new ≡ with_entry file_name (file_macro path.now) macros.old) }
{
    let made = file_macro(alloc, path)?;
    put(alloc, macros, FILE_NAME, made)
}

/// Defines a name, also one that is kept.
fn put(alloc: Global, macros: &mut Macros, name: &[u8], made: Macro) -> Result<(), NoMemory>
    requires { IsDefinition (definition_by made) }
    ensures { OnOk result (macros.new ≡ with_entry name.now (definition_by made) macros.old) }
{
    macros.define(Text::from_slice(alloc, name)?, made)
}

/// What `__FILE__` is in the file with a path.
#[tactic(auto, unfolding(crate::specs::Starts::file_macro))]
fn file_macro(alloc: Global, path: &str) -> Result<Macro, NoMemory>
    ensures definition { IfOk result (λ m. definition_by m ≡ file_macro path.now) }
    ensures fits { IfOk result (λ m. IsDefinition (definition_by m)) }
{
    let mut text = Text::from_slice(alloc, b"\"")?;
    push_escaped(&mut text, path.as_bytes())?;
    text.push_all(b"\"")?;
    one_token(alloc, Kind::String, text)
}

/// Adds a path, with a `\` before each `"` and each `\`.
fn push_escaped(text: &mut Text, path: &[u8]) -> Result<(), NoMemory>
    ensures { OnOk result (text.new ≡ text.old ++ escaped path.now) }
{
    for byte in path {
        push_escaped_byte(text, *byte)?;
    }
    Ok(())
}

/// Adds a byte, with a `\` before a `"` and a `\`.
fn push_escaped_byte(text: &mut Text, byte: u8) -> Result<(), NoMemory>
    ensures { OnOk result (text.new ≡ text.old ++ escaped (byte ∷ [])) }
{
    if byte == b'"' || byte == b'\\' {
        text.push_all(&[b'\\', byte])
    } else {
        text.push_all(&[byte])
    }
}

/// A macro that one token replaces.
fn one_token(alloc: Global, kind: Kind, text: Text) -> Result<Macro, NoMemory>
    ensures definition { IfOk result (λ m. definition_by m ≡ one_token kind text) }
    ensures fits { IfOk result (λ m. IsDefinition (definition_by m)) }
{
    let token = Token {
        kind,
        text,
        place: Place {
            file: 0,
            line: 0,
            column: 0,
        },
        hide: SharedList::new(),
        space: false,
        parts: SharedList::new(),
        digraph: false,
    };
    let mut body = Vec::new(alloc);
    body.push(token)?;
    object_like(alloc, body)
}

/// A macro without parameters.
#[tactic(auto, using(crate::proofs::StartLaws::object_fits))]
fn object_like(alloc: Global, body: Vec<Token>) -> Result<Macro, NoMemory>
    ensures definition { IfOk result (λ m. definition_by m ≡ object_like body.items) }
    ensures fits { IfOk result (λ m. IsDefinition (definition_by m)) }
{
    let body = TokenList::from_vec(alloc, body)?;
    Ok(Macro {
        parameters: None,
        variadic: false,
        body,
    })
}

/// The macros before a unit's text in a configuration.
pub(crate) fn start(alloc: Global, key: NameKey, config: &Config) -> Result<Macros, NoMemory>
    ensures { IfOk result (λ m. IsStart config.now m) }
{
    let mut macros = standard_macros(alloc, key)?;
    define_all(alloc, &mut macros, config.defines.as_slice())?;
    define_names(alloc, &mut macros, config.names.as_slice())?;
    Ok(macros)
}

/// The macros before every other.
fn standard_macros(alloc: Global, key: NameKey) -> Result<Macros, NoMemory>
    ensures { IfOk result (λ m. m ≡ standard_macros) }
{
    let mut macros = Macros::new(alloc, key);
    let line = object_like(alloc, Vec::new(alloc))?;
    put(alloc, &mut macros, LINE_NAME, line)?;
    let standard = number(alloc, b"1")?;
    put(alloc, &mut macros, b"__STDC__", standard)?;
    let version = number(alloc, b"201112L")?;
    put(alloc, &mut macros, b"__STDC_VERSION__", version)?;
    Ok(macros)
}

/// A macro that is a number.
fn number(alloc: Global, digits: &[u8]) -> Result<Macro, NoMemory>
    ensures definition { IfOk result (λ m. definition_by m ≡ one_token Kind.Number digits.now) }
    ensures fits { IfOk result (λ m. IsDefinition (definition_by m)) }
{
    let text = Text::from_slice(alloc, digits)?;
    one_token(alloc, Kind::Number, text)
}

/// Defines names as 1.
fn define_names(alloc: Global, macros: &mut Macros, names: &[Text]) -> Result<(), NoMemory>
    ensures { OnOk result (macros.new ≡ with_names names.now macros.old) }
{
    for name in names {
        define_name(alloc, macros, name)?;
    }
    Ok(())
}

/// Defines a name as 1, unless it is kept.
fn define_name(alloc: Global, macros: &mut Macros, name: &Text) -> Result<(), NoMemory>
    ensures { OnOk result
        (macros.new ≡ with_definition name.now (one_token Kind.Number (codes "1")) macros.old) }
{
    let one = number(alloc, b"1")?;
    define(macros, name.copy()?, one)
}

/// Makes the definitions of a configuration.
fn define_all(alloc: Global, macros: &mut Macros, defines: &[Define]) -> Result<(), NoMemory>
    ensures { OnOk result (AreDefined macros.old defines.now macros.new) }
{
    for made in defines {
        define_one(alloc, macros, made)?;
    }
    Ok(())
}

/// Makes one of these.
#[tactic(auto, using(crate::proofs::StartLaws::one_made))]
fn define_one(alloc: Global, macros: &mut Macros, made: &Define) -> Result<(), NoMemory>
    ensures { OnOk result (IsMade macros.old made.now macros.new) }
{
    let body = tokens_of_text(alloc, made.value.as_slice())?;
    let replaced = object_like(alloc, body)?;
    define(macros, made.name.copy()?, replaced)
}

/// The tokens of a text that is one line, up to a comment with no end, and up to the greatest
/// number of pieces.
fn tokens_of_text(alloc: Global, text: &[u8]) -> Result<Vec<Token>, NoMemory>
    ensures { IfOk result (λ ts. HasTokens text.now ts.items) }
{
    let line = one_line(alloc, text)?;
    if line.len() >= PLACE_LIMIT {
        return Err(NoMemory);
    }
    let pieces = pieces_of_line(alloc, line.as_slice())?;
    token_copies(alloc, pieces.as_slice())
}

/// A text with a space in the place of each newline.
fn one_line(alloc: Global, text: &[u8]) -> Result<Text, NoMemory>
    ensures { IfOk result (λ line. line ≡ one_line text.now) }
{
    let mut line = Text::new(alloc);
    let mut rest = text;
    while let Some((byte, more)) = rest.split_first() {
        push_in_line(&mut line, *byte, more)?;
        rest = more;
    }
    Ok(line)
}

/// Adds a byte to a text that is to be one line, where these stand behind it.
#[tactic(auto, using(crate::proofs::StartLaws::line_skips, crate::proofs::StartLaws::line_goes_on))]
fn push_in_line(line: &mut Text, byte: u8, more: &[u8]) -> Result<(), NoMemory>
    ensures { OnOk result (line.new ++ one_line more.now ≡ line.old ++ one_line (byte ∷ more.now)) }
{
    if byte == b'\r' && begins_with_lf(more) {
        return Ok(());
    }
    line.push(in_line(byte))
}

/// Whether a line feed stands in front.
fn begins_with_lf(bytes: &[u8]) -> bool
    ensures { result ≡ begins_with_lf bytes.now }
{
    match bytes {
        [] => false,
        [byte, ..] => *byte == b'\n',
    }
}

/// A byte of one line, where a line feed is a space.
fn in_line(byte: u8) -> u8
    ensures { result ≡ (if byte == 10 then 32 else byte) }
{
    if byte == b'\n' { b' ' } else { byte }
}

/// The pieces of a line, up to a comment with no end, and up to the greatest number of pieces.
fn pieces_of_line(alloc: Global, line: &[u8]) -> Result<List<Piece>, NoMemory>
    requires { length line.now < place_limit }
    ensures { IfOk result (λ pieces. AreOfLine line.now pieces) }
{
    match lex(alloc, line, 0) {
        Ok(lexed) => Ok(lexed.pieces),
        Err(LexFault::UnclosedComment { at }) => front_pieces(alloc, line, at),
        Err(LexFault::TooLong { at }) => front_pieces(alloc, line, at),
        Err(LexFault::NoMemory) => Err(NoMemory),
    }
}

/// The pieces of a line before the place of its fault. These have no fault, so that only memory can
/// be wanting.
fn front_pieces(alloc: Global, line: &[u8], at: Place) -> Result<List<Piece>, NoMemory>
    requires { length line.now < place_limit }
    ensures { IfOk result (λ pieces. AreFront line.now at pieces) }
{
    let end = (at.column as usize).saturating_sub(1).min(line.len());
    match lex(alloc, &line[..end], 0) {
        Ok(lexed) => Ok(lexed.pieces),
        Err(_) => Err(NoMemory),
    }
}
