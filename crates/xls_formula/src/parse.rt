//! The text of a formula.

ghost use Rattle.std.specs.Prelude.{◌≡◌, [], IfOk, IsUtf8};
ghost use Rattle.std.specs.Str.{chars};
ghost use Rattle.xls_record.specs.Reading.{Exactly, Gives};
ghost use Rattle.xls_strings.specs.Texts.{text_of};
ghost use Rattle.xls_formula.specs.Fold.{formula_text, tokens_at, walk_tokens};
ghost use Rattle.xls_formula.specs.Holding.{scope_context};
ghost use Rattle.xls_formula.specs.buffer.Put.{put};
ghost use Rattle.xls_formula.specs.buffer.Steps.{Leaves};

use crate::effect::read_effect;
use crate::functions::FunctionTable;
use crate::names::Names;
use crate::numbers::NumberStyle;
use crate::put::put;
use crate::scope::Scope;
use std::alloc::Global;
use std::marker::Model;
use std::str::from_utf8;
use xls_biff::{Biff, Part, Refs, Strings, XlsError};
use xls_operands::Operands;
use xls_ptg::{short, word_at};
use xls_text::XlsEncoding;

/// The tokens after their length in 16 bits, CellParsedFormula of [MS-XLS] 2.5.198.3; what stands after
/// them is left out. `Len` of `rgce` where fewer bytes are there. Takes no memory.
pub fn tokens_of(rgce: &[u8]) -> Result<&[u8], XlsError>
    ensures { Exactly (λ tokens. tokens.now) result (tokens_at rgce.now) }
{
    if rgce.len() < 2 {
        return Err(short(2, rgce.len(), Part::Rgce));
    }
    let size = usize::from(word_at(rgce, 0));
    if rgce.len() < 2 + size {
        return Err(short(2 + size, rgce.len(), Part::Rgce));
    }
    let (_, rest) = rgce.split_at(2);
    let (tokens, _) = rest.split_at(size);
    Ok(tokens)
}

fn put_tokens(texts: &mut Operands, scope: Scope<'_>, tokens: &[u8]) -> Result<(), XlsError>
    ensures { Leaves result texts.new (walk_tokens (scope_context scope.entry) put tokens.now 0 texts.old) }
{
    let mut rest = tokens;
    'tokens: while !rest.is_empty() {
        let (effect, more) = read_effect(rest, scope)?;
        put(texts, effect)?;
        let (_, after) = rest.split_at(1);
        let (_, next) = after.split_at(more);
        rest = next;
    }
    Ok(())
}

/// The text of a formula in place of what `out` holds, with the operands in a buffer.
fn write_formula(
    texts: &mut Operands,
    out: &mut Vec<u8>,
    rgce: &[u8],
    scope: Scope<'_>,
) -> Result<(), XlsError>
    ensures text { Gives (λ u. chars out.new.items) result (formula_text (scope_context scope.entry) rgce.now) }
    ensures utf8 { IfOk result (λ u. IsUtf8 out.new.items) }
{
    let tokens = tokens_of(rgce)?;
    texts.clear();
    put_tokens(texts, scope, tokens)?;
    texts.write_text(out)
}

fn text_in_scope(alloc: Global, rgce: &[u8], scope: Scope<'_>) -> Result<String, XlsError>
    ensures { Gives text_of result (formula_text (scope_context scope.entry) rgce.now) }
{
    let mut texts = Operands::new(alloc);
    let mut out = Vec::new(alloc);
    write_formula(&mut texts, &mut out, rgce, scope)?;
    Ok(String::from_utf8(out).unwrap())
}

/// Memory in which texts of formulas are made, one after the other. Contracts see the text that it holds.
#[derive(Drop)]
pub struct FormulaTexts {
    texts: Operands,
    text: Vec<u8>,
}

impl Model for FormulaTexts {
    ghost use Rattle.std.specs.Prelude.{List, ℕ, IsUtf8};
    ghost use Rattle.std.specs.Str.{chars};

    ghost Value = { List ℕ };

    ghost view = { λ f. chars f.text.items };

    ghost invariant = { λ f. IsUtf8 f.text.items };
}

impl FormulaTexts {
    /// No text. Takes no memory.
    pub fn new(alloc: Global) -> FormulaTexts
        ensures { result ≡ [] }
    {
        FormulaTexts {
            texts: Operands::new(alloc),
            text: Vec::new(alloc),
        }
    }

    /// Makes the text of a formula as by `parse_formula`, in place of the one before.
    pub fn read(&mut self, rgce: &[u8], scope: Scope<'_>) -> Result<(), XlsError>
        ensures { Gives (λ u. self.new) result (formula_text (scope_context scope.entry) rgce.now) }
    {
        match write_formula(&mut self.texts, &mut self.text, rgce, scope) {
            Ok(()) => Ok(()),
            Err(error) => {
                self.text.clear();
                Err(error)
            }
        }
    }

    /// The text.
    pub fn as_str(&self) -> &str
        ensures { chars result.now ≡ self.now }
    {
        from_utf8(self.text.as_slice()).unwrap()
    }
}

/// The text of a formula, [MS-XLS] CellParsedFormula 2.5.198.3: `rgce` begins with the length of the
/// tokens in 16 bits, and what stands after them is not read. Sheets are named by the references'
/// numbers, names by their index from 1, functions by their index from 0. `Len` of `rgce` at the
/// length; then the first token that fails, by its bytes (`Len`, `Unrecognized`, `Etpg`), the
/// function table (`IfTab`) or its operands (`StackLen`); then `InvalidFormula` with the count of
/// operands where not one is left. Otherwise only running out of memory refuses.
pub fn parse_formula(
    alloc: Global,
    rgce: &[u8],
    sheets: &Strings,
    names: &Names,
    refs: &Refs,
    encoding: &XlsEncoding,
    biff: Biff,
    functions: &FunctionTable,
) -> Result<String, XlsError>
    ensures exact { Gives text_of result (formula_text (record {
      sheets = sheets.now;
      names = names.now;
      refs = refs.now;
      page = encoding.now;
      biff = biff;
      functions = functions.now;
      numbers = NumberStyle.Bits;
    }) rgce.now) }
{
    let scope = Scope {
        sheets,
        names,
        refs,
        encoding: *encoding,
        biff,
        functions,
        numbers: NumberStyle::Bits,
    };
    text_in_scope(alloc, rgce, scope)
}
