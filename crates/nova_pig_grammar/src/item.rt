//! Items, columns and names.

ghost use Rattle.std.specs.Prelude.{◌≡◌, ◌<◌, length, OnOk};
ghost use Rattle.nova_pig_grammar.specs.ExpressionReading.{Answers, field_at};
ghost use Rattle.nova_pig_grammar.specs.StatementReading as spec;
ghost use Rattle.nova_pig_grammar.specs.Statement as grammar;

use crate::fault::Fault;
use crate::operators::Mark;
use crate::parser::Parser;
use nova_pig_tree::{Field, Item, Kind, Str, Symbol, Token, Word};
use sqlite_items::Items;
use std::alloc::Global;

/// The kind that an identifier names: `long` and `int` are the same.
#[tactic(auto, unfolding(crate::specs::Statement::kind_of))]
fn kind_of(name: &[u8]) -> Option<Kind>
    ensures { result ≡ grammar.kind_of name.now }
{
    if name == b"long".as_slice() {
        Some(Kind::Long)
    } else if name == b"int".as_slice() {
        Some(Kind::Long)
    } else if name == b"chararray".as_slice() {
        Some(Kind::Text)
    } else {
        None
    }
}

/// An identifier.
pub fn name_at(alloc: Global, parser: &mut Parser<'_>) -> Result<Str, Fault>
    ensures { Answers (spec.name_at parser.old) result parser.new }
{
    let Some(Token::Ident(name)) = parser.take() else {
        return Err(Fault::Syntax);
    };
    Ok(name.copy(alloc)?)
}

/// `: kind`, or nothing.
fn kind_at(parser: &mut Parser<'_>) -> Result<Option<Kind>, Fault>
    ensures { Answers (spec.kind_at parser.old) result parser.new }
{
    let Some(Token::Symbol(Symbol::Colon)) = parser.peek() else {
        return Ok(None);
    };
    parser.take();
    let Some(Token::Ident(name)) = parser.take() else {
        return Err(Fault::Syntax);
    };
    match kind_of(name.bytes()) {
        Some(kind) => Ok(Some(kind)),
        None => Err(Fault::Syntax),
    }
}

/// `AS ident` with a kind or without, or nothing.
fn label_at(alloc: Global, parser: &mut Parser<'_>) -> Result<(Option<Str>, Option<Kind>), Fault>
    ensures { Answers (spec.label_at parser.old) result parser.new }
{
    let Some(Token::Word(Word::As)) = parser.peek() else {
        return Ok((None, None));
    };
    parser.take();
    let Some(Token::Ident(name)) = parser.take() else {
        return Err(Fault::Syntax);
    };
    let name = name.copy(alloc)?;
    let kind = kind_at(parser)?;
    Ok((Some(name), kind))
}

/// What follows FLATTEN.
fn flatten_at(parser: &mut Parser<'_>) -> Result<Item, Fault>
    ensures { Answers (spec.flatten_at parser.old) result parser.new }
{
    parser.expect(Mark::Open)?;
    parser.expect(Mark::Group)?;
    parser.expect(Mark::Close)?;
    Ok(Item::Flatten)
}

/// An expression as an item.
fn value_at(alloc: Global, parser: &mut Parser<'_>) -> Result<Item, Fault>
    ensures { Answers (spec.value_at parser.old) result parser.new }
{
    let expr = parser.whole(alloc)?;
    let (name, kind) = label_at(alloc, parser)?;
    Ok(Item::Value {
        expr: expr.into_inner(),
        name,
        kind,
    })
}

/// An item of GENERATE.
fn item_at(alloc: Global, parser: &mut Parser<'_>) -> Result<Item, Fault>
    ensures { Answers (spec.item_at parser.old) result parser.new }
{
    match parser.peek() {
        Some(Token::Symbol(Symbol::Star)) => {
            parser.take();
            Ok(Item::All)
        }
        Some(Token::Word(Word::Flatten)) => {
            parser.take();
            flatten_at(parser)
        }
        _ => value_at(alloc, parser),
    }
}

/// Items with commas between.
pub fn items_at(alloc: Global, parser: &mut Parser<'_>) -> Result<Items<Item>, Fault>
    ensures { Answers (spec.listed spec.item_at parser.old) result parser.new }
{
    let mut out = Items::new(alloc);
    out.push(item_at(alloc, parser)?)?;
    while parser.eat(Mark::Comma) {
        out.push(item_at(alloc, parser)?)?;
    }
    Ok(out)
}

/// Fields with commas between.
fn fields_at(alloc: Global, parser: &mut Parser<'_>) -> Result<Items<Field>, Fault>
    ensures { Answers (spec.listed field_at parser.old) result parser.new }
{
    let mut out = Items::new(alloc);
    out.push(parser.field(alloc)?)?;
    while parser.eat(Mark::Comma) {
        out.push(parser.field(alloc)?)?;
    }
    Ok(out)
}

/// The columns of a BY: a field, or several in parentheses.
pub fn columns_at(alloc: Global, parser: &mut Parser<'_>) -> Result<Items<Field>, Fault>
    ensures { Answers (spec.columns_at parser.old) result parser.new }
{
    let Some(Token::Symbol(Symbol::Open)) = parser.peek() else {
        let mut out = Items::new(alloc);
        out.push(parser.field(alloc)?)?;
        return Ok(out);
    };
    parser.take();
    let fields = fields_at(alloc, parser)?;
    parser.expect(Mark::Close)?;
    Ok(fields)
}

/// Identifiers with commas between.
pub fn names_at(alloc: Global, parser: &mut Parser<'_>) -> Result<Items<Str>, Fault>
    ensures { Answers (spec.listed spec.name_at parser.old) result parser.new }
{
    let mut out = Items::new(alloc);
    out.push(name_at(alloc, parser)?)?;
    while parser.eat(Mark::Comma) {
        out.push(name_at(alloc, parser)?)?;
    }
    Ok(out)
}
