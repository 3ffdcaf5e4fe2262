//! Statements.

ghost use Rattle.std.specs.Prelude.{◌≡◌, ◌<◌, length, map, OnOk, IfOk, MatchResult};
ghost use Rattle.nova_pig_grammar.specs.ExpressionReading.{Answers};
ghost use Rattle.nova_pig_grammar.specs.StatementReading as spec;
ghost use Rattle.nova_pig_grammar.specs.Statement.{IsStatement, OneStatement};
ghost use Rattle.nova_pig_tree.specs.declared.statement.Body.{Body};

use crate::fault::Fault;
use crate::item::{columns_at, items_at, name_at, names_at};
use crate::operators::Mark;
use crate::parser::Parser;
use nova_pig_tree::{Body, Op, Placed, Str, Token, Word};
use std::alloc::Global;

/// A name, and this token after it.
fn name_then(alloc: Global, parser: &mut Parser<'_>, mark: Mark) -> Result<Str, Fault>
    ensures { Answers (spec.name_then mark parser.old) result parser.new }
{
    let name = name_at(alloc, parser)?;
    parser.expect(mark)?;
    Ok(name)
}

/// What follows FILTER.
fn filter_at(alloc: Global, parser: &mut Parser<'_>) -> Result<Op, Fault>
    ensures { Answers (spec.filter_at parser.old) result parser.new }
{
    let from = name_then(alloc, parser, Mark::By)?;
    let cond = parser.whole(alloc)?;
    Ok(Op::Filter {
        from,
        cond: cond.into_inner(),
    })
}

/// What follows FOREACH.
fn foreach_at(alloc: Global, parser: &mut Parser<'_>) -> Result<Op, Fault>
    ensures { Answers (spec.foreach_at parser.old) result parser.new }
{
    let from = name_then(alloc, parser, Mark::Generate)?;
    let items = items_at(alloc, parser)?;
    Ok(Op::Foreach { from, items })
}

/// What follows GROUP.
fn group_at(alloc: Global, parser: &mut Parser<'_>) -> Result<Op, Fault>
    ensures { Answers (spec.group_at parser.old) result parser.new }
{
    let from = name_then(alloc, parser, Mark::By)?;
    let by = columns_at(alloc, parser)?;
    Ok(Op::Group { from, by })
}

/// What follows JOIN.
fn join_at(alloc: Global, parser: &mut Parser<'_>) -> Result<Op, Fault>
    ensures { Answers (spec.join_at parser.old) result parser.new }
{
    let left = name_then(alloc, parser, Mark::By)?;
    let left_by = columns_at(alloc, parser)?;
    parser.expect(Mark::Comma)?;
    let right = name_then(alloc, parser, Mark::By)?;
    let right_by = columns_at(alloc, parser)?;
    Ok(Op::Join {
        left,
        left_by,
        right,
        right_by,
    })
}

/// What follows UNION: two arms at least.
fn union_at(alloc: Global, parser: &mut Parser<'_>) -> Result<Op, Fault>
    ensures { Answers (spec.union_at parser.old) result parser.new }
{
    let arms = names_at(alloc, parser)?;
    if arms.len() < 2 {
        return Err(Fault::Syntax);
    }
    Ok(Op::Union { arms })
}

/// A literal.
fn text_at(alloc: Global, parser: &mut Parser<'_>) -> Result<Str, Fault>
    ensures { Answers (spec.text_at parser.old) result parser.new }
{
    let Some(Token::Literal(text)) = parser.take() else {
        return Err(Fault::Syntax);
    };
    Ok(text.copy(alloc)?)
}

/// The operator of a definition.
fn op_at(alloc: Global, parser: &mut Parser<'_>) -> Result<Op, Fault>
    ensures { Answers (spec.op_at parser.old) result parser.new }
{
    match parser.take() {
        Some(Token::Word(Word::Load)) => Ok(Op::Load {
            channel: text_at(alloc, parser)?,
        }),
        Some(Token::Word(Word::Filter)) => filter_at(alloc, parser),
        Some(Token::Word(Word::Foreach)) => foreach_at(alloc, parser),
        Some(Token::Group(_)) => group_at(alloc, parser),
        Some(Token::Word(Word::Join)) => join_at(alloc, parser),
        Some(Token::Word(Word::Union)) => union_at(alloc, parser),
        Some(Token::Word(Word::Distinct)) => Ok(Op::Distinct {
            from: name_at(alloc, parser)?,
        }),
        _ => Err(Fault::Syntax),
    }
}

/// The `;` of a statement that is read.
fn ended(parser: &mut Parser<'_>, body: Body) -> Result<Body, Fault>
    ensures { Answers (spec.ended body parser.old) result parser.new }
{
    parser.expect(Mark::Semicolon)?;
    Ok(body)
}

/// What follows the alias of a definition.
fn define_at(alloc: Global, parser: &mut Parser<'_>, alias: Str) -> Result<Body, Fault>
    ensures { Answers (spec.define_at alias parser.old) result parser.new }
{
    parser.expect(Mark::Assign)?;
    let op = op_at(alloc, parser)?;
    ended(parser, Body::Define { alias, op })
}

/// What follows STORE.
fn store_at(alloc: Global, parser: &mut Parser<'_>) -> Result<Body, Fault>
    ensures { Answers (spec.store_at parser.old) result parser.new }
{
    let alias = name_then(alloc, parser, Mark::Into)?;
    let channel = text_at(alloc, parser)?;
    ended(parser, Body::Store { alias, channel })
}

/// A statement.
fn cut_at(alloc: Global, parser: &mut Parser<'_>) -> Result<Body, Fault>
    ensures { Answers (spec.cut_at parser.old) result parser.new }
{
    match parser.take() {
        Some(Token::Ident(name)) => {
            let alias = name.copy(alloc)?;
            define_at(alloc, parser, alias)
        }
        Some(Token::Word(Word::Store)) => store_at(alloc, parser),
        _ => Err(Fault::Syntax),
    }
}

/// The statement that these tokens are, as the reading from the left has it.
pub fn cut_body(alloc: Global, cut: &[Placed]) -> Result<Body, Fault>
    ensures { spec.IsBodyOf (map (λ q. q.token) cut.now) result }
{
    let mut parser = Parser::new(cut);
    let body = cut_at(alloc, &mut parser)?;
    if !parser.is_done() {
        return Err(Fault::Syntax);
    }
    Ok(body)
}

/// The statement that these tokens are, both ways: by the grammar.
pub fn statement_body(alloc: Global, cut: &[Placed]) -> Result<Body, Fault>
    ensures sound { IfOk result (λ b. IsStatement (map (λ q. q.token) cut.now) b) }
    ensures complete { (b : Body) → IsStatement (map (λ q. q.token) cut.now) b → MatchResult result (λ found. found ≡ b) (λ e. e ≡ Fault.NoMemory) }
{
    cut_body(alloc, cut)
}

/// Tokens are one statement at most.
pub fn one_statement()
    ensures { OneStatement }
{}
