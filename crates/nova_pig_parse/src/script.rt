//! Statements, cut by cut.

ghost use Rattle.std.specs.Prelude.{◌≡◌, ◌≢◌, ◌<◌, ◌≤◌, ◌+◌, [], length, false, true};
ghost use Rattle.nova_pig_parse.specs.Script as script;
ghost use Rattle.nova_pig_parse.specs.Parse as spec;

use crate::limit::{count_semicolons, is_semicolon};
use crate::text::ParseFault;
use nova_pig_grammar::{Fault, cut_body};
use nova_pig_tree::{Body, Placed, Statement};
use sqlite_items::Items;
use std::alloc::Global;

/// How many tokens stand before the first `;`.
#[tactic(auto, unfolding(crate::specs::Parse::before_semicolon))]
fn before_semicolon(mut tokens: &[Placed]) -> usize
    ensures value { result ≡ spec.before_semicolon tokens.entry.now }
    ensures within { result ≤ length tokens.entry.now }
{
    let mut n = 0;
    while let Some((p, rest)) = tokens.split_first() {
        if is_semicolon(&p.token) {
            return n;
        }
        tokens = rest;
        n += 1;
    }
    n
}

/// Whether no cut follows.
#[tactic(auto, using(crate::proofs::Cuts::not_none), unfolding(crate::specs::Parse::cuts))]
fn is_none(tokens: &[Placed]) -> bool
    ensures { result ≡ spec.is_none (spec.cuts tokens.now) }
{
    let Some((_first, _rest)) = tokens.split_first() else {
        return true;
    };
    false
}

/// The first cut, and what follows it.
fn next_cut(tokens: &[Placed]) -> (&[Placed], &[Placed])
    requires { 0 < length tokens.now }
    ensures split { spec.IsSplit tokens.now result.0.now result.1.now }
    ensures shorter { length result.1.now < length tokens.now }
{
    let n = before_semicolon(tokens);
    if n < tokens.len() {
        tokens.split_at(n + 1)
    } else {
        tokens.split_at(n)
    }
}

/// Whether the statement stores.
fn is_store(body: &Body) -> bool
    ensures { result ≡ spec.is_store body.now }
{
    matches!(body, Body::Store { .. })
}

/// The place of a cut that is no statement, in a text of this length.
fn place(cut: &[Placed], len: u64) -> u64
    ensures { result ≡ script.place len cut.now }
{
    let Some((first, _)) = cut.split_first() else {
        return len;
    };
    if count_semicolons(cut) > 0 {
        first.start
    } else {
        len
    }
}

/// Where the last token ends, or the place where there is none.
fn end_of(at: u64, mut cut: &[Placed]) -> u64
    ensures { result ≡ script.end_of at cut.entry.now }
{
    let mut end = at;
    while let Some((p, rest)) = cut.split_first() {
        end = p.end;
        cut = rest;
    }
    end
}

/// The statement of a cut, with its span.
fn spanned(cut: &[Placed], body: Body) -> Statement
    ensures { result ≡ script.spanned cut.now body }
{
    let Some((first, rest)) = cut.split_first() else {
        return Statement {
            start: 0,
            end: 0,
            body,
        };
    };
    Statement {
        start: first.start,
        end: end_of(first.end, rest),
        body,
    }
}

/// The statement of one cut, or the Syntax fault at it.
fn statement_of(
    alloc: Global,
    cut: &[Placed],
    is_last: bool,
    len: u64,
) -> Result<Statement, ParseFault>
    ensures { spec.IsParseOf (spec.read_cut len is_last cut.now) result }
{
    match cut_body(alloc, cut) {
        Ok(body) => {
            if is_store(&body) && !is_last {
                Err(ParseFault::Syntax {
                    at: place(cut, len),
                })
            } else {
                Ok(spanned(cut, body))
            }
        }
        Err(Fault::Syntax) => Err(ParseFault::Syntax {
            at: place(cut, len),
        }),
        Err(Fault::NoMemory) => Err(ParseFault::NoMemory),
    }
}

/// The statements of the tokens of a text of this length.
pub fn statements_of(
    alloc: Global,
    tokens: &[Placed],
    len: u64,
) -> Result<Items<Statement>, ParseFault>
    ensures { spec.IsParseOf (spec.statements len (spec.cuts tokens.now)) result }
{
    let mut out = Items::new(alloc);
    let mut rest = tokens;
    while !rest.is_empty() {
        let (cut, more) = next_cut(rest);
        out.push(statement_of(alloc, cut, is_none(more), len)?)?;
        rest = more;
    }
    Ok(out)
}
