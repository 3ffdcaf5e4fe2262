//! A tree as text: each operation in parentheses, each statement on a line with its span.
use crate::text::{Done, add, add_line, add_number, add_place, sign};
use nova_pig_grammar::{read_expr, statement_body};
use nova_pig_parse::parse;
use nova_pig_scan::tokens_of;
use nova_pig_tree::{Body, CallKind, Expr, Field, Item, Kind, Op, Placed, Script, Str};
use sqlite_items::Items;
use std::alloc::{AllocError, Global};

fn add_text(out: &mut Vec<u8>, text: &Str) -> Done {
    out.extend_from_slice(text.bytes())
}

fn add_field(alloc: Global, out: &mut Vec<u8>, field: &Field) -> Done {
    match field {
        Field::Plain(name) => add_text(out, name),
        Field::Of(alias, name) => {
            add_text(out, alias)?;
            add(out, "::")?;
            add_text(out, name)
        }
        Field::GroupOf(name) => {
            add(out, "group.")?;
            add_text(out, name)
        }
        Field::At(n) => {
            add(out, "$")?;
            add_place(alloc, out, *n)
        }
    }
}

fn add_call(
    alloc: Global,
    out: &mut Vec<u8>,
    kind: CallKind,
    alias: &Str,
    field: &Option<Field>,
) -> Done {
    let name = match kind {
        CallKind::Count => "count(",
        CallKind::Sum => "sum(",
        CallKind::Min => "min(",
        CallKind::Max => "max(",
    };
    add(out, name)?;
    add_text(out, alias)?;
    if let Some(field) = field {
        add(out, ".")?;
        add_field(alloc, out, field)?;
    }
    add(out, ")")
}

fn add_literal(out: &mut Vec<u8>, text: &Str) -> Done {
    add(out, "'")?;
    add_text(out, text)?;
    add(out, "'")
}

fn add_expr(alloc: Global, out: &mut Vec<u8>, expr: &Expr) -> Done {
    match expr {
        Expr::Num(n) => add_number(alloc, out, *n),
        Expr::Lit(text) => add_literal(out, text),
        Expr::Ref(field) => add_field(alloc, out, field),
        Expr::Call { kind, alias, field } => add_call(alloc, out, *kind, alias, field),
        Expr::Add(a, b) => {
            add(out, "(")?;
            add_expr(alloc, out, a.get())?;
            add(out, " + ")?;
            add_expr(alloc, out, b.get())?;
            add(out, ")")
        }
        Expr::Sub(a, b) => {
            add(out, "(")?;
            add_expr(alloc, out, a.get())?;
            add(out, " - ")?;
            add_expr(alloc, out, b.get())?;
            add(out, ")")
        }
        Expr::Mul(a, b) => {
            add(out, "(")?;
            add_expr(alloc, out, a.get())?;
            add(out, " * ")?;
            add_expr(alloc, out, b.get())?;
            add(out, ")")
        }
        Expr::And(a, b) => {
            add(out, "(")?;
            add_expr(alloc, out, a.get())?;
            add(out, " and ")?;
            add_expr(alloc, out, b.get())?;
            add(out, ")")
        }
        Expr::Or(a, b) => {
            add(out, "(")?;
            add_expr(alloc, out, a.get())?;
            add(out, " or ")?;
            add_expr(alloc, out, b.get())?;
            add(out, ")")
        }
        Expr::Neg(a) => {
            add(out, "(neg ")?;
            add_expr(alloc, out, a.get())?;
            add(out, ")")
        }
        Expr::Not(a) => {
            add(out, "(not ")?;
            add_expr(alloc, out, a.get())?;
            add(out, ")")
        }
        Expr::Compare { op, a, b } => {
            add(out, "(")?;
            add_expr(alloc, out, a.get())?;
            add(out, sign(*op))?;
            add_expr(alloc, out, b.get())?;
            add(out, ")")
        }
        Expr::If { cond, a, b } => {
            add(out, "(")?;
            add_expr(alloc, out, cond.get())?;
            add(out, " ? ")?;
            add_expr(alloc, out, a.get())?;
            add(out, " : ")?;
            add_expr(alloc, out, b.get())?;
            add(out, ")")
        }
    }
}

fn add_item(alloc: Global, out: &mut Vec<u8>, item: &Item) -> Done {
    match item {
        Item::All => add(out, "*"),
        Item::Flatten => add(out, "flatten"),
        Item::Value { expr, name, kind } => {
            add_expr(alloc, out, expr)?;
            if let Some(name) = name {
                add(out, " as ")?;
                add_text(out, name)?;
            }
            match kind {
                Some(Kind::Long) => add(out, ":long"),
                Some(Kind::Text) => add(out, ":text"),
                None => Ok(()),
            }
        }
    }
}

fn add_fields(alloc: Global, out: &mut Vec<u8>, fields: &[Field]) -> Done {
    for field in fields {
        add(out, " ")?;
        add_field(alloc, out, field)?;
    }
    Ok(())
}

fn add_items(alloc: Global, out: &mut Vec<u8>, items: &[Item]) -> Done {
    for item in items {
        add(out, ", ")?;
        add_item(alloc, out, item)?;
    }
    Ok(())
}

fn add_names(out: &mut Vec<u8>, names: &[Str]) -> Done {
    for name in names {
        add(out, " ")?;
        add_text(out, name)?;
    }
    Ok(())
}

fn add_named(out: &mut Vec<u8>, word: &str, name: &Str) -> Done {
    add(out, word)?;
    add_text(out, name)
}

fn add_op(alloc: Global, out: &mut Vec<u8>, op: &Op) -> Done {
    match op {
        Op::Load { channel } => add_named(out, "load ", channel),
        Op::Filter { from, cond } => {
            add_named(out, "filter ", from)?;
            add(out, " by ")?;
            add_expr(alloc, out, cond)
        }
        Op::Foreach { from, items } => {
            add_named(out, "foreach ", from)?;
            add_items(alloc, out, items.as_slice())
        }
        Op::Group { from, by } => {
            add_named(out, "group ", from)?;
            add_fields(alloc, out, by.as_slice())
        }
        Op::Join {
            left,
            left_by,
            right,
            right_by,
        } => {
            add_named(out, "join ", left)?;
            add_fields(alloc, out, left_by.as_slice())?;
            add_named(out, ", ", right)?;
            add_fields(alloc, out, right_by.as_slice())
        }
        Op::Union { arms } => {
            add(out, "union")?;
            add_names(out, arms.as_slice())
        }
        Op::Distinct { from } => add_named(out, "distinct ", from),
    }
}

fn add_body(alloc: Global, out: &mut Vec<u8>, body: &Body) -> Done {
    match body {
        Body::Define { alias, op } => {
            add_text(out, alias)?;
            add(out, " = ")?;
            add_op(alloc, out, op)
        }
        Body::Store { alias, channel } => {
            add_named(out, "store ", alias)?;
            add_named(out, " ", channel)
        }
    }
}

fn add_script(alloc: Global, out: &mut Vec<u8>, script: &Script) -> Done {
    for statement in script.statements() {
        add_place(alloc, out, statement.start)?;
        add(out, "-")?;
        add_place(alloc, out, statement.end)?;
        add(out, " ")?;
        add_body(alloc, out, &statement.body)?;
        add(out, "\n")?;
    }
    Ok(())
}

/// The tree of the text, or its fault.
pub fn show(alloc: Global, text: &str) -> Result<Vec<u8>, AllocError> {
    let mut out = Vec::new(alloc);
    match parse(alloc, text) {
        Ok(script) => add_script(alloc, &mut out, &script)?,
        Err(fault) => add_line(alloc, &mut out, fault)?,
    }
    Ok(out)
}

/// The text's tokens, if it has some.
fn tokens(alloc: Global, text: &str) -> Option<Items<Placed>> {
    if text.len() > 65_536 {
        return None;
    }
    tokens_of(alloc, text).ok()
}

/// The places of the text's tokens.
pub fn show_tokens(alloc: Global, text: &str) -> Result<Vec<u8>, AllocError> {
    let mut out = Vec::new(alloc);
    let Some(tokens) = tokens(alloc, text) else {
        return b"no tokens\n".to_vec(alloc);
    };
    for token in tokens.as_slice() {
        let (start, end) = (token.start, token.end);
        let line = format!(in alloc; "{start}-{end}\n")?;
        add(&mut out, line.as_str())?;
    }
    Ok(out)
}

fn add_expression(alloc: Global, out: &mut Vec<u8>, tokens: &[Placed]) -> Done {
    match read_expr(alloc, tokens) {
        Ok(expr) => add_expr(alloc, out, expr.get())?,
        Err(_) => add(out, "no expression")?,
    }
    add(out, "\n")
}

fn add_statement(alloc: Global, out: &mut Vec<u8>, tokens: &[Placed]) -> Done {
    match statement_body(alloc, tokens) {
        Ok(body) => add_body(alloc, out, &body)?,
        Err(_) => add(out, "no statement")?,
    }
    add(out, "\n")
}

/// The tree of the text's tokens as one expression, or as one statement.
pub fn show_part(alloc: Global, text: &str, is_expression: bool) -> Result<Vec<u8>, AllocError> {
    let mut out = Vec::new(alloc);
    let Some(tokens) = tokens(alloc, text) else {
        return b"no tokens\n".to_vec(alloc);
    };
    if is_expression {
        add_expression(alloc, &mut out, tokens.as_slice())?;
    } else {
        add_statement(alloc, &mut out, tokens.as_slice())?;
    }
    Ok(out)
}
