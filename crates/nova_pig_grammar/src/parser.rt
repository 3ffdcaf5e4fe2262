//! Reads expressions from tokens.

ghost use Rattle.std.specs.Prelude.{◌≡◌, ◌<◌, ◌↔◌, [], ◌∷◌, List, length, map, MatchOption, IsTrue, OnOk, IfOk};
ghost use Rattle.nova_pig_grammar.specs.Operators as spec;
ghost use Rattle.nova_pig_tree.specs.declared.token.Token.{Token};
ghost use Rattle.nova_pig_grammar.specs.ExpressionReading.{Answers, Eats, Decides, Next, NextComparison, NextMark, expected, read, opened, named, single, field_after, group_after, field_at, call_field, call_after, At};
ghost use Rattle.nova_pig_grammar.specs.Expression.{Left, Neg, Comp, Unary, Primary, operand, whole};

use crate::fault::Fault;
use crate::operators::{BinaryOp, Level, Mark, call_kind, comparison, is, operator};
use nova_pig_tree::{CallKind, CompareOp, Expr, Field, Placed, Str, Symbol, Token};
use sqlite_items::Boxed;
use std::alloc::{AllocError, Global};
use std::marker::Model;

/// The expression of two operands.
fn combine(
    alloc: Global,
    op: BinaryOp,
    a: Boxed<Expr>,
    b: Boxed<Expr>,
) -> Result<Boxed<Expr>, AllocError>
    ensures { IfOk result (λ x. x ≡ spec.combine op a b) }
{
    let made = match op {
        BinaryOp::Or => Expr::Or(a, b),
        BinaryOp::And => Expr::And(a, b),
        BinaryOp::Add => Expr::Add(a, b),
        BinaryOp::Sub => Expr::Sub(a, b),
        BinaryOp::Mul => Expr::Mul(a, b),
    };
    Boxed::new(alloc, made)
}

/// Reads tokens from the left. Contracts see the tokens that are left; after an error those are
/// open, so a parser that failed is let go.
#[derive(Drop)]
pub struct Parser<'a> {
    tokens: &'a [Placed],
}

impl<'a> Model for Parser<'a> {
    ghost use Rattle.std.specs.Prelude.{List, map};
    ghost use Rattle.nova_pig_tree.specs.declared.token.Token.{Token};

    ghost Value = { List Token };

    ghost view = { λ p. map (λ q. q.token) p.tokens.now };
}

impl<'a> Parser<'a> {
    /// A parser of all these tokens.
    pub fn new(tokens: &'a [Placed]) -> Parser<'a>
        ensures { result ≡ map (λ q. q.token) tokens.now }
    {
        Parser { tokens }
    }

    /// Whether no token is left.
    pub fn is_done(&self) -> bool
        ensures { IsTrue result ↔ (self.now ≡ []) }
    {
        self.tokens.is_empty()
    }

    /// Takes the next token.
    pub fn take(&mut self) -> Option<&'a Token>
        ensures { MatchOption result ((self.old ≡ []) × (self.new ≡ [])) (λ t. self.old ≡ t.now ∷ self.new) }
    {
        let Some((first, rest)) = self.tokens.split_first() else {
            return None;
        };
        self.tokens = rest;
        Some(&first.token)
    }

    /// The next token, which stays.
    pub fn peek(&self) -> Option<&'a Token>
        ensures { MatchOption result (self.now ≡ []) (λ t. (rest : List Token) × (self.now ≡ t.now ∷ rest)) }
    {
        let Some((first, _)) = self.tokens.split_first() else {
            return None;
        };
        Some(&first.token)
    }

    /// Takes this token, if it is next.
    pub fn eat(&mut self, mark: Mark) -> bool
        ensures token { Eats mark result self.old self.new }
        // What reading goes on with, where the token decides it.
        ensures reading { Decides mark result self.old self.new }
    {
        let Some((first, rest)) = self.tokens.split_first() else {
            return false;
        };
        if is(mark, &first.token) {
            self.tokens = rest;
            true
        } else {
            false
        }
    }

    /// Takes this token, which is next.
    pub fn expect(&mut self, mark: Mark) -> Result<(), Fault>
        ensures reading { Answers (expected mark self.old) result self.new }
        ensures shorter { OnOk result (length self.new < length self.old) }
    {
        if self.eat(mark) {
            Ok(())
        } else {
            Err(Fault::Syntax)
        }
    }

    /// Takes an expression, the longest that the tokens begin with.
    pub fn whole(&mut self, alloc: Global) -> Result<Boxed<Expr>, Fault>
        ensures { Answers (read (At whole) self.old) result self.new }
    {
        self.left(alloc, Level::Or)
    }

    /// Takes the operator of this level, if one is next.
    fn operator(&mut self, level: Level) -> Option<BinaryOp>
        ensures { Next level result self.old self.new }
    {
        let Some((first, rest)) = self.tokens.split_first() else {
            return None;
        };
        match operator(level, &first.token) {
            Some(op) => {
                self.tokens = rest;
                Some(op)
            }
            None => None,
        }
    }

    /// Takes a comparison, if one is next.
    fn comparison(&mut self) -> Option<CompareOp>
        ensures { NextComparison result self.old self.new }
    {
        let Some((first, rest)) = self.tokens.split_first() else {
            return None;
        };
        match comparison(&first.token) {
            Some(op) => {
                self.tokens = rest;
                Some(op)
            }
            None => None,
        }
    }

    /// A primary that is no expression in parentheses.
    fn single(&mut self, alloc: Global) -> Result<Expr, Fault>
        ensures { Answers (single self.old) result self.new }
    {
        let Some((first, rest)) = self.tokens.split_first() else {
            return Err(Fault::Syntax);
        };
        self.tokens = rest;
        match &first.token {
            Token::Number(n) => Ok(Expr::Num(*n)),
            Token::Literal(text) => Ok(Expr::Lit(text.copy(alloc)?)),
            Token::Position(n) => Ok(Expr::Ref(Field::At(*n))),
            Token::Group(true) => Ok(Expr::Ref(self.group_after(alloc)?)),
            Token::Ident(name) => self.named(alloc, name),
            _ => Err(Fault::Syntax),
        }
    }

    /// What follows the first name of a call or a field.
    fn named(&mut self, alloc: Global, name: &Str) -> Result<Expr, Fault>
        ensures { Answers (named name.now self.old) result self.new }
    {
        let Some(kind) = call_kind(name.bytes()) else {
            return Ok(Expr::Ref(self.field_after(alloc, name)?));
        };
        let Some((first, rest)) = self.tokens.split_first() else {
            return Ok(Expr::Ref(self.field_after(alloc, name)?));
        };
        let Token::Symbol(Symbol::Open) = &first.token else {
            return Ok(Expr::Ref(self.field_after(alloc, name)?));
        };
        self.tokens = rest;
        self.call_after(alloc, kind)
    }

    /// What follows the name of a call and its `(`.
    fn call_after(&mut self, alloc: Global, kind: CallKind) -> Result<Expr, Fault>
        ensures { Answers (call_after kind self.old) result self.new }
    {
        let Some((first, rest)) = self.tokens.split_first() else {
            return Err(Fault::Syntax);
        };
        let Token::Ident(name) = &first.token else {
            return Err(Fault::Syntax);
        };
        let alias = name.copy(alloc)?;
        self.tokens = rest;
        let field = self.call_field(alloc)?;
        self.expect(Mark::Close)?;
        Ok(Expr::Call { kind, alias, field })
    }

    /// The field of a call, if a dot follows its name.
    fn call_field(&mut self, alloc: Global) -> Result<Option<Field>, Fault>
        ensures { Answers (call_field self.old) result self.new }
    {
        let Some((first, rest)) = self.tokens.split_first() else {
            return Ok(None);
        };
        let Token::Symbol(Symbol::Dot) = &first.token else {
            return Ok(None);
        };
        self.tokens = rest;
        Ok(Some(self.field(alloc)?))
    }

    /// Takes a field.
    pub fn field(&mut self, alloc: Global) -> Result<Field, Fault>
        ensures { Answers (field_at self.old) result self.new }
    {
        let Some((first, rest)) = self.tokens.split_first() else {
            return Err(Fault::Syntax);
        };
        self.tokens = rest;
        match &first.token {
            Token::Ident(name) => self.field_after(alloc, name),
            Token::Group(true) => self.group_after(alloc),
            Token::Position(n) => Ok(Field::At(*n)),
            _ => Err(Fault::Syntax),
        }
    }

    /// What follows `group` as a field.
    fn group_after(&mut self, alloc: Global) -> Result<Field, Fault>
        ensures { Answers (group_after self.old) result self.new }
    {
        let Some((first, rest)) = self.tokens.split_first() else {
            return self.group_field(alloc);
        };
        let Token::Symbol(Symbol::Dot) = &first.token else {
            return self.group_field(alloc);
        };
        let Some((second, rest)) = rest.split_first() else {
            return Err(Fault::Syntax);
        };
        let Token::Ident(second) = &second.token else {
            return Err(Fault::Syntax);
        };
        let second = second.copy(alloc)?;
        self.tokens = rest;
        Ok(Field::GroupOf(second))
    }

    /// What follows `group`, where no dot does.
    fn group_field(&mut self, alloc: Global) -> Result<Field, Fault>
        ensures { Answers (field_after spec.group_word self.old) result self.new }
    {
        let group = Str::new(alloc, "group")?;
        self.field_after(alloc, &group)
    }

    /// What follows the first name of a field.
    fn field_after(&mut self, alloc: Global, name: &Str) -> Result<Field, Fault>
        ensures { Answers (field_after name.now self.old) result self.new }
    {
        let name = name.copy(alloc)?;
        let Some((first, rest)) = self.tokens.split_first() else {
            return Ok(Field::Plain(name));
        };
        let Token::Symbol(Symbol::ColonColon) = &first.token else {
            return Ok(Field::Plain(name));
        };
        let Some((second, rest)) = rest.split_first() else {
            return Err(Fault::Syntax);
        };
        let Token::Ident(second) = &second.token else {
            return Err(Fault::Syntax);
        };
        let second = second.copy(alloc)?;
        self.tokens = rest;
        Ok(Field::Of(name, second))
    }

    /// Operands of a level with its operators between them.
    #[cycle(parser)]
    fn left(&mut self, alloc: Global, level: Level) -> Result<Boxed<Expr>, Fault>
        ensures reading { Answers (read (At (Left level)) self.old) result self.new }
        ensures shorter { OnOk result (length self.new < length self.old) }
    {
        let mut x = self.operand(alloc, level)?;
        while let Some(op) = self.operator(level) {
            let y = self.operand(alloc, level)?;
            x = combine(alloc, op, x, y)?;
        }
        Ok(x)
    }

    /// An operand of a level: what binds one step tighter.
    #[cycle(parser)]
    fn operand(&mut self, alloc: Global, level: Level) -> Result<Boxed<Expr>, Fault>
        ensures reading { Answers (read (At (operand level)) self.old) result self.new }
        ensures shorter { OnOk result (length self.new < length self.old) }
    {
        match level {
            Level::Or => self.left(alloc, Level::And),
            Level::And => self.neg(alloc),
            Level::Sum => self.left(alloc, Level::Prod),
            Level::Prod => self.unary(alloc),
        }
    }

    /// `NOT` and what it stands before, or a comparison.
    #[cycle(parser)]
    fn neg(&mut self, alloc: Global) -> Result<Boxed<Expr>, Fault>
        ensures reading { Answers (read (At Neg) self.old) result self.new }
        ensures shorter { OnOk result (length self.new < length self.old) }
    {
        if !self.eat(Mark::Not) {
            return self.comp(alloc);
        }
        let inner = self.neg(alloc)?;
        Ok(Boxed::new(alloc, Expr::Not(inner))?)
    }

    /// A sum, or two of them compared.
    #[cycle(parser)]
    fn comp(&mut self, alloc: Global) -> Result<Boxed<Expr>, Fault>
        ensures reading { Answers (read (At Comp) self.old) result self.new }
        ensures shorter { OnOk result (length self.new < length self.old) }
    {
        let a = self.left(alloc, Level::Sum)?;
        let Some(op) = self.comparison() else {
            return Ok(a);
        };
        let b = self.left(alloc, Level::Sum)?;
        Ok(Boxed::new(alloc, Expr::Compare { op, a, b })?)
    }

    /// `-` and what it stands before, or a primary.
    #[cycle(parser)]
    fn unary(&mut self, alloc: Global) -> Result<Boxed<Expr>, Fault>
        ensures reading { Answers (read (At Unary) self.old) result self.new }
        ensures shorter { OnOk result (length self.new < length self.old) }
    {
        if !self.eat(Mark::Minus) {
            return self.primary(alloc);
        }
        let inner = self.unary(alloc)?;
        Ok(Boxed::new(alloc, Expr::Neg(inner))?)
    }

    /// A number, a literal, a call, a field, or an expression in parentheses.
    #[cycle(parser)]
    fn primary(&mut self, alloc: Global) -> Result<Boxed<Expr>, Fault>
        ensures reading { Answers (read (At Primary) self.old) result self.new }
        ensures shorter { OnOk result (length self.new < length self.old) }
    {
        if !self.eat(Mark::Open) {
            return Ok(Boxed::new(alloc, self.single(alloc)?)?);
        }
        let first = self.left(alloc, Level::Or)?;
        self.opened(alloc, first)
    }

    /// What follows the first expression in parentheses.
    #[cycle(parser)]
    fn opened(&mut self, alloc: Global, cond: Boxed<Expr>) -> Result<Boxed<Expr>, Fault>
        ensures reading { Answers (opened read cond self.old) result self.new }
        ensures shorter { OnOk result (length self.new < length self.old) }
    {
        if !self.mark()? {
            return Ok(cond);
        }
        let a = self.left(alloc, Level::Or)?;
        self.expect(Mark::Colon)?;
        let b = self.left(alloc, Level::Or)?;
        self.expect(Mark::Close)?;
        Ok(Boxed::new(alloc, Expr::If { cond, a, b })?)
    }

    /// After the first expression in parentheses: whether it is a condition.
    fn mark(&mut self) -> Result<bool, Fault>
        ensures { NextMark result self.old self.new }
    {
        let Some((first, rest)) = self.tokens.split_first() else {
            return Err(Fault::Syntax);
        };
        match &first.token {
            Token::Symbol(Symbol::Close) => {
                self.tokens = rest;
                Ok(false)
            }
            Token::Symbol(Symbol::Question) => {
                self.tokens = rest;
                Ok(true)
            }
            _ => Err(Fault::Syntax),
        }
    }
}
