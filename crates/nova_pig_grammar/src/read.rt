//! The whole of some tokens as one expression.

ghost use Rattle.std.specs.Prelude.{◌≡◌, List, map, IfOk, IsErrOf, MatchResult};
ghost use Rattle.nova_pig_tree.specs.declared.expression.Expr.{Expr};
ghost use Rattle.nova_pig_tree.specs.declared.token.Token.{Token};
ghost use Rattle.nova_pig_grammar.specs.Expression.{Part, Derives, whole};

use crate::fault::Fault;
use crate::parser::Parser;
use nova_pig_tree::{Expr, Placed};
use sqlite_items::Boxed;
use std::alloc::Global;

/// The expression that the tokens are.
pub fn read_expr(alloc: Global, tokens: &[Placed]) -> Result<Boxed<Expr>, Fault>
    // What is read is derived.
    ensures sound { IfOk result (λ x. Derives whole (map (λ q. q.token) tokens.now) x) }
    // What is derived is read, unless memory runs out.
    ensures complete { (x : Expr) → Derives whole (map (λ q. q.token) tokens.now) x → MatchResult result (λ y. y ≡ x) (λ e. e ≡ Fault.NoMemory) }
{
    let mut parser = Parser::new(tokens);
    let found = parser.whole(alloc)?;
    if !parser.is_done() {
        return Err(Fault::Syntax);
    }
    Ok(found)
}

/// Tokens have one reading.
pub fn one_reading()
    ensures { (p : Part) (ts : List Token) (x y : Expr) → Derives p ts x → Derives p ts y → x ≡ y }
{}
