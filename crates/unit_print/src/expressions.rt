//! Expressions, with the parentheses that the grammar requires and no others.
ghost use Rattle.std.specs.Prelude.{◌≡◌, ◌∷◌, OnOk};
ghost use Rattle.unit_tree.specs.Canonical.{canonical_phrase, placed, expression_tokens};
ghost use Rattle.unit_tree.specs.Phrases as phrase;
ghost use Rattle.unit_tree.specs.Phrases.{phrase_tokens, binary_level, left_level, right_level, unary_level, operand_level, in_parens, keyword, symbol, operation, truth_word};
ghost use Rattle.unit_print.specs.Growing.{with_token, with_tokens};
ghost use Rattle.unit_print.specs.Calls.{is_call};
ghost use Rattle.unit_tree.specs.Levels.{grammar_level};

use crate::levels::{is_call, level_of};
use crate::tokens::{keyword, name, number, symbol};
use fixed_words::NoMemory;
use unit_tree::levels::{Level, allows, binary_level, left_level, right_level};
use unit_tree::{BinOp, Expr, Keyword, Symbol, UnOp};

fn truth_word(told: bool) -> Keyword
    ensures { result ≡ truth_word told }
{
    if told { Keyword::True } else { Keyword::False }
}

/// Appends a truth value.
pub(crate) fn truth(text: &mut Vec<u8>, told: bool) -> Result<(), NoMemory>
    ensures { OnOk result (text.new.items ≡ with_token text.old.items (keyword (truth_word told))) }
{
    keyword(text, truth_word(told))
}

/// Appends the token of an operation on two operands.
fn operation(text: &mut Vec<u8>, op: BinOp) -> Result<(), NoMemory>
    ensures { OnOk result (text.new.items ≡ with_token text.old.items (operation op)) }
{
    match op {
        BinOp::Add => symbol(text, Symbol::Plus),
        BinOp::Sub => symbol(text, Symbol::Minus),
        BinOp::Mul => symbol(text, Symbol::Star),
        BinOp::Slash => symbol(text, Symbol::Slash),
        BinOp::Div => keyword(text, Keyword::Div),
        BinOp::Mod => keyword(text, Keyword::Mod),
        BinOp::Eq => symbol(text, Symbol::Equals),
        BinOp::Ne => symbol(text, Symbol::Differs),
        BinOp::Lt => symbol(text, Symbol::Less),
        BinOp::Le => symbol(text, Symbol::AtMost),
        BinOp::Gt => symbol(text, Symbol::Greater),
        BinOp::Ge => symbol(text, Symbol::AtLeast),
        BinOp::And => keyword(text, Keyword::And),
        BinOp::Or => keyword(text, Keyword::Or),
        BinOp::Min => keyword(text, Keyword::Min),
        BinOp::Max => keyword(text, Keyword::Max),
    }
}

/// Appends an expression where the grammar requires a level: in parentheses exactly where its own level
/// is weaker.
#[cycle(expression)]
#[tactic(auto, using(crate::proofs::GrowingTexts::tokens_append))]
fn put_placed(text: &mut Vec<u8>, asked: Level, expr: &Expr) -> Result<(), NoMemory>
    ensures { OnOk result (text.new.items ≡ with_tokens text.old.items (phrase_tokens (placed (grammar_level asked) (canonical_phrase expr.now)))) }
{
    if allows(asked, level_of(expr)) {
        expression(text, expr)
    } else {
        put_in_parens(text, expr)
    }
}

#[cycle(expression)]
#[tactic(auto, using(crate::proofs::GrowingTexts::tokens_append))]
fn put_in_parens(text: &mut Vec<u8>, expr: &Expr) -> Result<(), NoMemory>
    ensures { OnOk result (text.new.items ≡ with_tokens text.old.items (in_parens (expression_tokens expr.now))) }
{
    symbol(text, Symbol::Open)?;
    expression(text, expr)?;
    symbol(text, Symbol::Close)
}

#[cycle(expression)]
#[tactic(auto, using(crate::proofs::GrowingTexts::tokens_append))]
fn unary(text: &mut Vec<u8>, op: UnOp, arg: &Expr) -> Result<(), NoMemory>
    ensures { OnOk result (text.new.items ≡ with_tokens text.old.items (phrase_tokens (phrase.Unary op (placed (operand_level (unary_level op)) (canonical_phrase arg.now))))) }
{
    match op {
        UnOp::Neg => {
            symbol(text, Symbol::Minus)?;
            put_placed(text, Level::Negation, arg)
        }
        UnOp::Not => {
            keyword(text, Keyword::Not)?;
            put_placed(text, Level::Not, arg)
        }
        UnOp::Abs => {
            keyword(text, Keyword::Abs)?;
            put_in_parens(text, arg)
        }
        UnOp::ToInt => {
            keyword(text, Keyword::Int)?;
            put_in_parens(text, arg)
        }
        UnOp::ToFix(decimals) => {
            keyword(text, Keyword::Fix)?;
            number(text, u64::from(decimals), 0)?;
            put_in_parens(text, arg)
        }
    }
}

/// Appends a keyword and an expression after it.
#[cycle(expression)]
fn behind_keyword(text: &mut Vec<u8>, word: Keyword, expr: &Expr) -> Result<(), NoMemory>
    ensures { OnOk result (text.new.items ≡ with_tokens text.old.items (keyword word ∷ expression_tokens expr.now)) }
{
    keyword(text, word)?;
    expression(text, expr)
}

/// Appends a symbol and an expression after it.
#[cycle(expression)]
fn behind_symbol(text: &mut Vec<u8>, spelled: Symbol, expr: &Expr) -> Result<(), NoMemory>
    ensures { OnOk result (text.new.items ≡ with_tokens text.old.items (symbol spelled ∷ expression_tokens expr.now)) }
{
    symbol(text, spelled)?;
    expression(text, expr)
}

/// `present(u)`
fn present(text: &mut Vec<u8>, event: &[u8]) -> Result<(), NoMemory>
    ensures { OnOk result (text.new.items ≡ with_tokens text.old.items (phrase_tokens (phrase.Present event.now))) }
{
    keyword(text, Keyword::Present)?;
    symbol(text, Symbol::Open)?;
    name(text, event)?;
    symbol(text, Symbol::Close)
}

/// Appends an expression without needless parentheses.
#[cycle(expression)]
#[tactic(auto, using(crate::proofs::GrowingTexts::tokens_append, crate::proofs::GrowingTexts::infix_tokens, crate::proofs::GrowingTexts::call_tokens))]
pub(crate) fn expression(text: &mut Vec<u8>, expr: &Expr) -> Result<(), NoMemory>
    ensures { OnOk result (text.new.items ≡ with_tokens text.old.items (expression_tokens expr.now)) }
{
    match expr {
        Expr::Number { word, decimals } => number(text, word.unsigned_abs(), *decimals),
        Expr::Truth(told) => truth(text, *told),
        Expr::Var(variable) => name(text, variable.as_slice()),
        Expr::Time => keyword(text, Keyword::Time),
        Expr::Step => keyword(text, Keyword::Length),
        Expr::Unary { op, arg } => unary(text, *op, arg.get()),
        Expr::Binary { op, left, right } if is_call(*op) => {
            operation(text, *op)?;
            behind_symbol(text, Symbol::Open, left.get())?;
            behind_symbol(text, Symbol::Comma, right.get())?;
            symbol(text, Symbol::Close)
        }
        Expr::Binary { op, left, right } => {
            let level = binary_level(*op);
            put_placed(text, left_level(level), left.get())?;
            operation(text, *op)?;
            put_placed(text, right_level(level), right.get())
        }
        Expr::Clamp { value, low, high } => {
            keyword(text, Keyword::Clamp)?;
            behind_symbol(text, Symbol::Open, value.get())?;
            behind_symbol(text, Symbol::Comma, low.get())?;
            behind_symbol(text, Symbol::Comma, high.get())?;
            symbol(text, Symbol::Close)
        }
        Expr::Choose { cond, yes, no } => {
            behind_keyword(text, Keyword::If, cond.get())?;
            behind_keyword(text, Keyword::Then, yes.get())?;
            behind_keyword(text, Keyword::Else, no.get())
        }
        Expr::Absent => keyword(text, Keyword::Absent),
        Expr::Present(event) => present(text, event.as_slice()),
    }
}
